// What `locate` makes of its input: the card by its length, and the text of a block of cells.
pub mod blocks;
pub mod frame;
