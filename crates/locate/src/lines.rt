// The lines that `locate` prints for cells: key, shard file and minishard, or a refusal.
pub mod cells;
pub mod line;
