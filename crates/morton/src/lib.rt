// Volumes, their grids, the key of each cell and the cell of each key: by the steps, and by a table for many cells.
#![tactic(auto)]

pub mod axis;
pub mod batch;
pub mod bounds;
pub mod grid;
pub mod keys;
pub mod plan;
pub mod rows;
pub mod scan;
pub mod spread;
pub mod steps;
pub mod table;

use crate::grid::Cell;
pub use bounds::bounds_of;
pub use grid::grid_of;
pub use keys::{cell_of, key_of};
pub use scan::keys_of;
pub use scan::row::row_keys;
