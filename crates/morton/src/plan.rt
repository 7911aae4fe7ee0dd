// The plan of a grid's keys: the turns that all three axes share, and the bits of the turns after
// them by the steps.
pub mod inner;

use crate::grid::Extents;

// What the keys of a grid need, found once: how many of the first turns use all three axes, the
// coarser grid that the later turns see, and how many bits those give.
#[derive(Clone, Copy)]
pub struct Plan {
    pub grid: Extents,
    pub low: u32,
    pub rest: Extents,
    pub bits: u32,
}
