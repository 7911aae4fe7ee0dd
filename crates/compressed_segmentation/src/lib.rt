// Labels inside a chunk, in the compressed segmentation encoding: the label of a voxel, a whole chunk unpacked.
#![tactic(auto)]

pub mod block;
pub mod label_rows;
pub mod label_runs;
pub mod packed_block;
pub mod packed_runs;
pub mod packed_values;
pub mod raw_form;
pub mod readable;
pub mod shape_tests;
pub mod unpacking;
pub mod voxel;
pub mod voxel_place;

use morton::grid::Extents;
pub use unpacking::{unpack, unpacked_length};
pub use voxel::label_of;

// How a chunk's labels are laid out: its extents and those of a block in voxels, its channels, and whether a label has 64 bits or 32.
// `wide` comes from the caller at run time. As a const parameter it would double all that lies between the public functions and the few that
// branch on it, and be no plainer.
#[derive(Clone, Copy)]
pub struct Shape {
    pub extents: Extents,
    pub block: Extents,
    pub channels: u32,
    pub wide: bool,
}
