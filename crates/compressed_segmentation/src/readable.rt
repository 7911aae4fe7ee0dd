// Whether each voxel of a chunk has a label, without asking for each: first by the headers, then by what lies in the blocks.
mod blocks;
mod headers;
pub mod inner;
