// Where a voxel stands in a chunk: the number of its block, and its own number inside it.

ghost use Rattle.std.specs.Prelude.{◌≡◌};
ghost use Rattle.compressed_segmentation.specs.Layout.{block_number, place_number};

use crate::packed_values::{linear, row_number};
use crate::shape_tests::VoxelShape;
use morton::grid::inner::grid_size;

// The number of the voxel's block, and the voxel's number inside it.
#[tactic(auto, using(crate::proofs::Shapes::positive))]
pub fn block_of(voxels: VoxelShape, x: u32, y: u32, z: u32) -> u128
    ensures { result ≡ block_number voxels.shape x y z }
{
    let extents = voxels.shape.extents;
    let block = voxels.shape.block;
    let across = grid_size(extents.x, block.x);
    let down = grid_size(extents.y, block.y);
    let row = linear(y / block.y, down, z / block.z);
    row_number(x / block.x, across, row)
}

#[tactic(auto, using(crate::proofs::Shapes::positive))]
pub fn place_of(voxels: VoxelShape, x: u32, y: u32, z: u32) -> u128
    ensures { result ≡ place_number voxels.shape x y z }
{
    let block = voxels.shape.block;
    let row = linear(y % block.y, block.y, z % block.z);
    row_number(x % block.x, block.x, row)
}
