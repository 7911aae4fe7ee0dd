// The labels inside a chunk, in the compressed segmentation encoding: the label of one voxel.
mod steps;

ghost use Rattle.std.specs.Prelude.{◌≡◌};
ghost use Rattle.compressed_segmentation.specs.Labels.{label_answer};

use crate::Shape;
use crate::shape_tests::{VoxelShape, has_none, is_outside};
use refusal::Refusal;

// The label of a voxel of a channel: 2 where there is no such voxel, 29 where its block's header has a width that is none,
// 28 where something that is to be read for it is not whole in the chunk.
pub fn label_of(chunk: &[u8], shape: Shape, x: u32, y: u32, z: u32, c: u32) -> Result<u64, Refusal>
    ensures answer { result ≡ label_answer chunk.now shape x y z c }
{
    if has_none(shape) {
        return Err(Refusal::NoSuchCell);
    }
    if is_outside(shape, x, y, z, c) {
        return Err(Refusal::NoSuchCell);
    }
    let voxels = VoxelShape { shape };
    steps::label_in(chunk, voxels, x, y, z, c)
}
