// Tests of a shape, of a voxel's place and of a width.

ghost use Rattle.std.specs.Prelude.{◌≡◌, false};
ghost use Rattle.compressed_segmentation.specs.Layout.{no_voxels, outside_shape, is_width};

use crate::Shape;
use morton::grid::inner::has_zero;

// A shape with voxels: no extent, no block size and not the channel count is 0.
#[derive(Clone, Copy)]
pub struct VoxelShape {
    pub shape: Shape,
    pub ghost some: { no_voxels shape ≡ false },
}

// An extent, a block size or the channel count is 0.
pub fn has_none(shape: Shape) -> bool
    ensures { result ≡ no_voxels shape }
{
    let extents = shape.extents;
    let block = shape.block;
    has_zero(extents) | (has_zero(block) | (shape.channels == 0))
}

// The voxel or the channel is not one of the chunk's.
pub fn is_outside(shape: Shape, x: u32, y: u32, z: u32, c: u32) -> bool
    ensures { result ≡ outside_shape shape x y z c }
{
    let extents = shape.extents;
    (extents.x <= x) | ((extents.y <= y) | ((extents.z <= z) | (shape.channels <= c)))
}

pub fn is_width(w: u32) -> bool
    ensures { result ≡ is_width w }
{
    [0, 1, 2, 4, 8, 16, 32].contains(&w)
}
