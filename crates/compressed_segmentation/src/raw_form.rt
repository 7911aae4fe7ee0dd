// The raw form of a chunk of labels: its length.

ghost use Rattle.std.specs.Prelude.{◌≡◌, ◌*◌, ◌<◌, ◌^◌, leb};
ghost use Rattle.compressed_segmentation.specs.Labels.{label_words};
ghost use Rattle.compressed_segmentation.specs.raw_form.Writing.{all_bytes};

use crate::packed_values::linear;
use crate::shape_tests::VoxelShape;

fn label_bytes(wide: bool) -> u64
    ensures { (result ≡ 4 * label_words wide) × (0 < result) }
{
    if wide { 8 } else { 4 }
}

// The raw form has at most len bytes. Its length may pass 64 bits: the voxels of a layer are held against the labels for which there is room.
pub fn has_room(voxels: VoxelShape, len: usize) -> bool
    ensures { result ≡ leb (all_bytes voxels.shape) len }
{
    let shape = voxels.shape;
    let extents = shape.extents;
    let room = len as u64 / label_bytes(shape.wide);
    let layer = linear(0, extents.x, extents.y);
    let layers = linear(0, extents.z, shape.channels);
    layers <= room / layer
}

// How many bytes the raw form has, where that is a number of 64 bits.
pub fn all_bytes(voxels: VoxelShape) -> usize
    requires shape_bound { all_bytes voxels.shape < 2 ^ 64 }
    ensures { result ≡ all_bytes voxels.shape }
{
    let shape = voxels.shape;
    let extents = shape.extents;
    let layer = linear(0, extents.x, extents.y);
    let layers = linear(0, extents.z, shape.channels);
    (label_bytes(shape.wide) * (layer * layers)) as usize
}
