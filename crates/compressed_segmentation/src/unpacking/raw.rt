// Writing the raw form of a chunk in which each voxel has a label.

ghost use Rattle.std.specs.Prelude.{◌≡◌, ◌+◌, ◌<◌, ◌≤◌, length};
ghost use Rattle.endian.specs.Place.{paste};
ghost use Rattle.compressed_segmentation.specs.raw_form.Raw.{raw_layer, raw_channel, raw_form};
ghost use Rattle.compressed_segmentation.specs.raw_form.Writing.{Channel, Layer, layer_bytes, channel_bytes, all_bytes};
ghost use Rattle.compressed_segmentation.specs.block.Voxels.{AllReadable};

use crate::Shape;
use crate::label_rows::VoxelRow;
use crate::shape_tests::VoxelShape;

// One loop for each axis. One function over a closure would have to say what each call writes, and be no plainer.
fn put_layer(chunk: &[u8], shape: Shape, c: u32, z: u32, out: &mut [u8], at: usize) -> usize
    requires layer { Layer chunk.now shape c z }
    requires shape_in_bounds { at + layer_bytes shape ≤ length out.old }
    ensures value { result ≡ at + layer_bytes shape }
    ensures out_after { out.new ≡ paste at (raw_layer chunk.now shape c z) out.old }
{
    let extents = shape.extents;
    let mut p = at;
    for y in 0..extents.y {
        let row = VoxelRow {
            chunk,
            shape,
            c,
            z,
            y,
        };
        p = row.put(out, p);
    }
    p
}

fn put_channel(chunk: &[u8], shape: Shape, c: u32, out: &mut [u8], at: usize) -> usize
    requires channel { Channel chunk.now shape c }
    requires shape_in_bounds { at + channel_bytes shape ≤ length out.old }
    ensures value { result ≡ at + channel_bytes shape }
    ensures out_after { out.new ≡ paste at (raw_channel chunk.now shape c) out.old }
{
    let extents = shape.extents;
    let mut p = at;
    for z in 0..extents.z {
        p = put_layer(chunk, shape, c, z, out, p);
    }
    p
}

// The raw form, at the front of an output that has room for it; answers its length.
pub fn put_all(chunk: &[u8], voxels: VoxelShape, out: &mut [u8]) -> usize
    requires all_readable { AllReadable chunk.now voxels.shape }
    requires shape_in_bounds { all_bytes voxels.shape ≤ length out.old }
    ensures value { result ≡ all_bytes voxels.shape }
    ensures out_after { out.new ≡ paste 0 (raw_form chunk.now voxels.shape) out.old }
{
    let shape = voxels.shape;
    let mut p = 0;
    for c in 0..shape.channels {
        p = put_channel(chunk, shape, c, out, p);
    }
    p
}
