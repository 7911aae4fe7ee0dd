// Labels inside a chunk: the label of a voxel, a whole chunk unpacked.

ghost use Rattle.std.specs.Prelude.{◌≡◌};
ghost use Rattle.compressed_segmentation.specs.Labels.{label_answer, label_result};
ghost use Rattle.compressed_segmentation.specs.raw_form.Raw.{length_answer, unpack_answer, unpack_left};
ghost use Rattle.refusal.specs.Result.{written_result};
ghost use Rattle.coronagamba.specs.word.Word.{length_after, word_of};
ghost use Rattle.coronagamba.specs.Labels.{no_width, label_by, written_by, labels_left_by, shape_of, label_after};

use crate::answers::put_length;
use compressed_segmentation::Shape;
use morton::grid::Extents;

// No label has this many bits.
fn no_width(bits: u64) -> bool
    ensures { result ≡ no_width bits }
{
    if bits == 32 {
        return false;
    }
    bits != 64
}

// What the caller says of a chunk's labels, as the library takes it.
fn shape_of(size: Extents, block: Extents, channels: u32, bits: u64) -> Shape
    ensures { result ≡ shape_of size block channels bits }
{
    Shape {
        extents: size,
        block,
        channels,
        wide: bits == 64,
    }
}

// The label of a voxel in a chunk of the compressed segmentation encoding. `size` and `block` are the
// chunk's and its blocks' extents in voxels; `bits` is the label width, 32 or 64. Voxel and channel
// count from 0 in the chunk. Writes the label to `label`.
// Refusals: 2 also where `bits` is another number or a block size or the channel count is 0 or a voxel
// or channel is outside, 29, 28
pub fn coronagamba_label(
    chunk: &[u8],
    size: Extents,
    block: Extents,
    channels: u32,
    bits: u64,
    x: u32,
    y: u32,
    z: u32,
    channel: u32,
    label: &mut u64,
) -> u64
    ensures answer { result ≡ word_of (label_result (label_by bits (label_answer chunk.now (shape_of size block channels bits) x y z channel))) }
    ensures label { label.new ≡ label_after (label_by bits (label_answer chunk.now (shape_of size block channels bits) x y z channel)) label.old }
{
    if no_width(bits) {
        return 2;
    }
    match compressed_segmentation::label_of(
        chunk,
        shape_of(size, block, channels, bits),
        x,
        y,
        z,
        channel,
    ) {
        Ok(n) => {
            *label = n;
            0
        }
        Err(refusal) => refusal.number() as u64,
    }
}

// How many bytes a chunk of labels has in the raw form, whatever it holds. `size` and `block` are the
// chunk's and its blocks' extents in voxels; `bits` is the label width, 32 or 64. Writes the number to
// `length`.
// Refusals: 2 also where `bits` is another number or a block size or the channel count is 0, 13 where
// the number does not fit 64 bits
pub fn coronagamba_unpacked_length(
    size: Extents,
    block: Extents,
    channels: u32,
    bits: u64,
    length: &mut u64,
) -> u64
    ensures answer { result ≡ word_of (written_result (written_by bits (length_answer (shape_of size block channels bits)))) }
    ensures length { length.new ≡ length_after (written_by bits (length_answer (shape_of size block channels bits))) length.old }
{
    if no_width(bits) {
        return 2;
    }
    let answer = compressed_segmentation::unpacked_length(shape_of(size, block, channels, bits));
    put_length(answer, length)
}

// A whole chunk of the compressed segmentation encoding in the raw form: labels little-endian, x
// fastest, then y, z, channel. `size` and `block` are the chunk's and its blocks' extents in voxels;
// `bits` is the label width, 32 or 64. Writes the raw form to the front of `out`, which needs the room
// that coronagamba_unpacked_length tells, and its number of bytes to `length`.
// Refusals: 2 also where `bits` is another number or a block size or the channel count is 0, 29 where
// coronagamba_label would give it for any voxel, 28 where else that would for any, 13 where `out` is
// shorter than the raw form
pub fn coronagamba_unpack(
    chunk: &[u8],
    size: Extents,
    block: Extents,
    channels: u32,
    bits: u64,
    out: &mut [u8],
    length: &mut u64,
) -> u64
    ensures answer { result ≡ word_of (written_result (written_by bits (unpack_answer chunk.now (shape_of size block channels bits) out.old))) }
    ensures out { out.new ≡ labels_left_by bits (unpack_left chunk.now (shape_of size block channels bits) out.old) out.old }
    ensures length { length.new ≡ length_after (written_by bits (unpack_answer chunk.now (shape_of size block channels bits) out.old)) length.old }
{
    if no_width(bits) {
        return 2;
    }
    let answer = compressed_segmentation::unpack(chunk, shape_of(size, block, channels, bits), out);
    put_length(answer, length)
}
