// Labels inside a chunk: the label of a voxel, a whole chunk unpacked.
// Made by ./interface: change crates/coronagamba, then run it.

ghost use Rattle.std.specs.Prelude.{◌≡◌};
ghost use Rattle.compressed_segmentation.specs.Labels.{label_answer, label_result};
ghost use Rattle.compressed_segmentation.specs.raw_form.Raw.{length_answer, unpack_answer, unpack_left};
ghost use Rattle.refusal.specs.Result.{written_result};
ghost use Rattle.coronagamba.specs.word.Word.{length_after, word_of};
ghost use Rattle.coronagamba.specs.Labels.{label_by, written_by, labels_left_by, shape_of, label_after};

use morton::grid::Extents;

#[unsafe(no_mangle)]
pub extern "C" fn coronagamba_label(
    chunk: &[u8],
    size: Extents,
    block: Extents,
    channels: u32,
    bits: u64,
    x: u32,
    y: u32,
    z: u32,
    channel: u32,
    label: &mut u64,
) -> u64
    ensures answer { result ≡ word_of (label_result (label_by bits (label_answer chunk.now (shape_of size block channels bits) x y z channel))) }
    ensures label { label.new ≡ label_after (label_by bits (label_answer chunk.now (shape_of size block channels bits) x y z channel)) label.old }
{
    coronagamba::labels::coronagamba_label(
        chunk, size, block, channels, bits, x, y, z, channel, label,
    )
}

#[unsafe(no_mangle)]
pub extern "C" fn coronagamba_unpacked_length(
    size: Extents,
    block: Extents,
    channels: u32,
    bits: u64,
    length: &mut u64,
) -> u64
    ensures answer { result ≡ word_of (written_result (written_by bits (length_answer (shape_of size block channels bits)))) }
    ensures length { length.new ≡ length_after (written_by bits (length_answer (shape_of size block channels bits))) length.old }
{
    coronagamba::labels::coronagamba_unpacked_length(size, block, channels, bits, length)
}

#[unsafe(no_mangle)]
pub extern "C" fn coronagamba_unpack(
    chunk: &[u8],
    size: Extents,
    block: Extents,
    channels: u32,
    bits: u64,
    out: &mut [u8],
    length: &mut u64,
) -> u64
    ensures answer { result ≡ word_of (written_result (written_by bits (unpack_answer chunk.now (shape_of size block channels bits) out.old))) }
    ensures out { out.new ≡ labels_left_by bits (unpack_left chunk.now (shape_of size block channels bits) out.old) out.old }
    ensures length { length.new ≡ length_after (written_by bits (unpack_answer chunk.now (shape_of size block channels bits) out.old)) length.old }
{
    coronagamba::labels::coronagamba_unpack(chunk, size, block, channels, bits, out, length)
}
