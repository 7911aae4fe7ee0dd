// From a voxel to its label: its channel's offset, its block's header, its packed value, its table entry.

ghost use Rattle.std.specs.Prelude.{◌≡◌, ◌+◌, ◌*◌, ◌/◌, ◌^◌, ◌<◌, length};
ghost use Rattle.compressed_segmentation.specs.Labels.{label_words};
ghost use Rattle.compressed_segmentation.specs.Steps.{block_answer, channel_answer, voxel_answer};
ghost use Rattle.compressed_segmentation.specs.packed_values.Far.{sum_below};

use crate::block::Block;
use crate::packed_values::{below, value_label, word_at, words};
use crate::shape_tests::{VoxelShape, is_width};
use crate::voxel_place::{block_of, place_of};
use refusal::Refusal;

// The word after the first of the header of block n, where that header is whole.
fn header_end(chunk: &[u8], o: u64, n: u128) -> Option<u64>
    requires { o < 2 ^ 32 }
    ensures { result ≡ sum_below (o + 2 * n + 1) (length chunk.now / 4) }
{
    let twice = n.saturating_mul(2);
    let end = twice.saturating_add((o + 1) as u128);
    below(end, words(chunk))
}

fn block_label(chunk: &[u8], wide: bool, o: u64, n: u128, m: u128) -> Result<u64, Refusal>
    requires { o < 2 ^ 32 }
    ensures { result ≡ block_answer chunk.now (label_words wide) o n m }
{
    let end = header_end(chunk, o, n);
    let Some(i) = end else {
        return Err(Refusal::LabelsCutOff);
    };
    let first = word_at(chunk, i - 1);
    if !is_width((first / 16777216) as u32) {
        return Err(Refusal::LabelWidth);
    }
    let block = Block {
        wide,
        start: o,
        first,
        second: word_at(chunk, i),
    };
    value_label(chunk, block, m)
}

fn channel_label(chunk: &[u8], wide: bool, c: u32, n: u128, m: u128) -> Result<u64, Refusal>
    ensures { result ≡ channel_answer chunk.now (label_words wide) c n m }
{
    if words(chunk) <= c as u64 {
        return Err(Refusal::LabelsCutOff);
    }
    block_label(chunk, wide, word_at(chunk, c as u64), n, m)
}

pub fn label_in(
    chunk: &[u8],
    voxels: VoxelShape,
    x: u32,
    y: u32,
    z: u32,
    c: u32,
) -> Result<u64, Refusal>
    ensures { result ≡ voxel_answer chunk.now voxels.shape x y z c }
{
    let n = block_of(voxels, x, y, z);
    let m = place_of(voxels, x, y, z);
    channel_label(chunk, voxels.shape.wide, c, n, m)
}
