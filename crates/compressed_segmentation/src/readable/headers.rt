// The refusal of a chunk's headers and channel offsets.

ghost use Rattle.std.specs.Prelude.{◌≡◌, true, false, ◌+◌, ◌/◌, ◌<◌, ◌≤◌, ◌^◌, min, max, length};
ghost use Rattle.compressed_segmentation.specs.block.Checks.{block_count, header_refusal, channel_headers, headers_refusal, greatest, Visits};
ghost use Rattle.bitmap.specs.visited.Seen.{Blank};

use crate::packed_values::{linear, word_at, words};
use crate::shape_tests::{VoxelShape, is_width};
use bitmap::visited::{is_seen, see};
use morton::grid::inner::grid_size;

// How many blocks a channel has, at most `most`.
#[tactic(auto, using(crate::proofs::Shapes::positive), unfolding(crate::specs::block::Checks::block_count))]
pub fn block_count(voxels: VoxelShape, most: u64) -> u64
    ensures { result ≡ min (block_count voxels.shape) most }
{
    let extents = voxels.shape.extents;
    let block = voxels.shape.block;
    let across = grid_size(extents.x, block.x);
    let down = grid_size(extents.y, block.y);
    let deep = grid_size(extents.z, block.z);
    let rows = linear(0, down, deep);
    u64::from(across).saturating_mul(rows).min(most)
}

// Header n of the channel at word o.
fn header_refusal(chunk: &[u8], o: u64, n: u64) -> u8
    requires { (o < 2 ^ 32) × (n ≤ length chunk.now / 4) }
    ensures { result ≡ header_refusal chunk.now o n }
{
    let at = o + 2 * n;
    if words(chunk) < at + 2 {
        return 28;
    }
    if is_width((word_at(chunk, at) / 16777216) as u32) {
        return 0;
    }
    29
}

// The first header that is refused decides: where one is not whole, no later one is.
fn headers_at(chunk: &[u8], o: u64, count: u64) -> u8
    requires { (o < 2 ^ 32) × (count ≤ length chunk.now / 4 + 1) }
    ensures { result ≡ greatest (header_refusal chunk.now o) count }
{
    for n in 0..count {
        let k = header_refusal(chunk, o, n);
        if 0 < k {
            return k;
        }
    }
    0
}

// The greatest yet, and that of the channel at word o, unless such a channel was looked at before.
fn with_channel(chunk: &[u8], worst: u8, known: bool, o: u64, count: u64) -> u8
    requires o_bound { (o < 2 ^ 32) × (count ≤ length chunk.now / 4 + 1) }
    requires count_bound { known ≡ true → greatest (header_refusal chunk.now o) count ≤ worst }
    ensures { result ≡ max worst (greatest (header_refusal chunk.now o) count) }
{
    if known {
        return worst;
    }
    worst.max(headers_at(chunk, o, count))
}

// The headers of the first n channels, whose offsets are whole. 29 ends the walk; channels at one place are looked at once.
fn headers_of(chunk: &[u8], count: u64, n: u64, seen: &mut [u64]) -> u8
    requires { (count ≤ length chunk.now / 4 + 1) × (n ≤ length chunk.now / 4) × Blank seen.old }
    ensures value { result ≡ greatest (channel_headers chunk.now count) n }
    ensures visits { Visits chunk.now n result seen.new }
{
    let mut worst = 0u8;
    for c in 0..n {
        let o = word_at(chunk, c);
        let known = is_seen(seen, o);
        worst = with_channel(chunk, worst, known, o, count);
        if worst == 29 {
            return 29;
        }
        see(seen, o);
    }
    worst
}

pub fn headers_refusal(chunk: &[u8], voxels: VoxelShape, seen: &mut [u64]) -> u8
    requires { Blank seen.old }
    ensures value { result ≡ headers_refusal chunk.now voxels.shape }
    ensures visits { Visits chunk.now voxels.shape.channels result seen.new }
{
    let channels = voxels.shape.channels as u64;
    let whole = words(chunk);
    let count = block_count(voxels, whole / 2 + 1);
    if whole < channels {
        return headers_of(chunk, count, whole, seen).max(28);
    }
    headers_of(chunk, count, channels, seen)
}
