// The refusal of the voxels of blocks whose headers are whole and have a width.

ghost use Rattle.std.specs.Prelude.{◌≡◌, true, false, ◌+◌, ◌-◌, ◌*◌, ◌/◌, ◌<◌, ◌≤◌, ◌^◌, length};
ghost use Rattle.compressed_segmentation.specs.Words.{word};
ghost use Rattle.compressed_segmentation.specs.Layout.{width_in, is_width};
ghost use Rattle.compressed_segmentation.specs.block.Voxels.{refusal_in};
ghost use Rattle.compressed_segmentation.specs.block.Checks.{block_count, header_refusal, headers_refusal, inside_of, block_refusal, blocks_refusal, greatest, Visits};
ghost use Rattle.bitmap.specs.visited.Seen.{Blank};

use crate::block::{Block, repeats_header};
use crate::packed_block::packed_refusal;
use crate::packed_values::{entry_label, word_at, words};
use crate::readable::headers::block_count;
use crate::readable::inner::span_of;
use crate::shape_tests::VoxelShape;
use bitmap::visited::{is_seen, see};
use morton::grid::Extents;
use morton::grid::inner::grid_size;
use refusal::Refusal;

fn refusal_of(a: Result<u64, Refusal>) -> u8
    ensures { result ≡ refusal_in a }
{
    match a {
        Ok(_) => 0,
        Err(refusal) => refusal.number(),
    }
}

// How much of block n lies inside the extents.
#[tactic(auto, using(crate::proofs::Shapes::positive))]
fn inside_of(voxels: VoxelShape, n: u64) -> Extents
    requires n_bound { n < block_count voxels.shape }
    ensures { result ≡ inside_of voxels.shape n }
{
    let extents = voxels.shape.extents;
    let block = voxels.shape.block;
    let across = grid_size(extents.x, block.x) as u64;
    let down = grid_size(extents.y, block.y) as u64;
    Extents {
        x: span_of(extents.x, block.x, (n % across) as u32),
        y: span_of(extents.y, block.y, (n / across % down) as u32),
        z: span_of(extents.z, block.z, (n / across / down) as u32),
    }
}

// Block n. At width 0 each voxel has the table's first entry.
fn block_refusal(chunk: &[u8], voxels: VoxelShape, o: u64, n: u64) -> u8
    requires n_bound { n < block_count voxels.shape }
    requires o_bound { (o < 2 ^ 32) × (o + 2 * n + 2 ≤ length chunk.now / 4) × (is_width (width_in (word chunk.now (o + 2 * n))) ≡ true) }
    ensures { result ≡ block_refusal chunk.now voxels.shape o n }
{
    let first = word_at(chunk, o + 2 * n);
    if first / 16777216 == 0 {
        return refusal_of(entry_label(chunk, voxels.shape.wide, o + first % 16777216, 0));
    }
    let second = word_at(chunk, o + 2 * n + 1);
    let block = Block {
        wide: voxels.shape.wide,
        start: o,
        first,
        second,
    };
    packed_refusal(chunk, block, voxels.shape.block, inside_of(voxels, n))
}

// Block n has the header of the block before it and as much inside: it is refused as that one is.
fn repeats(chunk: &[u8], voxels: VoxelShape, o: u64, n: u64) -> bool
    requires n_bound { (0 < n) × (n < block_count voxels.shape) }
    requires o_bound { (o < 2 ^ 32) × (o + 2 * n + 2 ≤ length chunk.now / 4) }
    ensures { result ≡ true → block_refusal chunk.now voxels.shape o (n - 1) ≡ block_refusal chunk.now voxels.shape o n }
{
    if !repeats_header(chunk, o + 2 * n) {
        return false;
    }
    inside_of(voxels, n - 1) == inside_of(voxels, n)
}

// Block n, where none before it is refused.
fn next_refusal(chunk: &[u8], voxels: VoxelShape, o: u64, n: u64) -> u8
    requires n_bound { n < block_count voxels.shape }
    requires o_bound { (o < 2 ^ 32) × (o + 2 * n + 2 ≤ length chunk.now / 4) × (is_width (width_in (word chunk.now (o + 2 * n))) ≡ true) }
    requires none_before { 0 ≡ greatest (block_refusal chunk.now voxels.shape o) n }
    ensures { result ≡ block_refusal chunk.now voxels.shape o n }
{
    if n == 0 {
        return block_refusal(chunk, voxels, o, n);
    }
    if repeats(chunk, voxels, o, n) {
        return 0;
    }
    block_refusal(chunk, voxels, o, n)
}

fn channel_refusal(chunk: &[u8], voxels: VoxelShape, o: u64, count: u64) -> u8
    requires count_value { count ≡ block_count voxels.shape }
    requires o_bound { (o < 2 ^ 32) × (greatest (header_refusal chunk.now o) count ≡ 0) }
    ensures { result ≡ greatest (block_refusal chunk.now voxels.shape o) count }
{
    for n in 0..count {
        let k = next_refusal(chunk, voxels, o, n);
        if 0 < k {
            return k;
        }
    }
    0
}

// A channel at the place of one that was looked at has the same blocks.
fn other_channel(chunk: &[u8], voxels: VoxelShape, known: bool, o: u64, count: u64) -> u8
    requires count_value { count ≡ block_count voxels.shape }
    requires o_bound { (o < 2 ^ 32) × (greatest (header_refusal chunk.now o) count ≡ 0) }
    requires known_readable { known ≡ true → 0 ≡ greatest (block_refusal chunk.now voxels.shape o) count }
    ensures { result ≡ greatest (block_refusal chunk.now voxels.shape o) count }
{
    if known {
        return 0;
    }
    channel_refusal(chunk, voxels, o, count)
}

// The blocks of a chunk whose headers are all whole and have widths. The walk ends at the first channel that is refused.
pub fn blocks_refusal(chunk: &[u8], voxels: VoxelShape, seen: &mut [u64]) -> u8
    requires { (headers_refusal chunk.now voxels.shape ≡ 0) × Blank seen.old }
    ensures value { result ≡ blocks_refusal chunk.now voxels.shape }
    ensures visits { Visits chunk.now voxels.shape.channels result seen.new }
{
    let count = block_count(voxels, words(chunk) / 2 + 1);
    for c in 0..voxels.shape.channels {
        let o = word_at(chunk, c as u64);
        let known = is_seen(seen, o);
        let k = other_channel(chunk, voxels, known, o, count);
        if 0 < k {
            return k;
        }
        see(seen, o);
    }
    0
}
