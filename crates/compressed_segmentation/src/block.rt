// What is tested of one block before its packed values are looked at.

ghost use Rattle.std.specs.Prelude.{◌≡◌, true, false, ◌+◌, ◌/◌, ◌<◌, ◌≤◌, length};
ghost use Rattle.compressed_segmentation.specs.Layout.{width_in};
ghost use Rattle.compressed_segmentation.specs.Labels.{label_words};
ghost use Rattle.compressed_segmentation.specs.block.Checks.{Header, Reached, whole_entries_of, voxels_refusal, repeats_header};

use crate::packed_values::{linear, row_number, word_at, words};
use morton::grid::Extents;

// A block in a channel that begins at word `start`: the two words of its header, and whether its labels have 64 bits or 32.
#[derive(Clone, Copy)]
pub struct Block {
    pub wide: bool,
    pub start: u64,
    pub first: u64,
    pub second: u64,
    pub ghost header: { Header start first second },
}

// Some voxels of a block one after another, from the number step * high on, in a block `step` voxels across.
#[derive(Clone, Copy)]
pub struct Run {
    pub step: u32,
    pub high: u64,
    pub count: u32,
    pub ghost some: { 0 < count },
}

// How many entries of the table at word t are whole.
pub fn whole_entries(chunk: &[u8], wide: bool, t: u64) -> u64
    ensures { result ≡ whole_entries_of chunk.now (label_words wide) t }
{
    let left = words(chunk).saturating_sub(t);
    if wide { left / 2 } else { left }
}

// The packed word of the last voxel inside is whole; otherwise that voxel is refused.
pub fn is_reached(chunk: &[u8], block: Block, size: Extents, inside: Extents) -> bool
    requires first_nonzero { (0 < width_in block.first) × (0 < size.x) × (0 < inside.x) × (0 < inside.y) × (0 < inside.z) }
    ensures reached { result ≡ true → Reached chunk.now block.start block.first block.second size inside }
    ensures refused_28 { result ≡ false → 28 ≡ voxels_refusal chunk.now (label_words block.wide) block.start block.first block.second size inside }
{
    let row = linear(inside.y - 1, size.y, inside.z - 1);
    let last = row_number(inside.x - 1, size.x, row);
    let bit = last.saturating_mul((block.first / 16777216) as u128);
    (block.start + block.second) as u128 + bit / 32 < words(chunk) as u128
}

// The header at word `at` has packed values and is that of the two words before it.
pub fn repeats_header(chunk: &[u8], at: u64) -> bool
    requires { (2 ≤ at) × (at + 2 ≤ length chunk.now / 4) }
    ensures { result ≡ repeats_header chunk.now at }
{
    let first = word_at(chunk, at);
    if first / 16777216 == 0 {
        return false;
    }
    if word_at(chunk, at - 2) != first {
        return false;
    }
    word_at(chunk, at - 1) == word_at(chunk, at + 1)
}
