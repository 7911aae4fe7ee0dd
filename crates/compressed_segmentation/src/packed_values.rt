// The words of a chunk of labels, the values packed in them, and the labels that values lead to in a table.

ghost use Rattle.std.specs.Prelude.{◌≡◌, true, ◌+◌, ◌*◌, ◌/◌, ◌%◌, ◌^◌, ◌<◌, ◌≤◌, ltb, length};
ghost use Rattle.compressed_segmentation.specs.Words.{word};
ghost use Rattle.compressed_segmentation.specs.Layout.{width_in, is_width};
ghost use Rattle.compressed_segmentation.specs.Labels.{label_words};
ghost use Rattle.compressed_segmentation.specs.Steps.{entry_answer, value_answer};
ghost use Rattle.compressed_segmentation.specs.packed_values.Far.{sum_below};

use crate::block::Block;
use endian::{read_u32, read_u64};
use refusal::Refusal;

pub fn linear(a: u32, step: u32, k: u32) -> u64
    ensures { result ≡ a + step * k }
{
    a as u64 + step as u64 * k as u64
}

// The number of the voxel or block at `a` of row `k`, of rows of `step`. It may pass 64 bits.
pub(crate) fn row_number(a: u32, step: u32, k: u64) -> u128
    ensures { result ≡ a + step * k }
{
    a as u128 + step as u128 * k as u128
}

// n, where that is below the limit.
pub fn below(n: u128, limit: u64) -> Option<u64>
    ensures { result ≡ sum_below n limit }
{
    if n < limit as u128 {
        Some(n as u64)
    } else {
        None
    }
}

pub fn two_to(width: u64) -> u64
    requires { width ≤ 32 }
    ensures { (result ≡ 2 ^ width) × (0 < result) × (result ≤ 4294967296) }
{
    1u64 << width
}

pub fn words(chunk: &[u8]) -> u64
    ensures { result ≡ length chunk.now / 4 }
{
    (chunk.len() / 4) as u64
}

// A word as u64: words are summed at 64 bits, and as u32 each sum would cast them, and be no plainer.
pub fn word_at(chunk: &[u8], i: u64) -> u64
    requires { i < length chunk.now / 4 }
    ensures { (result ≡ word chunk.now i) × (result < 4294967296) }
{
    read_u32(chunk, 4 * i as usize) as u64
}

// The word of entry v of the table at word t.
pub fn entry_word(wide: bool, t: u64, v: u64) -> u64
    requires { (t < 2 ^ 34) × (v ≤ 2 ^ 32) }
    ensures { result ≡ t + label_words wide * v }
{
    if wide { t + 2 * v } else { t + v }
}

// Entry v of the table at word t.
pub fn entry_label(chunk: &[u8], wide: bool, t: u64, v: u64) -> Result<u64, Refusal>
    requires { (t < 2 ^ 34) × (v < 2 ^ 32) }
    ensures { result ≡ entry_answer chunk.now (label_words wide) t v }
{
    if wide {
        let at = t + 2 * v;
        if words(chunk) < at + 2 {
            return Err(Refusal::LabelsCutOff);
        }
        return Ok(read_u64(chunk, 4 * at as usize));
    }
    let at = t + v;
    if words(chunk) < at + 1 {
        return Err(Refusal::LabelsCutOff);
    }
    Ok(word_at(chunk, at))
}

// The value of `width` bits of the packed word from bit `shift` on.
pub fn bits(packed: u64, shift: u64, width: u64) -> u64
    requires { (shift < 32) × (width ≤ 32) }
    ensures { (result ≡ packed / 2 ^ shift % 2 ^ width) × (result < 4294967296) }
{
    (packed >> shift) % two_to(width)
}

// The voxel number m of a block whose width is not 0. Where the bits before it pass 128 bits, its word is past the chunk.
fn packed_label(chunk: &[u8], block: Block, m: u128) -> Result<u64, Refusal>
    requires first_nonzero { 0 < width_in block.first }
    ensures { result ≡ value_answer chunk.now (label_words block.wide) block.start block.first block.second m }
{
    let width = block.first / 16777216;
    let bit = m.saturating_mul(width as u128);
    let at = below(
        (block.start + block.second) as u128 + bit / 32,
        words(chunk),
    );
    let Some(i) = at else {
        return Err(Refusal::LabelsCutOff);
    };
    let v = bits(word_at(chunk, i), (bit % 32) as u64, width);
    entry_label(chunk, block.wide, block.start + block.first % 16777216, v)
}

pub fn value_label(chunk: &[u8], block: Block, m: u128) -> Result<u64, Refusal>
    ensures { result ≡ value_answer chunk.now (label_words block.wide) block.start block.first block.second m }
{
    let table = block.start + block.first % 16777216;
    if block.first / 16777216 == 0 {
        return entry_label(chunk, block.wide, table, 0);
    }
    packed_label(chunk, block, m)
}
