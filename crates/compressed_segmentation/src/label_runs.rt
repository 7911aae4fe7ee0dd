// Writing a run of labels in the raw form: the part of a row that lies in one block.

ghost use Rattle.std.specs.Prelude.{◌≡◌, false, ◌+◌, ◌*◌, ◌/◌, ◌^◌, ◌<◌, ◌≤◌, length};
ghost use Rattle.endian.specs.Little.{le, le_at};
ghost use Rattle.endian.specs.Place.{paste};
ghost use Rattle.compressed_segmentation.specs.Layout.{width_in};
ghost use Rattle.compressed_segmentation.specs.Labels.{label_words};
ghost use Rattle.compressed_segmentation.specs.raw_form.Raw.{concat_to};
ghost use Rattle.compressed_segmentation.specs.raw_form.Writing.{run_voxel, ReadableRun};

use crate::block::{Block, Run};
use crate::packed_values::{bits, entry_word, word_at};
use endian::{put_u32, put_u64, read_u32, read_u64};

// The label at word i of the chunk.
fn read_label(chunk: &[u8], wide: bool, i: u64) -> u64
    requires { i + label_words wide ≤ length chunk.now / 4 }
    ensures value { result ≡ le_at (4 * label_words wide) chunk.now (4 * i) }
    ensures narrow { wide ≡ false → result < 2 ^ 32 }
{
    let from = 4 * i as usize;
    if wide {
        return read_u64(chunk, from);
    }
    read_u32(chunk, from) as u64
}

// Writes a label; answers the place behind it.
fn store_label(out: &mut [u8], wide: bool, at: usize, label: u64) -> usize
    requires wide_in_bounds { at + 4 * label_words wide ≤ length out.old }
    requires narrow { wide ≡ false → label < 2 ^ 32 }
    ensures value { result ≡ at + 4 * label_words wide }
    ensures out_after { out.new ≡ paste at (le (4 * label_words wide) label) out.old }
{
    if wide {
        put_u64(out, at, label);
        return at + 8;
    }
    put_u32(out, at, label as u32);
    at + 4
}

// The label at word i of the chunk; answers the place behind it.
fn put_label(chunk: &[u8], wide: bool, i: u64, out: &mut [u8], at: usize) -> usize
    requires wide_in_bounds { i + label_words wide ≤ length chunk.now / 4 }
    requires wide_in_bounds_2 { at + 4 * label_words wide ≤ length out.old }
    ensures value { result ≡ at + 4 * label_words wide }
    ensures out_after { out.new ≡ paste at (le (4 * label_words wide) (le_at (4 * label_words wide) chunk.now (4 * i))) out.old }
{
    store_label(out, wide, at, read_label(chunk, wide, i))
}

// A run at width 0: the table's first entry for each voxel. It is read once, since the compiler can't tell that
// no write to `out` changes it, and the loop counts at 64 bits, which takes fewer instructions than at 32.
fn put_flat_run(chunk: &[u8], block: Block, run: Run, out: &mut [u8], at: usize) -> usize
    requires first_value { width_in block.first ≡ 0 }
    requires readable_run { ReadableRun chunk.now (label_words block.wide) block.start block.first block.second run.step run.high run.count }
    requires wide_in_bounds { at + run.count * (4 * label_words block.wide) ≤ length out.old }
    ensures value { result ≡ at + run.count * (4 * label_words block.wide) }
    ensures out_after { out.new ≡ paste at (concat_to (run_voxel chunk.now (label_words block.wide) block.start block.first block.second run.step run.high) run.count) out.old }
{
    let wide = block.wide;
    let label = read_label(chunk, wide, block.start + block.first % 16777216);
    let mut p = at;
    for _u in 0..run.count as u64 {
        p = store_label(out, wide, p, label);
    }
    p
}

// A run of packed values. `from` is the word, and `start` the voxel counted from it, at which the run begins.
fn put_packed_run(chunk: &[u8], block: Block, run: Run, out: &mut [u8], at: usize) -> usize
    requires first_nonzero { 0 < width_in block.first }
    requires readable_run { ReadableRun chunk.now (label_words block.wide) block.start block.first block.second run.step run.high run.count }
    requires wide_in_bounds { at + run.count * (4 * label_words block.wide) ≤ length out.old }
    ensures value { result ≡ at + run.count * (4 * label_words block.wide) }
    ensures out_after { out.new ≡ paste at (concat_to (run_voxel chunk.now (label_words block.wide) block.start block.first block.second run.step run.high) run.count) out.old }
{
    let width = block.first / 16777216;
    let per = 32 / width;
    let from = block.start + block.second + run.step as u64 * (run.high / per);
    let start = run.step as u64 * (run.high % per);
    let table = block.start + block.first % 16777216;
    let wide = block.wide;
    let mut p = at;
    for u in 0..run.count {
        let b = (start + u as u64) * width;
        let v = bits(word_at(chunk, from + b / 32), b % 32, width);
        p = put_label(chunk, wide, entry_word(wide, table, v), out, p);
    }
    p
}

pub fn put_run(chunk: &[u8], block: Block, run: Run, out: &mut [u8], at: usize) -> usize
    requires readable_run { ReadableRun chunk.now (label_words block.wide) block.start block.first block.second run.step run.high run.count }
    requires wide_in_bounds { at + run.count * (4 * label_words block.wide) ≤ length out.old }
    ensures value { result ≡ at + run.count * (4 * label_words block.wide) }
    ensures out_after { out.new ≡ paste at (concat_to (run_voxel chunk.now (label_words block.wide) block.start block.first block.second run.step run.high) run.count) out.old }
{
    if block.first / 16777216 == 0 {
        return put_flat_run(chunk, block, run, out, at);
    }
    put_packed_run(chunk, block, run, out, at)
}
