// The chunks of a minishard copied in stored order, and its row of start steps.

ghost use Rattle.std.specs.Prelude.{◌≡◌, ◌+◌, ◌-◌, ◌*◌, ◌<◌, ◌≤◌, ◌++◌, length, replicate};
ghost use Rattle.endian.specs.Little.{le};
ghost use Rattle.endian.specs.Place.{paste};
ghost use Rattle.endian.specs.Range.{sum_to};
ghost use Rattle.shard.specs.index.Index.{sizes};
ghost use Rattle.settle.specs.minishard_length.Writing.{ReadableIndex, chunks_from};

use endian::copying::{copy_bytes, fill_zero};
use endian::{put_u64, read_u64};

// The chunks that the minishard index of n entries at s lists, one after the other; answers the place behind them.
pub fn copy_chunks(data: &[u8], s: usize, n: usize, out: &mut [u8], at: usize) -> usize
    requires readable_index { ReadableIndex «data».now s n }
    requires n_in_bounds { at + sum_to (sizes «data».now s n) n ≤ length out.old }
    ensures value { result ≡ at + sum_to (sizes «data».now s n) n }
    ensures out_after { out.new ≡ paste at (chunks_from «data».now s n 0 n) out.old }
{
    let starts = s + 8 * n;
    let sizes = s + 16 * n;
    let mut from: u64 = 0;
    let mut to = at;
    for i in 0..n {
        let start = from.wrapping_add(read_u64(data, starts + 8 * i));
        let size = read_u64(data, sizes + 8 * i);
        copy_bytes(data, start as usize, size as usize, out, to);
        from = start + size;
        to += size as usize;
    }
    to
}

// The row of start steps: the place of the first chunk, then zeros.
#[tactic(auto, using(crate::proofs::chunk_runs::StoredStarts::writing))]
pub fn put_starts(out: &mut [u8], at: usize, n: usize, p: usize)
    requires { (0 < n) × (at + 8 * n ≤ length out.old) }
    ensures { out.new ≡ paste at (le 8 p ++ replicate (8 * n - 8) 0) out.old }
{
    put_u64(out, at, p as u64);
    fill_zero(out, at + 8, 8 * n - 8);
}
