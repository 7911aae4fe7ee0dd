// How many chunks minishards list, and their sizes together, up to a sum that passes 64 bits.

ghost use Rattle.std.specs.Prelude.{◌≡◌, ◌*◌, ◌≤◌};
ghost use Rattle.endian.specs.Range.{sum_to};
ghost use Rattle.shard.specs.index.Index.{sizes};
ghost use Rattle.unlisted.specs.ranges.Ranges.{count_in};
ghost use Rattle.holdings.specs.chunk_sums.Reading.{Sized, SizedIn, SizedParts, Few};
ghost use Rattle.holdings.specs.chunk_sums.Totals.{sizes_in, total_of};

use endian::read_u64;
use shard::index::{entry_end, entry_start};

// ---- chunks

// How many chunks n minishards list.
pub fn chunk_count(index: &[u8], n: u64) -> u64
    requires { Few index.now n }
    ensures { result ≡ sum_to (count_in index.now) n }
{
    let mut sum: u64 = 0;
    for m in 0..n {
        sum += (entry_end(index, m) - entry_start(index, m)) / 24;
    }
    sum
}

// ---- their bytes

// The sizes of the n chunks of the minishard index at s, together.
fn sizes_sum(data: &[u8], s: usize, n: usize) -> u64
    requires { Sized «data».now s n }
    ensures { result ≡ sum_to (sizes «data».now s n) n }
{
    let sizes = s + 16 * n;
    let mut sum: u64 = 0;
    for i in 0..n {
        sum += read_u64(data, sizes + 8 * i);
    }
    sum
}

// Those of minishard m. An empty one may point past the data, and is not read.
#[tactic(auto, using(crate::proofs::chunk_sums::Counting::one))]
fn sizes_in(index: &[u8], data: &[u8], m: u64) -> u64
    requires { SizedIn index.now «data».now m }
    ensures { result ≡ sizes_in index.now «data».now m }
{
    let s = entry_start(index, m);
    let e = entry_end(index, m);
    if s == e {
        return 0;
    }
    sizes_sum(data, s as usize, ((e - s) / 24) as usize)
}

// A sum, or that it passes 2^64 - 1. That of one minishard can't, but minishard indexes may share bytes.
#[derive(Clone, Copy)]
pub struct Total {
    pub passed: bool,
    pub sum: u64,
}

// Those of n minishards.
pub fn chunk_bytes(index: &[u8], data: &[u8], n: u64) -> Total
    requires { SizedParts index.now «data».now n }
    ensures { result ≡ total_of (sum_to (sizes_in index.now «data».now) n) }
{
    let mut sum: u64 = 0;
    for m in 0..n {
        let next = sizes_in(index, data, m);
        if u64::MAX - sum < next {
            return Total {
                passed: true,
                sum: 0,
            };
        }
        sum += next;
    }
    Total { passed: false, sum }
}
