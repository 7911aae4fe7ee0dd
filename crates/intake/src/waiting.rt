// The second buffer of an intake: pairs of an id and a size, and the minishard index that is made of them.

ghost use Rattle.std.specs.Prelude.{◌≡◌, ◌+◌, ◌*◌, ◌-◌, ◌<◌, ◌≤◌, length};
ghost use Rattle.endian.specs.Little.{row};
ghost use Rattle.endian.specs.Place.{paste};
ghost use Rattle.intake.specs.waiting.Held.{pair, steps_held, sizes_held, index_held};

use endian::copying::fill_zero;
use endian::{put_u64, read_u64};

// Two numbers: an id and a size, or an entry of the shard index.
#[tactic(auto, using(crate::proofs::waiting::Writing::writing))]
pub fn put_pair(out: &mut [u8], at: usize, a: u64, b: u64)
    requires { at + 16 ≤ length out.old }
    ensures { out.new ≡ paste at (pair a b) out.old }
{
    put_u64(out, at, a);
    put_u64(out, at + 8, b);
}

// A buffer that holds anything may have an id that is not above the one before: its step is 0.
#[tactic(auto, using(crate::proofs::waiting::Writing::writing))]
fn put_steps(waiting: &[u8], n: usize, out: &mut [u8], at: usize)
    requires { (16 * n ≤ length waiting.now) × (at + 8 * n ≤ length out.old) }
    ensures { out.new ≡ paste at (row (steps_held 0 waiting.now 0 n)) out.old }
{
    let mut before = 0;
    for i in 0..n {
        let id = read_u64(waiting, 16 * i);
        put_u64(out, at + 8 * i, id.saturating_sub(before));
        before = id;
    }
}

#[tactic(auto, using(crate::proofs::waiting::Writing::writing))]
fn put_sizes(waiting: &[u8], n: usize, out: &mut [u8], at: usize)
    requires { (16 * n ≤ length waiting.now) × (at + 8 * n ≤ length out.old) }
    ensures { out.new ≡ paste at (row (sizes_held waiting.now 0 n)) out.old }
{
    for i in 0..n {
        let size = read_u64(waiting, 16 * i + 8);
        put_u64(out, at + 8 * i, size);
    }
}

// The minishard index of n chunks that stand one after the other from the place p on.
#[tactic(auto, using(crate::proofs::waiting::Writing::writing))]
pub fn put_index(waiting: &[u8], n: usize, p: usize, out: &mut [u8], at: usize)
    requires { (0 < n) × ((16 * n ≤ length waiting.now) × (at + 24 * n ≤ length out.old)) }
    ensures { out.new ≡ paste at (index_held p waiting.now n) out.old }
{
    put_steps(waiting, n, out, at);
    // the start steps: the place of the first chunk, then zeros
    let starts = at + 8 * n;
    put_u64(out, starts, p as u64);
    fill_zero(out, starts + 8, 8 * n - 8);
    put_sizes(waiting, n, out, at + 16 * n);
}
