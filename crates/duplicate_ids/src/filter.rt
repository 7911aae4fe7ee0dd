// A filter of ids, on the stack, and what a look through it tells of an id that stands twice.

ghost use Rattle.std.specs.Prelude.{◌≡◌, ◌+◌, ◌*◌, ◌≤◌, true, length};
ghost use Rattle.endian.specs.Little.{row_at};
ghost use Rattle.duplicate_ids.specs.ids.Ids.{first_twice};
ghost use Rattle.duplicate_ids.specs.filter.Filter.{bit, six_bits, Noting};

use crate::ids::{next_id, stands_before};
use murmur3::hash;

fn bit_at(k: u64) -> u64
    ensures { result ≡ bit k }
{
    1 << (k % 64)
}

fn six_bits(h: u64) -> u64
    ensures { result ≡ six_bits h }
{
    let first = bit_at(h) | bit_at(h / 64) | (bit_at(h / 4096) | bit_at(h / 262144));
    first | (bit_at(h / 16777216) | bit_at(h / 1073741824))
}

// Notes an id; whether it was not noted before.
fn note(words: &mut [u64], x: u64) -> bool
    requires { length words.old ≡ 32768 }
    ensures { Noting x words.old words.new result }
{
    let h = hash(x);
    let q = (h / 562949953421312) as usize;
    let old = words[q];
    let new = old | six_bits(h);
    words[q] = new;
    new != old
}

// What a look through the filter tells: the answer, if it is sure; else `at` tells nothing.
#[derive(Clone, Copy)]
pub struct Told {
    pub at: usize,
    pub sure: bool,
}

// An id that seems to be noted is looked for among the entries before it: at most 64 of them in vain. The look is sure of 64
// entries or fewer. Of more it may give up, as the hashes of their ids fall; the answer is then found by passes.
fn sift(data: &[u8], p: usize, n: usize, words: &mut [u64]) -> Told
    requires { (p + 8 * n ≤ length «data».now) × (length words.old ≡ 32768) }
    ensures at_value { result.sure ≡ true → result.at ≡ first_twice (row_at «data».now p) n }
    ensures sure_value { n ≤ 64 → result.sure ≡ true }
{
    let mut vain: u64 = 0;
    let mut id: u64 = 0;
    for i in 0..n {
        id = next_id(data, p, i, id);
        if !note(words, id) {
            if stands_before(data, p, i, id) {
                return Told { at: i, sure: true };
            }
            if 64 <= vain {
                return Told { at: i, sure: false };
            }
            vain += 1;
        }
    }
    Told { at: n, sure: true }
}

pub fn sifted(data: &[u8], p: usize, n: usize) -> Told
    requires { p + 8 * n ≤ length «data».now }
    ensures at_value { result.sure ≡ true → result.at ≡ first_twice (row_at «data».now p) n }
    ensures sure_value { n ≤ 64 → result.sure ≡ true }
{
    let mut words = [0u64; 32768];
    sift(data, p, n, &mut words)
}
