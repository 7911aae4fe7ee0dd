// The length of the settled form of a shard.

ghost use Rattle.std.specs.Prelude.{◌≡◌, ◌+◌, ◌*◌, ◌≤◌, length};
ghost use Rattle.settled_form.specs.Content.{form_length};
ghost use Rattle.settle.specs.minishard_length.Writing.{capped};
ghost use Rattle.settle.specs.length.Settleable.{SettleableIn, SettleableParts, SettleableShard, one_length, whole_length};

use crate::minishard_length::{add_capped, part_length};
use endian::read_u64;
use sharding::Sharding;
use sharding::limits::minishard_count;

// The length of minishard m, settled.
#[tactic(auto, using(crate::proofs::length::Lengths::reading))]
pub fn one_length(spec: Sharding, index: &[u8], data: &[u8], m: usize) -> usize
    requires m_in_bounds { 16 * m + 16 ≤ length index.now }
    requires settleable_in { SettleableIn spec index.now «data».now m }
    ensures { result ≡ capped (one_length spec index.now «data».now m) }
{
    let s = read_u64(index, 16 * m) as usize;
    let e = read_u64(index, 16 * m + 8) as usize;
    if s == e {
        return 0;
    }
    part_length(spec, data, s, (e - s) / 24)
}

// The length of the settled form of n minishards.
#[tactic(auto, using(crate::proofs::length::Lengths::summing))]
fn length_of_all(spec: Sharding, index: &[u8], data: &[u8], n: usize) -> usize
    requires { SettleableParts spec index.now «data».now n }
    ensures { result ≡ capped (whole_length spec index.now «data».now n) }
{
    let mut sum = add_capped(0, 16 * n);
    for m in 0..n {
        sum = add_capped(sum, one_length(spec, index, data, m));
    }
    sum
}

// The length of the settled form of a shard, or 1 GiB and a byte where it is longer than 1 GiB.
#[tactic(auto, using(crate::proofs::length::Lengths::counting))]
pub fn form_length(spec: Sharding, index: &[u8], data: &[u8]) -> usize
    requires { SettleableShard spec index.now «data».now }
    ensures { result ≡ capped (form_length spec index.now «data».now) }
{
    let n = minishard_count(spec) as usize;
    length_of_all(spec, index, data, n)
}
