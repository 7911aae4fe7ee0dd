// Writing the settled form of a shard.

ghost use Rattle.std.specs.Prelude.{◌≡◌, ◌+◌, ◌*◌, ◌≤◌, [], ◌∷◌, length};
ghost use Rattle.refusal.specs.Buffer.{over};
ghost use Rattle.endian.specs.Little.{row};
ghost use Rattle.endian.specs.Place.{paste};
ghost use Rattle.shard.specs.index.Index.{most_shard_bytes};
ghost use Rattle.settled_form.specs.Form.{part_of, settled};
ghost use Rattle.settled_form.specs.Content.{items_of, by_id, content_from, form_of, form_length};
ghost use Rattle.settle.specs.length.Settleable.{SettleableIn, SettleableParts, SettleableShard, one_length, whole_length};
ghost use Rattle.settle.specs.writing.Entry.{settled_entry};

use crate::sorted::settle_part;
use endian::{put_u64, read_u64};
use sharding::Sharding;
use sharding::limits::minishard_count;

// ---- one minishard

// An entry of the shard index: where a minishard index begins and ends.
#[tactic(auto, using(crate::proofs::writing::WriteWhole::reading))]
fn put_entry(out: &mut [u8], at: usize, begin: usize, end: usize)
    requires { at + 16 ≤ length out.old }
    ensures { out.new ≡ paste at (row (begin ∷ end ∷ [])) out.old }
{
    put_u64(out, at, begin as u64);
    put_u64(out, at + 8, end as u64);
}

// Minishard m at the place p, and its entry in the shard index. An empty one may point past the data, and is not read.
#[tactic(auto, using(crate::proofs::writing::WriteWhole::reading))]
pub fn settle_one(
    spec: Sharding,
    index: &[u8],
    data: &[u8],
    base: usize,
    m: usize,
    p: usize,
    out: &mut [u8],
) -> usize
    requires m_bound { (16 * m + 16 ≤ base) × (16 * m + 16 ≤ length index.now) }
    requires settleable_in { SettleableIn spec index.now «data».now m }
    requires m_in_bounds { (base + p + one_length spec index.now «data».now m ≤ length out.old) × (one_length spec index.now «data».now m ≤ most_shard_bytes) }
    ensures value { result ≡ one_length spec index.now «data».now m }
    ensures out_after { out.new ≡ paste (16 * m) (settled_entry p (by_id (items_of spec index.now «data».now m))) (paste (base + p) (part_of p (by_id (items_of spec index.now «data».now m))) out.old) }
{
    let s = read_u64(index, 16 * m) as usize;
    let e = read_u64(index, 16 * m + 8) as usize;
    if s == e {
        put_entry(out, 16 * m, 0, 0);
        return 0;
    }
    let n = (e - s) / 24;
    let len = settle_part(spec, data, s, n, out, base, p);
    let end = p + len;
    put_entry(out, 16 * m, end - 24 * n, end);
    len
}

// ---- the whole

// The settled form of n minishards.
fn settle_all(spec: Sharding, index: &[u8], data: &[u8], n: usize, out: &mut [u8]) -> usize
    requires settleable_parts { SettleableParts spec index.now «data».now n }
    requires n_in_bounds { (whole_length spec index.now «data».now n ≤ length out.old) × (whole_length spec index.now «data».now n ≤ most_shard_bytes) }
    ensures value { result ≡ whole_length spec index.now «data».now n }
    ensures out_after { out.new ≡ paste 0 (settled (content_from spec index.now «data».now 0 n)) out.old }
{
    let base = 16 * n;
    let mut p = 0;
    for m in 0..n {
        p += settle_one(spec, index, data, base, m, p, out);
    }
    base + p
}

// The settled form of a shard, into an output that has room for it.
#[tactic(auto, using(crate::proofs::writing::WriteWhole::counting))]
pub fn settle_parts(spec: Sharding, index: &[u8], data: &[u8], out: &mut [u8]) -> usize
    requires settleable_shard { SettleableShard spec index.now «data».now }
    requires data_in_bounds { (form_length spec index.now «data».now ≤ length out.old) × (form_length spec index.now «data».now ≤ most_shard_bytes) }
    ensures value { result ≡ form_length spec index.now «data».now }
    ensures out_after { out.new ≡ over (form_of spec index.now «data».now) out.old }
{
    let n = minishard_count(spec) as usize;
    settle_all(spec, index, data, n, out)
}
