// The settled form of what is chosen of two copies of a shard.

ghost use Rattle.std.specs.Prelude.{◌≡◌, ◌+◌, ◌*◌, ◌<◌, ◌≤◌, true, length};
ghost use Rattle.refusal.specs.Buffer.{over};
ghost use Rattle.endian.specs.Place.{paste};
ghost use Rattle.sharding.specs.Specification.{allowed, minishard_count_of};
ghost use Rattle.shard.specs.index.Index.{most_shard_bytes};
ghost use Rattle.shard.specs.File.{index_length_of};
ghost use Rattle.settled_form.specs.Form.{part_of, part_length_of, settled};
ghost use Rattle.settle.specs.minishard_length.Writing.{capped};
ghost use Rattle.settle.specs.writing.Entry.{settled_entry};
ghost use Rattle.repair.specs.form.Chosen.{sound_in, chosen, content_by, repaired_form, repaired_length};
ghost use Rattle.repair.specs.form.Choosing.{Pair, SoundInOne, SoundInOneEach, length_by};

use settle::length::one_length;
use settle::minishard_length::add_capped;
use settle::writing::settle_one;
use shard::judge::judge;
use sharding::Sharding;
use sharding::limits::minishard_count;

// ---- one minishard

// Whether minishard m is sound in a copy.
#[tactic(auto, using(crate::proofs::form::OneMinishard::judging))]
pub fn is_sound(spec: Sharding, shard: u64, index: &[u8], data: &[u8], m: usize) -> bool
    requires spec_value { allowed spec ≡ true }
    requires index_len { (length index.now ≡ index_length_of spec) × (length «data».now ≤ most_shard_bytes) }
    requires m_bound { m < minishard_count_of spec }
    ensures { result ≡ sound_in spec shard index.now «data».now m }
{
    let fault = judge(spec, shard, index, data, m as u64);
    fault.number == 0
}

// The length of minishard m, settled.
#[tactic(auto, using(crate::proofs::form::OneMinishard::choosing))]
fn length_of_one(
    spec: Sharding,
    shard: u64,
    ia: &[u8],
    da: &[u8],
    ib: &[u8],
    db: &[u8],
    m: usize,
) -> usize
    requires { Pair spec ia.now da.now ib.now db.now × SoundInOne spec shard ia.now da.now ib.now db.now m }
    ensures { result ≡ capped (part_length_of (chosen spec shard ia.now da.now ib.now db.now m)) }
{
    if is_sound(spec, shard, ia, da, m) {
        return one_length(spec, ia, da, m);
    }
    one_length(spec, ib, db, m)
}

// Minishard m at the place p, from the copy that is chosen, and its entry in the shard index.
#[tactic(auto, using(crate::proofs::form::OneMinishard::choosing))]
fn repair_one(
    spec: Sharding,
    shard: u64,
    ia: &[u8],
    da: &[u8],
    ib: &[u8],
    db: &[u8],
    base: usize,
    m: usize,
    p: usize,
    out: &mut [u8],
) -> usize
    requires pair { Pair spec ia.now da.now ib.now db.now × SoundInOne spec shard ia.now da.now ib.now db.now m × (16 * m + 16 ≤ base) }
    requires m_in_bounds { (base + p + part_length_of (chosen spec shard ia.now da.now ib.now db.now m) ≤ length out.old) × (part_length_of (chosen spec shard ia.now da.now ib.now db.now m) ≤ most_shard_bytes) }
    ensures value { result ≡ part_length_of (chosen spec shard ia.now da.now ib.now db.now m) }
    ensures out_after { out.new ≡ paste (16 * m) (settled_entry p (chosen spec shard ia.now da.now ib.now db.now m)) (paste (base + p) (part_of p (chosen spec shard ia.now da.now ib.now db.now m)) out.old) }
{
    if is_sound(spec, shard, ia, da, m) {
        return settle_one(spec, ia, da, base, m, p, out);
    }
    settle_one(spec, ib, db, base, m, p, out)
}

// ---- n minishards

#[tactic(auto, using(crate::proofs::form::AllMinishards::summing))]
fn length_of_all(
    spec: Sharding,
    shard: u64,
    ia: &[u8],
    da: &[u8],
    ib: &[u8],
    db: &[u8],
    n: usize,
) -> usize
    requires { Pair spec ia.now da.now ib.now db.now × SoundInOneEach spec shard ia.now da.now ib.now db.now n × (16 * n ≤ most_shard_bytes) }
    ensures { result ≡ capped (length_by (chosen spec shard ia.now da.now ib.now db.now) n) }
{
    let mut sum = add_capped(0, 16 * n);
    for m in 0..n {
        sum = add_capped(sum, length_of_one(spec, shard, ia, da, ib, db, m));
    }
    sum
}

fn repair_all(
    spec: Sharding,
    shard: u64,
    ia: &[u8],
    da: &[u8],
    ib: &[u8],
    db: &[u8],
    n: usize,
    out: &mut [u8],
) -> usize
    requires pair { Pair spec ia.now da.now ib.now db.now × SoundInOneEach spec shard ia.now da.now ib.now db.now n }
    requires n_in_bounds { (length_by (chosen spec shard ia.now da.now ib.now db.now) n ≤ length out.old) × (length_by (chosen spec shard ia.now da.now ib.now db.now) n ≤ most_shard_bytes) }
    ensures value { result ≡ length_by (chosen spec shard ia.now da.now ib.now db.now) n }
    ensures out_after { out.new ≡ paste 0 (settled (content_by (chosen spec shard ia.now da.now ib.now db.now) 0 n)) out.old }
{
    let base = 16 * n;
    let mut p = 0;
    for m in 0..n {
        p += repair_one(spec, shard, ia, da, ib, db, base, m, p, out);
    }
    base + p
}

// ---- the whole

// The length of the repaired form, or 1 GiB and a byte where it is longer than 1 GiB.
#[tactic(auto, using(crate::proofs::form::AllMinishards::counting))]
pub fn repaired_length(
    spec: Sharding,
    shard: u64,
    ia: &[u8],
    da: &[u8],
    ib: &[u8],
    db: &[u8],
) -> usize
    requires { Pair spec ia.now da.now ib.now db.now × SoundInOneEach spec shard ia.now da.now ib.now db.now (minishard_count_of spec) }
    ensures { result ≡ capped (repaired_length spec shard ia.now da.now ib.now db.now) }
{
    let n = minishard_count(spec) as usize;
    length_of_all(spec, shard, ia, da, ib, db, n)
}

// The repaired form, into an output that has room for it.
#[tactic(auto, using(crate::proofs::form::AllMinishards::counting))]
pub fn write_repaired(
    spec: Sharding,
    shard: u64,
    ia: &[u8],
    da: &[u8],
    ib: &[u8],
    db: &[u8],
    out: &mut [u8],
) -> usize
    requires pair { Pair spec ia.now da.now ib.now db.now × SoundInOneEach spec shard ia.now da.now ib.now db.now (minishard_count_of spec) }
    requires db_in_bounds { (repaired_length spec shard ia.now da.now ib.now db.now ≤ length out.old) × (repaired_length spec shard ia.now da.now ib.now db.now ≤ most_shard_bytes) }
    ensures value { result ≡ repaired_length spec shard ia.now da.now ib.now db.now }
    ensures out_after { out.new ≡ over (repaired_form spec shard ia.now da.now ib.now db.now) out.old }
{
    let n = minishard_count(spec) as usize;
    repair_all(spec, shard, ia, da, ib, db, n, out)
}
