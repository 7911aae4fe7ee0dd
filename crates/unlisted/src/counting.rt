// The unlisted bytes of a shard, over its shard index and the data behind it.

ghost use Rattle.std.specs.Prelude.{◌≡◌, ◌≤◌, true, length};
ghost use Rattle.sharding.specs.Specification.{allowed};
ghost use Rattle.shard.specs.index.Index.{most_shard_bytes};
ghost use Rattle.shard.specs.File.{index_length_of};
ghost use Rattle.unlisted.specs.ranges.Covered.{covered_at, unlisted_bytes};
ghost use Rattle.unlisted.specs.stretches.Reading.{RangedShard};
ghost use Rattle.unlisted.specs.rising_walk.Order.{Tells};
ghost use Rattle.unlisted.specs.Judging.{Counts};

use crate::checked_walk::judge_all;
use crate::rising_walk::{BROKEN, Run, in_order, in_turn};
use crate::windows::count_from;
use sharding::Sharding;

// How many are unlisted, behind a walk in turn: by that or another walk where the ranges come in rising order, else by windows.
fn count_after(run: Run, spec: Sharding, index: &[u8], data: &[u8]) -> u64
    requires ranged_shard { RangedShard spec index.now «data».now }
    requires gaps_le_to { (run.gaps ≤ run.to) × Tells (covered_at spec index.now «data».now) run }
    ensures { result ≡ unlisted_bytes spec index.now «data».now }
{
    let walk = in_order(run, spec, index, data);
    if walk.last != BROKEN {
        return (walk.gaps + (data.len() - walk.to)) as u64;
    }
    count_from(spec, index, data, 0, data.len())
}

// Of a shard that passed the check.
pub fn unlisted(spec: Sharding, index: &[u8], data: &[u8]) -> u64
    requires { RangedShard spec index.now «data».now }
    ensures { result ≡ unlisted_bytes spec index.now «data».now }
{
    let run = in_turn(spec, index, data);
    count_after(run, spec, index, data)
}

// The fault of a shard, or where it has none, number 0, how many bytes are unlisted; 0 bytes beside a fault.
#[derive(Clone, Copy)]
pub struct Counted {
    pub number: u8,
    pub position: u64,
    pub bytes: u64,
}

// Of any shard whose length was tested: judged and counted at once, which takes little longer than the check alone.
pub fn count_judged(spec: Sharding, shard: u64, index: &[u8], data: &[u8]) -> Counted
    requires spec_value { allowed spec ≡ true }
    requires index_len { (length index.now ≡ index_length_of spec) × (length «data».now ≤ most_shard_bytes) }
    ensures { Counts spec shard index.now «data».now result }
{
    let found = judge_all(spec, shard, index, data);
    if found.number != 0 {
        return Counted {
            number: found.number,
            position: found.position,
            bytes: 0,
        };
    }
    let run = found.run;
    let bytes = count_after(run, spec, index, data);
    Counted {
        number: 0,
        position: found.position,
        bytes,
    }
}
