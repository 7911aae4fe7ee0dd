// The walk in turn together with the check: each minishard is judged, and walked over while its bytes are at hand.

ghost use Rattle.std.specs.Prelude.{◌≡◌, ◌-◌, ◌*◌, ◌/◌, ◌<◌, ◌≤◌, ◌≢◌, true, length};
ghost use Rattle.sharding.specs.Specification.{allowed, minishard_count_of};
ghost use Rattle.shard.specs.index.Index.{entry_start_of, entry_end_of, most_shard_bytes};
ghost use Rattle.shard.specs.File.{index_length_of};
ghost use Rattle.unlisted.specs.stretches.Reading.{Ranged};
ghost use Rattle.unlisted.specs.rising_walk.Order.{Extends, in_part};
ghost use Rattle.unlisted.specs.Judging.{Steps, Skips, JudgedAs};

use crate::rising_walk::{BROKEN, Run, nothing, over_part};
use shard::index::{entry_end, entry_start};
use shard::judge::judge;
use sharding::Sharding;
use sharding::limits::minishard_count;

// The fault of a shard, number 0 where it has none, and where the walk stands.
#[derive(Clone, Copy)]
pub struct Judged {
    pub number: u8,
    pub position: u64,
    pub run: Run,
}

// A walk that is broken does not go on.
fn walk_on(run: Run, spec: Sharding, data: &[u8], s: usize, e: usize) -> Run
    requires s_le_e { (s ≤ e) × Ranged spec «data».now s ((e - s) / 24) }
    requires gaps_le_to { run.gaps ≤ run.to }
    ensures { Extends (in_part true true spec «data».now s e) run result }
{
    if run.last == BROKEN {
        return run;
    }
    over_part(run, spec, data, s, e, true, true)
}

// Minishard m, which is not empty.
fn step(run: Run, spec: Sharding, shard: u64, index: &[u8], data: &[u8], m: u64) -> Judged
    requires spec_value { allowed spec ≡ true }
    requires index_len { (length index.now ≡ index_length_of spec) × (length «data».now ≤ most_shard_bytes) × (m < minishard_count_of spec) }
    requires some { entry_start_of index.now m ≢ entry_end_of index.now m }
    requires gaps_le_to { run.gaps ≤ run.to }
    ensures { Steps spec shard index.now «data».now m run result }
{
    let found = judge(spec, shard, index, data, m);
    if found.number != 0 {
        return Judged {
            number: found.number,
            position: found.position,
            run,
        };
    }
    let s = entry_start(index, m) as usize;
    let e = entry_end(index, m) as usize;
    let next = walk_on(run, spec, data, s, e);
    Judged {
        number: 0,
        position: found.position,
        run: next,
    }
}

// The first minishard from m on that is not empty, or n. A loop of its own, which is short: nearly all minishards of a shard may be empty.
fn next_some(index: &[u8], m: u64, n: u64) -> u64
    requires { (m ≤ n) × (16 * n ≤ length index.now) }
    ensures { Skips index.now m n result }
{
    for j in m..n {
        if entry_start(index, j) != entry_end(index, j) {
            return j;
        }
    }
    n
}

// All minishards, up to the first with a fault. An empty one has none, wherever it points.
pub fn judge_all(spec: Sharding, shard: u64, index: &[u8], data: &[u8]) -> Judged
    requires spec_value { allowed spec ≡ true }
    requires index_len { (length index.now ≡ index_length_of spec) × (length «data».now ≤ most_shard_bytes) }
    ensures { JudgedAs spec shard index.now «data».now result }
{
    let n = minishard_count(spec);
    let mut at = nothing();
    // m goes from one minishard that is not empty to the next.
    let mut m = next_some(index, 0, n);
    while m < n {
        let next = step(at, spec, shard, index, data, m);
        if next.number != 0 {
            return next;
        }
        at = next.run;
        m = next_some(index, m + 1, n);
    }
    Judged {
        number: 0,
        position: 0,
        run: at,
    }
}
