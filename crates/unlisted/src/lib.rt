// How many bytes of a shard lie in none of its ranges.
#![tactic(auto)]

mod checked_walk;
mod chunks;
pub mod counting;
pub mod ranges;
pub mod rising_walk;
pub mod stretches;
pub mod windows;

ghost use Rattle.std.specs.Prelude.{◌≡◌, ◌≤◌, true, length};
ghost use Rattle.sharding.specs.Specification.{allowed};
ghost use Rattle.shard.specs.index.Index.{most_shard_bytes};
ghost use Rattle.shard.specs.File.{index_length_of, index_part, data_part};
ghost use Rattle.unlisted.specs.Judging.{Counts};
ghost use Rattle.unlisted.specs.Answers.{unlisted_answer};

use crate::counting::{Counted, count_judged};
use refusal::CountAnswer;
use shard::lengths::{MOST_SHARD_BYTES, index_length};
use sharding::Sharding;
use sharding::limits::{is_allowed, shard_count};

// In a file whose length was tested, by its two parts.
fn counted_file(spec: Sharding, shard: u64, file: &[u8]) -> Counted
    requires spec_value { allowed spec ≡ true }
    requires spec_in_bounds { (index_length_of spec ≤ length file.now) × (length file.now ≤ most_shard_bytes) }
    ensures { Counts spec shard (index_part spec file.now) (data_part spec file.now) result }
{
    let n = index_length(spec);
    count_judged(spec, shard, &file[..n], &file[n..])
}

// The number of unlisted bytes of a sound shard, or the refusal.
pub fn unlisted_count(spec: Sharding, shard: u64, file: &[u8]) -> CountAnswer
    ensures answer { result ≡ unlisted_answer spec shard file.now }
{
    if !is_allowed(spec) {
        return CountAnswer::Refused(1);
    }
    if shard_count(spec) <= shard {
        return CountAnswer::Refused(5);
    }
    if file.len() < index_length(spec) {
        return CountAnswer::Refused(6);
    }
    if MOST_SHARD_BYTES < file.len() {
        return CountAnswer::Refused(6);
    }
    let found = counted_file(spec, shard, file);
    if found.number == 0 {
        return CountAnswer::Count(found.bytes as usize);
    }
    CountAnswer::Faulty {
        number: found.number,
        position: found.position,
    }
}
