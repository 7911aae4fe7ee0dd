// The whole-shard check: the first minishard, in number order, with a fault.

ghost use Rattle.std.specs.Prelude.{◌≡◌, ◌≤◌, true, length};
ghost use Rattle.sharding.specs.Specification.{allowed};
ghost use Rattle.shard.specs.Faults.{shard_fault};
ghost use Rattle.shard.specs.index.Index.{most_shard_bytes};
ghost use Rattle.shard.specs.File.{index_length_of, index_part, data_part, check_answer};

use crate::judge::first_fault;
use crate::lengths::{MOST_SHARD_BYTES, index_length};
use crate::{CheckAnswer, ShardFault};
use sharding::Sharding;
use sharding::limits::{is_allowed, minishard_count, shard_count};

// In a file whose length was tested, by its two parts.
fn first_fault_in(spec: Sharding, shard: u64, file: &[u8]) -> ShardFault
    requires spec_value { allowed spec ≡ true }
    requires spec_in_bounds { (index_length_of spec ≤ length file.now) × (length file.now ≤ most_shard_bytes) }
    ensures { result ≡ shard_fault spec shard (index_part spec file.now) (data_part spec file.now) }
{
    let n = index_length(spec);
    first_fault(
        spec,
        shard,
        &file[..n],
        &file[n..],
        0,
        minishard_count(spec),
    )
}

// Whether a shard is sound; else the refusal or the fault, with the first faulty minishard and the position.
pub fn check(spec: Sharding, shard: u64, file: &[u8]) -> CheckAnswer
    ensures answer { result ≡ check_answer spec shard file.now }
{
    if !is_allowed(spec) {
        return CheckAnswer::Refused(1);
    }
    if shard_count(spec) <= shard {
        return CheckAnswer::Refused(5);
    }
    if file.len() < index_length(spec) {
        return CheckAnswer::Refused(6);
    }
    if MOST_SHARD_BYTES < file.len() {
        return CheckAnswer::Refused(6);
    }
    let found = first_fault_in(spec, shard, file);
    if found.number == 0 {
        return CheckAnswer::Sound;
    }
    CheckAnswer::Faulty {
        number: found.number,
        minishard: found.minishard,
        position: found.position,
    }
}
