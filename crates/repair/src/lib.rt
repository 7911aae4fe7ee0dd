// Repair of a shard from two damaged copies.
#![tactic(auto)]

pub mod copies;
pub mod form;
pub mod same_listing;

ghost use Rattle.std.specs.Prelude.{◌≡◌};
ghost use Rattle.repair.specs.Repair.{repair_answer, repair_left};

use copies::{is_bad, repair_files};
use sharding::Sharding;
use sharding::limits::{is_allowed, shard_count};

// What repair answers: the length of the settled form, or the refusal. What cannot be taken comes with the minishard, and with the byte position of
// what is wrong there in the first copy, counted from the beginning of the shard; 32 is that both copies are sound and list different ids or bytes.
#[derive(Clone, Copy)]
pub enum RepairAnswer {
    Length(usize),
    Refused(u8),
    Faulty {
        number: u8,
        minishard: u64,
        position: u64,
    },
}

// Writes to the front of `out` the settled form of what two copies of a shard list: of each minishard what `a` lists where it is sound there, else
// what `b` lists. Unlisted bytes are dropped. A refusal leaves `out` as it was.
pub fn repair(spec: Sharding, shard: u64, a: &[u8], b: &[u8], out: &mut [u8]) -> RepairAnswer
    ensures answer { result ≡ repair_answer spec shard a.now b.now out.old }
    ensures out { out.new ≡ repair_left spec shard a.now b.now out.old }
{
    if !is_allowed(spec) {
        return RepairAnswer::Refused(1);
    }
    if shard_count(spec) <= shard {
        return RepairAnswer::Refused(5);
    }
    if is_bad(spec, a.len()) {
        if is_bad(spec, b.len()) {
            return RepairAnswer::Refused(6);
        }
        return repair_files(spec, shard, b, b, out);
    }
    if is_bad(spec, b.len()) {
        return repair_files(spec, shard, a, a, out);
    }
    repair_files(spec, shard, a, b, out)
}
