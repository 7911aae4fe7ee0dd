// Whether a call of an intake is admitted: the first refusal of each call.

ghost use Rattle.std.specs.Prelude.{◌≡◌, ◌<◌};
ghost use Rattle.refusal.specs.Checks.{first_number};
ghost use Rattle.refusal.specs.Answers.{judged};
ghost use Rattle.intake.specs.admission.Refusals.{open_checks, announce_checks, part_checks, close_checks};

use crate::call_tests::{
    is_foreign, is_forged, is_forged_turn, is_full, is_other, is_out_of_order, is_unusable,
};
use crate::sanity::{is_not_volume, most_bytes};
use crate::state::Intake;
use refusal::Refusal;
use shard::lengths::index_length;
use sharding::Sharding;
use sharding::limits::shard_count;
use sharding::placement::inner::minishard_of;

pub fn open_refusal(spec: Sharding, shard: u64, output: usize) -> Result<(), Refusal>
    ensures { result ≡ judged (first_number (open_checks spec shard output)) }
{
    if is_not_volume(spec) {
        return Err(Refusal::ShardingNotAllowed);
    }
    if shard_count(spec) <= shard {
        return Err(Refusal::NoSuchShard);
    }
    if most_bytes(output) < index_length(spec) {
        return Err(Refusal::NoRoom);
    }
    Ok(())
}

pub fn part_refusal(state: Intake, n: usize, output: usize, waiting: &[u8]) -> Result<(), Refusal>
    ensures { result ≡ judged (first_number (part_checks state n output waiting.now)) }
{
    if is_other(state, output, waiting.len()) {
        return Err(Refusal::IntakeBuffers);
    }
    if is_unusable(state, waiting) {
        return Err(Refusal::IntakeOrder);
    }
    if state.owed < n {
        return Err(Refusal::IntakeOwed);
    }
    Ok(())
}

pub fn close_refusal(state: Intake, output: usize, waiting: &[u8]) -> Result<(), Refusal>
    ensures { result ≡ judged (first_number (close_checks state output waiting.now)) }
{
    if is_other(state, output, waiting.len()) {
        return Err(Refusal::IntakeBuffers);
    }
    if is_unusable(state, waiting) {
        return Err(Refusal::IntakeOrder);
    }
    if is_forged(state, waiting) {
        return Err(Refusal::IntakeOrder);
    }
    if state.owed != 0 {
        return Err(Refusal::IntakeOwed);
    }
    Ok(())
}

pub fn announce_refusal(
    state: Intake,
    id: u64,
    size: usize,
    output: usize,
    waiting: &[u8],
) -> Result<(), Refusal>
    ensures { result ≡ judged (first_number (announce_checks state id size output waiting.now)) }
{
    if is_other(state, output, waiting.len()) {
        return Err(Refusal::IntakeBuffers);
    }
    if is_foreign(state, id) {
        return Err(Refusal::IdElsewhere);
    }
    if is_unusable(state, waiting) {
        return Err(Refusal::IntakeOrder);
    }
    let m = minishard_of(state.spec, id);
    if is_out_of_order(state, m, id) {
        return Err(Refusal::IntakeOrder);
    }
    if is_forged_turn(state, m, id, waiting) {
        return Err(Refusal::IntakeOrder);
    }
    if 0 < state.owed {
        return Err(Refusal::IntakeOwed);
    }
    if is_full(state, m, id, size) {
        return Err(Refusal::NoRoom);
    }
    Ok(())
}
