// Whether the state of an intake is one that calls could have left.

ghost use Rattle.std.specs.Prelude.{◌≡◌, true, ◌+◌, ◌*◌, ◌<◌, ◌≤◌, leb, length};
ghost use Rattle.sharding.specs.Specification.{allowed};
ghost use Rattle.intake.specs.state.State.{most, announced_length, not_volume, fresh, belongs, placed, begun, going, sane, follows, announceable};

use crate::state::{Intake, holds_last};
use endian::read_u64;
use shard::lengths::{MOST_SHARD_BYTES, index_length};
use sharding::Sharding;
use sharding::limits::{is_allowed, is_mesh, shard_count};
use sharding::placement::inner::place;

pub fn most_bytes(output: usize) -> usize
    ensures { result ≡ most output }
{
    output.min(MOST_SHARD_BYTES)
}

#[tactic(auto, using(crate::proofs::sanity::States::testing))]
pub fn is_not_volume(spec: Sharding) -> bool
    ensures { result ≡ not_volume spec }
{
    !is_allowed(spec) | is_mesh(spec)
}

// Whether the four lengths of a form add up to no more than the limit.
fn adds_up(limit: usize, base: usize, next: usize, owed: usize, count: usize) -> bool
    ensures { result ≡ leb (base + (next + (owed + 24 * count))) limit }
{
    if limit < base {
        return false;
    }
    let past_base = limit - base;
    if past_base < next {
        return false;
    }
    let past_next = past_base - next;
    if past_next < owed {
        return false;
    }
    if (past_next - owed) / 24 < count {
        return false;
    }
    true
}

fn is_within(state: Intake) -> bool
    requires { allowed state.spec ≡ true }
    ensures { result ≡ leb (announced_length state) (most state.output) }
{
    let limit = most_bytes(state.output);
    let base = index_length(state.spec);
    adds_up(limit, base, state.next, state.owed, state.count)
}

#[tactic(auto, using(crate::proofs::sanity::States::testing))]
fn is_fresh(state: Intake) -> bool
    ensures { result ≡ fresh state }
{
    (state.minishard == 0)
        & ((state.last == 0) & ((state.begin == 0) & ((state.next == 0) & (state.owed == 0))))
}

#[tactic(auto, using(crate::proofs::sanity::States::testing))]
fn does_belong(state: Intake, id: u64) -> bool
    requires { allowed state.spec ≡ true }
    ensures { result ≡ belongs state id }
{
    let at = place(state.spec, id);
    (at.shard == state.shard) & (at.minishard == state.minishard)
}

#[tactic(auto, using(crate::proofs::sanity::States::testing))]
fn is_placed(state: Intake) -> bool
    requires { (allowed state.spec ≡ true) × (0 < state.count) }
    ensures { result ≡ placed state }
{
    does_belong(state, state.last) & ((state.count - 1) as u64 <= state.last)
}

#[tactic(auto, using(crate::proofs::sanity::States::testing))]
fn has_begun(state: Intake) -> bool
    ensures { result ≡ begun state }
{
    (state.begin <= state.next)
        & ((state.begin == 0) | ((0 < state.minishard) & (24 <= state.begin)))
}

#[tactic(auto, using(crate::proofs::sanity::States::testing))]
fn is_going(state: Intake, waiting: &[u8]) -> bool
    requires spec_value { (allowed state.spec ≡ true) × ((0 < state.count) × (16 * state.count ≤ length waiting.now)) }
    requires owed_bound { state.next + state.owed < 18446744073709551616 }
    ensures { result ≡ going state waiting.now }
{
    if !is_placed(state) {
        return false;
    }
    if !has_begun(state) {
        return false;
    }
    holds_last(state, waiting)
}

// Of a second buffer that has the state's length.
#[tactic(auto, using(crate::proofs::sanity::States::testing))]
pub fn is_sane(state: Intake, waiting: &[u8]) -> bool
    requires { state.waiting ≡ length waiting.now }
    ensures { result ≡ sane state waiting.now }
{
    if is_not_volume(state.spec) {
        return false;
    }
    if shard_count(state.spec) <= state.shard {
        return false;
    }
    if state.waiting / 16 < state.count {
        return false;
    }
    if !is_within(state) {
        return false;
    }
    if state.count == 0 {
        return is_fresh(state);
    }
    is_going(state, waiting)
}

// ---- all pairs that wait

// Whether pair i could have been announced behind those before it.
#[tactic(auto, using(crate::proofs::sanity::Sharing::sharing))]
fn can_follow(state: Intake, waiting: &[u8], i: usize) -> bool
    requires { (allowed state.spec ≡ true) × (16 * i + 16 ≤ length waiting.now) }
    ensures { result ≡ follows state waiting.now i }
{
    let id = read_u64(waiting, 16 * i);
    let here = does_belong(state, id);
    if i == 0 {
        return here;
    }
    let before = read_u64(waiting, 16 * (i - 1));
    here & (before < id)
}

// Whether calls could have left the pairs of a state that passed: what came of the open minishard or is owed is shared out among them.
pub fn pairs_could_be(state: Intake, waiting: &[u8]) -> bool
    requires { (sane state waiting.now ≡ true) × (state.waiting ≡ length waiting.now) }
    ensures { result ≡ announceable state waiting.now }
{
    let mut left = state.next + state.owed - state.begin;
    for i in 0..state.count {
        if !can_follow(state, waiting, i) {
            return false;
        }
        let size = read_u64(waiting, 16 * i + 8) as usize;
        if left < size {
            return false;
        }
        left -= size;
    }
    left == 0
}
