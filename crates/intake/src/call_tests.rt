// What refuses a call of an intake, each test by itself.

ghost use Rattle.std.specs.Prelude.{◌≡◌, true, ◌*◌, ◌≤◌, length};
ghost use Rattle.sharding.specs.Specification.{allowed};
ghost use Rattle.sharding.specs.placement.Place.{minishard_of};
ghost use Rattle.intake.specs.state.State.{most, announced_length, sane};
ghost use Rattle.intake.specs.call_tests.Tests.{other_lengths, foreign, unusable, out_of_order, forged, forged_turn, count_in, no_room};

use crate::sanity::{is_sane, most_bytes, pairs_could_be};
use crate::state::Intake;
use shard::lengths::index_length;
use sharding::limits::is_allowed;
use sharding::placement::inner::shard_of;

// ---- after the opening

#[tactic(auto, using(crate::proofs::call_tests::Tested::asking))]
pub fn is_other(state: Intake, output: usize, waiting: usize) -> bool
    ensures { result ≡ other_lengths state output waiting }
{
    (state.output != output) | (state.waiting != waiting)
}

#[tactic(auto, using(crate::proofs::call_tests::Tested::asking))]
pub fn is_unusable(state: Intake, waiting: &[u8]) -> bool
    requires { state.waiting ≡ length waiting.now }
    ensures { result ≡ unusable state waiting.now }
{
    !is_sane(state, waiting) | (state.phase != 0)
}

// ---- a call that ends the open minishard

#[tactic(auto, using(crate::proofs::call_tests::Tested::asking))]
pub fn is_forged(state: Intake, waiting: &[u8]) -> bool
    requires { (sane state waiting.now ≡ true) × (state.waiting ≡ length waiting.now) }
    ensures { result ≡ forged state waiting.now }
{
    !pairs_could_be(state, waiting)
}

// ---- an announcement

#[tactic(auto, using(crate::proofs::call_tests::Tested::asking))]
pub fn is_foreign(state: Intake, id: u64) -> bool
    ensures { result ≡ foreign state id }
{
    if !is_allowed(state.spec) {
        return false;
    }
    shard_of(state.spec, id) != state.shard
}

// Of an id of minishard m.
#[tactic(auto, using(crate::proofs::call_tests::Tested::asking))]
pub fn is_out_of_order(state: Intake, m: u64, id: u64) -> bool
    requires { m ≡ minishard_of state.spec id }
    ensures { result ≡ out_of_order state id }
{
    (m < state.minishard) | ((m == state.minishard) & ((0 < state.count) & (id <= state.last)))
}

// Of an id of minishard m, which ends the open one where it is another.
#[tactic(auto, using(crate::proofs::call_tests::Tested::asking))]
pub fn is_forged_turn(state: Intake, m: u64, id: u64, waiting: &[u8]) -> bool
    requires m_value { m ≡ minishard_of state.spec id }
    requires waiting_value { (sane state waiting.now ≡ true) × (state.waiting ≡ length waiting.now) }
    ensures { result ≡ forged_turn state id waiting.now }
{
    if m == state.minishard {
        return false;
    }
    is_forged(state, waiting)
}

#[tactic(auto, using(crate::proofs::call_tests::Tested::asking))]
fn count_in(state: Intake, m: u64) -> usize
    ensures { (result ≡ count_in state m) × (result ≤ state.count) }
{
    if m == state.minishard {
        return state.count;
    }
    0
}

pub fn announced_length(state: Intake) -> usize
    requires { (allowed state.spec ≡ true) × (announced_length state ≤ most state.output) }
    ensures { result ≡ announced_length state }
{
    index_length(state.spec) + (state.next + (state.owed + 24 * state.count))
}

#[tactic(auto, using(crate::proofs::call_tests::Tested::asking))]
pub fn is_full(state: Intake, m: u64, id: u64, size: usize) -> bool
    requires m_value { m ≡ minishard_of state.spec id }
    requires spec_value { allowed state.spec ≡ true }
    requires state_bound { (announced_length state ≤ most state.output) × (16 * state.count ≤ state.waiting) }
    ensures { result ≡ no_room state id size }
{
    let left = most_bytes(state.output) - announced_length(state);
    if left < 24 {
        return true;
    }
    if left - 24 < size {
        return true;
    }
    state.waiting - 16 * count_in(state, m) < 16
}
