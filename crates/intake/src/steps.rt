// What the calls of an intake do once no test refuses them.

ghost use Rattle.std.specs.Prelude.{◌≡◌, true, ◌+◌, ◌*◌, ◌≤◌, length};
ghost use Rattle.refusal.specs.Checks.{first_number};
ghost use Rattle.endian.specs.Place.{paste};
ghost use Rattle.sharding.specs.Specification.{allowed};
ghost use Rattle.sharding.specs.placement.Place.{minishard_of};
ghost use Rattle.shard.specs.File.{index_length_of};
ghost use Rattle.intake.specs.waiting.Held.{pair};
ghost use Rattle.intake.specs.state.State.{announced_length, Usable};
ghost use Rattle.intake.specs.call_tests.Tests.{count_in};
ghost use Rattle.intake.specs.admission.Refusals.{announce_checks};
ghost use Rattle.intake.specs.steps.Steps.{ended_left, turned, turned_left, opened, announced, taken, closed};

use crate::places::next_place;
use crate::state::Intake;
use crate::waiting::{put_index, put_pair};
use endian::copying::copy_bytes;
use sharding::Sharding;
use sharding::placement::inner::minishard_of;

pub fn first(spec: Sharding, shard: u64, output: usize, waiting: usize) -> Intake
    ensures { result ≡ opened spec shard output waiting }
{
    Intake {
        spec: spec,
        shard: shard,
        output: output,
        waiting: waiting,
        minishard: 0,
        count: 0,
        last: 0,
        begin: 0,
        next: 0,
        owed: 0,
        phase: 0,
    }
}

pub fn last(state: Intake) -> Intake
    ensures { result ≡ closed state }
{
    let mut next = state;
    next.phase = 1;
    next
}

// Ends the open minishard: its minishard index, and its entry in the shard index.
#[tactic(auto, using(crate::proofs::steps::Stepped::ending))]
pub fn end_minishard(state: Intake, out: &mut [u8], waiting: &[u8])
    requires { Usable state (length out.old) (length waiting.now) }
    ensures { out.new ≡ ended_left state out.old waiting.now }
{
    if state.count == 0 {
        return;
    }
    let at = next_place(state);
    put_index(waiting, state.count, state.begin, out, at);
    let end = state.next + 24 * state.count;
    put_pair(
        out,
        16 * state.minishard as usize,
        state.next as u64,
        end as u64,
    );
}

// The state for chunks of minishard m.
#[tactic(auto, using(crate::proofs::steps::Stepped::ending))]
fn turn(state: Intake, m: u64, out: &mut [u8], waiting: &[u8]) -> Intake
    requires { Usable state (length out.old) (length waiting.now) }
    ensures value { result ≡ turned state m }
    ensures out_after { out.new ≡ turned_left state m out.old waiting.now }
{
    if m == state.minishard {
        return state;
    }
    end_minishard(state, out, waiting);
    let end = state.next + 24 * state.count;
    let mut next = state;
    next.minishard = m;
    next.count = 0;
    next.begin = end;
    next.next = end;
    next
}

// A chunk that is announced.
pub fn admit(state: Intake, id: u64, size: usize, out: &mut [u8], waiting: &mut [u8]) -> Intake
    requires { first_number (announce_checks state id size (length out.old) waiting.old) ≡ 0 }
    ensures value { result ≡ announced state id size }
    ensures out_after { out.new ≡ turned_left state (minishard_of state.spec id) out.old waiting.old }
    ensures waiting_after { waiting.new ≡ paste (16 * count_in state (minishard_of state.spec id)) (pair id size) waiting.old }
{
    let m = minishard_of(state.spec, id);
    let mut next = turn(state, m, out, waiting);
    let count = next.count;
    put_pair(waiting, 16 * count, id, size as u64);
    next.count = count + 1;
    next.last = id;
    next.owed = size;
    next
}

// A part that is handed over.
pub fn take(state: Intake, bytes: &[u8], out: &mut [u8]) -> Intake
    requires spec_value { allowed state.spec ≡ true }
    requires bytes_len_bound { (length bytes.now ≤ state.owed) × (announced_length state ≤ length out.old) }
    ensures value { result ≡ taken state (length bytes.now) }
    ensures out_after { out.new ≡ paste (index_length_of state.spec + state.next) bytes.now out.old }
{
    let n = bytes.len();
    let at = next_place(state);
    copy_bytes(bytes, 0, n, out, at);
    let mut next = state;
    next.next = state.next + n;
    next.owed = state.owed - n;
    next
}
