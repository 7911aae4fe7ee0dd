// Intake: a new volume shard, written while its chunks come in parts.

ghost use Rattle.std.specs.Prelude.{◌≡◌};
ghost use Rattle.intake.specs.Calls.{open_answer, open_left, announce_answer, announce_left, announce_waiting, part_answer, part_left, close_answer, close_left, close_result, intake_result};
ghost use Rattle.intake.specs.numbers.Numbers.{state_of};
ghost use Rattle.coronagamba.specs.word.Word.{word_of};
ghost use Rattle.coronagamba.specs.Specification.{given_sharding};
ghost use Rattle.coronagamba.specs.Intakes.{state_after_of, part_after, closed_after, shard_length_after};

use crate::numbers::{CSharding, sharding_of};
use intake::state::Intake;
use intake::{numbers_of, state_of};
use refusal::Refusal;

// The numbers of the new state, or the refusal.
fn put_state(state: &mut [u64; 15], answer: Result<Intake, Refusal>) -> u64
    ensures value { result ≡ word_of (intake_result answer) }
    ensures state_after { state.new ≡ state_after_of answer state.old }
{
    match answer {
        Ok(next) => {
            *state = numbers_of(next);
            0
        }
        Err(refusal) => refusal.number() as u64,
    }
}

// Opens a new volume shard, which will grow at the front of `out`; `waiting` will hold the ids and
// sizes of the chunks of one minishard at a time, 16 bytes for each. Writes the shard index of a
// shard with no chunk to the front of `out`, and the state of the intake, 15 numbers, to `state`.
// The caller keeps them and lends them to the calls that follow, each as the last one left them, with
// both buffers; they need no look.
// Refusals: 1 also where the kind is mesh, 5, 13 where the shard index passes `out`
pub fn coronagamba_intake_open(
    sharding: CSharding,
    shard: u64,
    out: &mut [u8],
    waiting: &[u8],
    state: &mut [u64; 15],
) -> u64
    ensures answer { result ≡ word_of (intake_result (open_answer (given_sharding sharding) shard out.old waiting.now)) }
    ensures out { out.new ≡ open_left (given_sharding sharding) shard out.old }
    ensures state { state.new ≡ state_after_of (open_answer (given_sharding sharding) shard out.old waiting.now) state.old }
{
    let answer = intake::open(sharding_of(sharding), shard, out, waiting);
    put_state(state, answer)
}

// Announces the next chunk, by rising minishard and then rising id, and its number of bytes, which
// are owed from then on. Where it is the first of its minishard, writes the minishard index of the one
// before, and that one's entry in the shard index, to `out`. Writes its id and size to `waiting`, and
// the new state to `state`.
// Refusals: 30 where a buffer has another length than on opening, 10 where the id belongs to another
// shard, 25 out of order or after the close or where the state contradicts itself or the last pair of
// `waiting` or any pair of a minishard that the call ends, 26 while bytes are owed, 13 where the settled
// form of all announced so far and this chunk would pass `out` or 1 GiB or `waiting` has no 16 bytes
// left for it
pub fn coronagamba_intake_announce(
    state: &mut [u64; 15],
    id: u64,
    size: u64,
    out: &mut [u8],
    waiting: &mut [u8],
) -> u64
    ensures answer { result ≡ word_of (intake_result (announce_answer (state_of state.old) id size out.old waiting.old)) }
    ensures state { state.new ≡ state_after_of (announce_answer (state_of state.old) id size out.old waiting.old) state.old }
    ensures out { out.new ≡ announce_left (state_of state.old) id size out.old waiting.old }
    ensures waiting { waiting.new ≡ announce_waiting (state_of state.old) id size out.old waiting.old }
{
    let given = state_of(state);
    let answer = intake::announce(given, id, size as usize, out, waiting);
    put_state(state, answer)
}

// Hands over the next bytes of the announced chunk, as many as are given, none or all that are owed.
// Writes them to their final place in `out`, and the new state to `state`.
// Refusals: 30 where a buffer has another length than on opening, 25 after the close or where
// the state contradicts itself or the last pair of `waiting`, 26 where these are more bytes than are
// owed
pub fn coronagamba_intake_part(
    state: &mut [u64; 15],
    bytes: &[u8],
    out: &mut [u8],
    waiting: &[u8],
) -> u64
    ensures answer { result ≡ word_of (intake_result (part_answer (state_of state.old) bytes.now out.old waiting.now)) }
    ensures state { state.new ≡ part_after (part_answer (state_of state.old) bytes.now out.old waiting.now) state.old }
    ensures out { out.new ≡ part_left (state_of state.old) bytes.now out.old waiting.now }
{
    let given = state_of(state);
    match intake::part(given, bytes, out, waiting) {
        Ok(next) => {
            state[12] = next.next as u64;
            state[13] = next.owed as u64;
            0
        }
        Err(refusal) => refusal.number() as u64,
    }
}

// Closes the shard: `out` then begins with the settled form of what was delivered. Writes its number
// of bytes to `length`, and to `state` a state with which each further call is refused.
// Refusals: 30 where a buffer has another length than on opening, 25 after the close or where
// the state contradicts itself or any pair of `waiting`, 26 while bytes are owed
pub fn coronagamba_intake_close(
    state: &mut [u64; 15],
    out: &mut [u8],
    waiting: &[u8],
    length: &mut u64,
) -> u64
    ensures answer { result ≡ word_of (close_result (close_answer (state_of state.old) out.old waiting.now)) }
    ensures state { state.new ≡ closed_after (close_answer (state_of state.old) out.old waiting.now) state.old }
    ensures out { out.new ≡ close_left (state_of state.old) out.old waiting.now }
    ensures length { length.new ≡ shard_length_after (close_answer (state_of state.old) out.old waiting.now) length.old }
{
    let given = state_of(state);
    match intake::close(given, out, waiting) {
        Ok(closed) => {
            *state = numbers_of(closed.state);
            *length = closed.length as u64;
            0
        }
        Err(refusal) => refusal.number() as u64,
    }
}
