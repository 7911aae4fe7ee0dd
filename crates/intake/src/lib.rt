// Intake from the scanner: a new volume shard, written in its settled form while its chunks come in parts.
// Each call answers the state for the next one, or the refusal, which changes neither the state nor a buffer.
#![tactic(auto)]

pub mod admission;
pub mod call_tests;
pub mod numbers;
pub mod places;
pub mod sanity;
pub mod state;
pub mod steps;
pub mod waiting;

ghost use Rattle.std.specs.Prelude.{◌≡◌};
ghost use Rattle.intake.specs.Calls.{open_answer, open_left, announce_answer, announce_left, announce_waiting, part_answer, part_left, close_answer, close_left};

use crate::admission::{announce_refusal, close_refusal, open_refusal, part_refusal};
use crate::call_tests::announced_length;
use crate::places::put_entries;
use crate::state::Intake;
pub use numbers::{numbers_of, state_of};
use refusal::Refusal;
use sharding::Sharding;

// A closed shard: the state, with which every further call is refused, and the length of the settled form.
#[derive(Clone, Copy)]
pub struct Closed {
    pub state: Intake,
    pub length: usize,
}

// Opens a new volume shard: `out` will hold it, `waiting` the ids and sizes of one minishard, 16 bytes for each chunk.
pub fn open(spec: Sharding, shard: u64, out: &mut [u8], waiting: &[u8]) -> Result<Intake, Refusal>
    ensures answer { result ≡ open_answer spec shard out.old waiting.now }
    ensures out { out.new ≡ open_left spec shard out.old }
{
    let output = out.len();
    open_refusal(spec, shard, output)?;
    put_entries(spec, out);
    Ok(steps::first(spec, shard, output, waiting.len()))
}

// Announces the next chunk and its size: by rising minishard, then rising id.
pub fn announce(
    state: Intake,
    id: u64,
    size: usize,
    out: &mut [u8],
    waiting: &mut [u8],
) -> Result<Intake, Refusal>
    ensures answer { result ≡ announce_answer state id size out.old waiting.old }
    ensures out { out.new ≡ announce_left state id size out.old waiting.old }
    ensures waiting { waiting.new ≡ announce_waiting state id size out.old waiting.old }
{
    announce_refusal(state, id, size, out.len(), waiting)?;
    Ok(steps::admit(state, id, size, out, waiting))
}

// Hands over the next bytes of the announced chunk.
pub fn part(state: Intake, bytes: &[u8], out: &mut [u8], waiting: &[u8]) -> Result<Intake, Refusal>
    ensures answer { result ≡ part_answer state bytes.now out.old waiting.now }
    ensures out { out.new ≡ part_left state bytes.now out.old waiting.now }
{
    part_refusal(state, bytes.len(), out.len(), waiting)?;
    Ok(steps::take(state, bytes, out))
}

// Closes the shard: the answer has the length of its settled form, with which `out` then begins.
pub fn close(state: Intake, out: &mut [u8], waiting: &[u8]) -> Result<Closed, Refusal>
    ensures answer { result ≡ close_answer state out.old waiting.now }
    ensures out { out.new ≡ close_left state out.old waiting.now }
{
    close_refusal(state, out.len(), waiting)?;
    steps::end_minishard(state, out, waiting);
    let length = announced_length(state);
    Ok(Closed {
        state: steps::last(state),
        length,
    })
}
