// Intake: a new volume shard, written while its chunks come in parts.
// Made by ./interface: change crates/coronagamba, then run it.

ghost use Rattle.std.specs.Prelude.{◌≡◌};
ghost use Rattle.intake.specs.Calls.{open_answer, open_left, announce_answer, announce_left, announce_waiting, part_answer, part_left, close_answer, close_left, close_result, intake_result};
ghost use Rattle.intake.specs.numbers.Numbers.{state_of};
ghost use Rattle.coronagamba.specs.word.Word.{word_of};
ghost use Rattle.coronagamba.specs.Specification.{given_sharding};
ghost use Rattle.coronagamba.specs.Intakes.{state_after_of, part_after, closed_after, shard_length_after};

use coronagamba::CSharding;

#[unsafe(no_mangle)]
pub extern "C" fn coronagamba_intake_open(
    sharding: CSharding,
    shard: u64,
    out: &mut [u8],
    waiting: &[u8],
    state: &mut [u64; 15],
) -> u64
    ensures answer { result ≡ word_of (intake_result (open_answer (given_sharding sharding) shard out.old waiting.now)) }
    ensures out { out.new ≡ open_left (given_sharding sharding) shard out.old }
    ensures state { state.new ≡ state_after_of (open_answer (given_sharding sharding) shard out.old waiting.now) state.old }
{
    coronagamba::intakes::coronagamba_intake_open(sharding, shard, out, waiting, state)
}

#[unsafe(no_mangle)]
pub extern "C" fn coronagamba_intake_announce(
    state: &mut [u64; 15],
    id: u64,
    size: u64,
    out: &mut [u8],
    waiting: &mut [u8],
) -> u64
    ensures answer { result ≡ word_of (intake_result (announce_answer (state_of state.old) id size out.old waiting.old)) }
    ensures state { state.new ≡ state_after_of (announce_answer (state_of state.old) id size out.old waiting.old) state.old }
    ensures out { out.new ≡ announce_left (state_of state.old) id size out.old waiting.old }
    ensures waiting { waiting.new ≡ announce_waiting (state_of state.old) id size out.old waiting.old }
{
    coronagamba::intakes::coronagamba_intake_announce(state, id, size, out, waiting)
}

#[unsafe(no_mangle)]
pub extern "C" fn coronagamba_intake_part(
    state: &mut [u64; 15],
    bytes: &[u8],
    out: &mut [u8],
    waiting: &[u8],
) -> u64
    ensures answer { result ≡ word_of (intake_result (part_answer (state_of state.old) bytes.now out.old waiting.now)) }
    ensures state { state.new ≡ part_after (part_answer (state_of state.old) bytes.now out.old waiting.now) state.old }
    ensures out { out.new ≡ part_left (state_of state.old) bytes.now out.old waiting.now }
{
    coronagamba::intakes::coronagamba_intake_part(state, bytes, out, waiting)
}

#[unsafe(no_mangle)]
pub extern "C" fn coronagamba_intake_close(
    state: &mut [u64; 15],
    out: &mut [u8],
    waiting: &[u8],
    length: &mut u64,
) -> u64
    ensures answer { result ≡ word_of (close_result (close_answer (state_of state.old) out.old waiting.now)) }
    ensures state { state.new ≡ closed_after (close_answer (state_of state.old) out.old waiting.now) state.old }
    ensures out { out.new ≡ close_left (state_of state.old) out.old waiting.now }
    ensures length { length.new ≡ shard_length_after (close_answer (state_of state.old) out.old waiting.now) length.old }
{
    coronagamba::intakes::coronagamba_intake_close(state, out, waiting, length)
}
