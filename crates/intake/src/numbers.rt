// The state of an intake as a row of 15 numbers, as C has it.

ghost use Rattle.std.specs.Prelude.{◌≡◌, ◌<◌};
ghost use Rattle.intake.specs.numbers.Numbers.{narrow, numbers_of, spec_of, state_of};

use crate::state::Intake;
use sharding::Sharding;

// A number for which a specification, or the state, has 8 bits.
pub fn capped(n: u64) -> u8
    ensures { (result ≡ narrow n) × (result < 256) }
{
    n.min(255) as u8
}

#[tactic(auto, using(crate::proofs::numbers::Numbered::stating))]
fn spec_of(numbers: &[u64; 15]) -> Sharding
    ensures { result ≡ spec_of numbers.now }
{
    Sharding {
        preshift: capped(numbers[0]),
        hash: capped(numbers[1]),
        minishard_bits: capped(numbers[2]),
        shard_bits: capped(numbers[3]),
        kind: capped(numbers[4]),
    }
}

// The state that any 15 numbers are.
#[tactic(auto, using(crate::proofs::numbers::Numbered::stating))]
pub fn state_of(numbers: &[u64; 15]) -> Intake
    ensures { result ≡ state_of numbers.now }
{
    Intake {
        spec: spec_of(numbers),
        shard: numbers[5],
        output: numbers[6] as usize,
        waiting: numbers[7] as usize,
        minishard: numbers[8],
        count: numbers[9] as usize,
        last: numbers[10],
        begin: numbers[11] as usize,
        next: numbers[12] as usize,
        owed: numbers[13] as usize,
        phase: capped(numbers[14]),
    }
}

// The numbers of a state.
pub fn numbers_of(state: Intake) -> [u64; 15]
    ensures { result ≡ numbers_of state }
{
    let spec = state.spec;
    [
        spec.preshift as u64,
        spec.hash as u64,
        spec.minishard_bits as u64,
        spec.shard_bits as u64,
        spec.kind as u64,
        state.shard,
        state.output as u64,
        state.waiting as u64,
        state.minishard,
        state.count as u64,
        state.last,
        state.begin as u64,
        state.next as u64,
        state.owed as u64,
        state.phase as u64,
    ]
}
