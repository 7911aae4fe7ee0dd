// Where an intake writes: the shard index of no chunk on opening, the place of the next byte.

ghost use Rattle.std.specs.Prelude.{◌≡◌, true, ◌+◌, ◌<◌, ◌≤◌, length, replicate};
ghost use Rattle.endian.specs.Place.{paste};
ghost use Rattle.sharding.specs.Specification.{allowed};
ghost use Rattle.shard.specs.File.{index_length_of};
ghost use Rattle.intake.specs.state.State.{announced_length};

use crate::state::Intake;
use endian::copying::fill_zero;
use shard::lengths::index_length;
use sharding::Sharding;

// The shard index of a shard with no chunk: 0, 0 for each minishard.
pub fn put_entries(spec: Sharding, out: &mut [u8])
    requires { (allowed spec ≡ true) × (index_length_of spec ≤ length out.old) }
    ensures { out.new ≡ paste 0 (replicate (index_length_of spec) 0) out.old }
{
    let end = index_length(spec);
    fill_zero(out, 0, end);
}

// Where the next byte goes.
pub fn next_place(state: Intake) -> usize
    requires { (allowed state.spec ≡ true) × (announced_length state < 18446744073709551616) }
    ensures { result ≡ index_length_of state.spec + state.next }
{
    index_length(state.spec) + state.next
}
