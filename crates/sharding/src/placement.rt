// The place of an id: its shard and, within it, its minishard.
pub mod inner;

ghost use Rattle.std.specs.Prelude.{◌≡◌};
ghost use Rattle.sharding.specs.placement.Place.{place_answer};

use crate::Sharding;
use crate::limits::is_allowed;
use refusal::Refusal;

#[derive(Clone, Copy)]
pub struct Place {
    pub shard: u64,
    pub minishard: u64,
}

// The shard and minishard of an id, or refusal 1.
pub fn place_of(spec: Sharding, id: u64) -> Result<Place, Refusal>
    ensures answer { result ≡ place_answer spec id }
{
    if is_allowed(spec) {
        Ok(inner::place(spec, id))
    } else {
        Err(Refusal::ShardingNotAllowed)
    }
}
