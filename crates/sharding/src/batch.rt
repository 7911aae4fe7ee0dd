// The places of many ids in one call, where a call for each would cost more than the work.

ghost use Rattle.std.specs.Prelude.{◌≡◌, true, map, ◌≤◌, length};
ghost use Rattle.endian.specs.Place.{paste};
ghost use Rattle.sharding.specs.Specification.{allowed};
ghost use Rattle.sharding.specs.placement.Place.{shard_of, minishard_of};
ghost use Rattle.sharding.specs.batch.Batch.{places_answer, shards_left, minishards_left};

use crate::Sharding;
use crate::limits::is_allowed;
use crate::placement::inner::place;
use refusal::Refusal;

#[tactic(auto, using(crate::proofs::batch::Batched::place_next, endian::proofs::Mapped::map_past))]
fn fill_places(spec: Sharding, ids: &[u64], shards: &mut [u64], minishards: &mut [u64])
    requires spec_value { allowed spec ≡ true }
    requires ids_in_bounds { (length ids.now ≤ length shards.old) × (length ids.now ≤ length minishards.old) }
    ensures shards_after { shards.new ≡ paste 0 (map (shard_of spec) ids.now) shards.old }
    ensures minishards_after { minishards.new ≡ paste 0 (map (minishard_of spec) ids.now) minishards.old }
{
    for (i, id) in ids.iter().enumerate() {
        let at = place(spec, *id);
        shards[i] = at.shard;
        minishards[i] = at.minishard;
    }
}

// The shard and the minishard of each id, and how many: 1 where the specification is not allowed,
// 13 where either do not fit.
pub fn places_of(
    spec: Sharding,
    ids: &[u64],
    shards: &mut [u64],
    minishards: &mut [u64],
) -> Result<usize, Refusal>
    ensures answer { result ≡ places_answer spec ids.now shards.old minishards.old }
    ensures shards { shards.new ≡ shards_left spec ids.now shards.old minishards.old }
    ensures minishards { minishards.new ≡ minishards_left spec ids.now shards.old minishards.old }
{
    if !is_allowed(spec) {
        return Err(Refusal::ShardingNotAllowed);
    }
    if shards.len() < ids.len() {
        return Err(Refusal::NoRoom);
    }
    if minishards.len() < ids.len() {
        return Err(Refusal::NoRoom);
    }
    fill_places(spec, ids, shards, minishards);
    Ok(ids.len())
}
