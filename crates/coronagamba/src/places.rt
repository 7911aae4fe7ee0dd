// The shard and the minishard of ids.

ghost use Rattle.std.specs.Prelude.{◌≡◌};
ghost use Rattle.sharding.specs.placement.Place.{place_answer, place_result};
ghost use Rattle.sharding.specs.batch.Batch.{places_answer, shards_left, minishards_left};
ghost use Rattle.refusal.specs.Result.{written_result};
ghost use Rattle.coronagamba.specs.Specification.{given_sharding};
ghost use Rattle.coronagamba.specs.word.Word.{length_after, word_of};
ghost use Rattle.coronagamba.specs.Places.{shard_after, minishard_after};

use crate::answers::put_length;
use crate::numbers::{CSharding, sharding_of};

// The shard and the minishard of an id. Writes them to `shard` and `minishard`.
// Refusals: 1
pub fn coronagamba_place_of(
    sharding: CSharding,
    id: u64,
    shard: &mut u64,
    minishard: &mut u64,
) -> u64
    ensures answer { result ≡ word_of (place_result (place_answer (given_sharding sharding) id)) }
    ensures shard { shard.new ≡ shard_after (place_answer (given_sharding sharding) id) shard.old }
    ensures minishard { minishard.new ≡ minishard_after (place_answer (given_sharding sharding) id) minishard.old }
{
    match sharding::place_of(sharding_of(sharding), id) {
        Ok(place) => {
            *shard = place.shard;
            *minishard = place.minishard;
            0
        }
        Err(refusal) => refusal.number() as u64,
    }
}

// The shards and the minishards of many ids, in their order. Writes them to the front of `shards`
// and of `minishards`, and their number to `length`.
// Refusals: 1, 13 where `shards` or `minishards` has room for fewer
pub fn coronagamba_places_of(
    sharding: CSharding,
    ids: &[u64],
    shards: &mut [u64],
    minishards: &mut [u64],
    length: &mut u64,
) -> u64
    ensures answer { result ≡ word_of (written_result (places_answer (given_sharding sharding) ids.now shards.old minishards.old)) }
    ensures shards { shards.new ≡ shards_left (given_sharding sharding) ids.now shards.old minishards.old }
    ensures minishards { minishards.new ≡ minishards_left (given_sharding sharding) ids.now shards.old minishards.old }
    ensures length { length.new ≡ length_after (places_answer (given_sharding sharding) ids.now shards.old minishards.old) length.old }
{
    let answer = sharding::places_of(sharding_of(sharding), ids, shards, minishards);
    put_length(answer, length)
}
