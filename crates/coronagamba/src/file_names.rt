// The file names of chunks and shards.

ghost use Rattle.std.specs.Prelude.{◌≡◌};
ghost use Rattle.names.specs.chunks.Chunks.{chunk_name_answer, chunk_name_left};
ghost use Rattle.names.specs.Shards.{shard_name_answer, shard_name_left};
ghost use Rattle.refusal.specs.Result.{written_result};
ghost use Rattle.coronagamba.specs.Specification.{given_sharding};
ghost use Rattle.coronagamba.specs.word.Word.{length_after, word_of};

use crate::answers::put_length;
use crate::numbers::{CSharding, sharding_of};
use morton::grid::{Cell, Volume};

// The file name of a cell's chunk where chunks are not sharded. Writes its ASCII bytes, at most 71
// and with no 0 byte behind them, to the front of `out`, and their number to `length`.
// Refusals: 2, 13 where `out` is shorter than the name
pub fn coronagamba_chunk_name(volume: Volume, cell: Cell, out: &mut [u8], length: &mut u64) -> u64
    ensures answer { result ≡ word_of (written_result (chunk_name_answer volume cell out.old)) }
    ensures out { out.new ≡ chunk_name_left volume cell out.old }
    ensures length { length.new ≡ length_after (chunk_name_answer volume cell out.old) length.old }
{
    let answer = names::chunk_name(volume, cell, out);
    put_length(answer, length)
}

// The file name of a shard. Writes its ASCII bytes, at most 14 and with no 0 byte behind them, to
// the front of `out`, and their number to `length`.
// Refusals: 1, 5, 13 where `out` is shorter than the name
pub fn coronagamba_shard_name(
    sharding: CSharding,
    shard: u64,
    out: &mut [u8],
    length: &mut u64,
) -> u64
    ensures answer { result ≡ word_of (written_result (shard_name_answer (given_sharding sharding) shard out.old)) }
    ensures out { out.new ≡ shard_name_left (given_sharding sharding) shard out.old }
    ensures length { length.new ≡ length_after (shard_name_answer (given_sharding sharding) shard out.old) length.old }
{
    let answer = names::shard_name(sharding_of(sharding), shard, out);
    put_length(answer, length)
}
