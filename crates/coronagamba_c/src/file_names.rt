// The file names of chunks and shards.
// Made by ./interface: change crates/coronagamba, then run it.

ghost use Rattle.std.specs.Prelude.{◌≡◌};
ghost use Rattle.names.specs.chunks.Chunks.{chunk_name_answer, chunk_name_left};
ghost use Rattle.names.specs.Shards.{shard_name_answer, shard_name_left};
ghost use Rattle.refusal.specs.Result.{written_result};
ghost use Rattle.coronagamba.specs.Specification.{given_sharding};
ghost use Rattle.coronagamba.specs.word.Word.{length_after, word_of};

use coronagamba::CSharding;
use morton::grid::{Cell, Volume};

#[unsafe(no_mangle)]
pub extern "C" fn coronagamba_chunk_name(
    volume: Volume,
    cell: Cell,
    out: &mut [u8],
    length: &mut u64,
) -> u64
    ensures answer { result ≡ word_of (written_result (chunk_name_answer volume cell out.old)) }
    ensures out { out.new ≡ chunk_name_left volume cell out.old }
    ensures length { length.new ≡ length_after (chunk_name_answer volume cell out.old) length.old }
{
    coronagamba::file_names::coronagamba_chunk_name(volume, cell, out, length)
}

#[unsafe(no_mangle)]
pub extern "C" fn coronagamba_shard_name(
    sharding: CSharding,
    shard: u64,
    out: &mut [u8],
    length: &mut u64,
) -> u64
    ensures answer { result ≡ word_of (written_result (shard_name_answer (given_sharding sharding) shard out.old)) }
    ensures out { out.new ≡ shard_name_left (given_sharding sharding) shard out.old }
    ensures length { length.new ≡ length_after (shard_name_answer (given_sharding sharding) shard out.old) length.old }
{
    coronagamba::file_names::coronagamba_shard_name(sharding, shard, out, length)
}
