// The names of shard files, written into lent buffers.

ghost use Rattle.std.specs.Prelude.{◌≡◌};
ghost use Rattle.names.specs.Shards.{file_name_answer, file_name_left, shard_name_answer, shard_name_left};
ghost use Rattle.names.specs.declared.FileKind.TheVariants.{Index, Data};

use crate::FileKind;
use refusal::Refusal;
use sharding::Sharding;

// The name of a shard's file: refused with 1, 5 or 13.
pub fn shard_name(spec: Sharding, shard: u64, out: &mut [u8]) -> Result<usize, Refusal>
    ensures answer { result ≡ shard_name_answer spec shard out.old }
    ensures out { out.new ≡ shard_name_left spec shard out.old }
{
    crate::writing::name_of(spec, shard, FileKind::Shard, out)
}

// The names of its two files in the earlier edition: refused alike.
pub fn index_name(spec: Sharding, shard: u64, out: &mut [u8]) -> Result<usize, Refusal>
    ensures answer { result ≡ file_name_answer Index spec shard out.old }
    ensures out { out.new ≡ file_name_left Index spec shard out.old }
{
    crate::writing::name_of(spec, shard, FileKind::Index, out)
}

pub fn data_name(spec: Sharding, shard: u64, out: &mut [u8]) -> Result<usize, Refusal>
    ensures answer { result ≡ file_name_answer Data spec shard out.old }
    ensures out { out.new ≡ file_name_left Data spec shard out.old }
{
    crate::writing::name_of(spec, shard, FileKind::Data, out)
}
