// Which shards there are, and how long the names of their files are.

ghost use Rattle.std.specs.Prelude.{◌≡◌, true, ◌+◌, ◌≤◌, length};
ghost use Rattle.sharding.specs.Specification.{allowed, no_such_shard};
ghost use Rattle.names.specs.Shards.{shard_digits, suffix_of};

use crate::FileKind;
use sharding::Sharding;

// Whether refusal 5 holds of a shard number.
pub fn no_such_shard(spec: Sharding, shard: u64) -> bool
    requires { allowed spec ≡ true }
    ensures { result ≡ no_such_shard spec shard }
{
    sharding::limits::shard_count(spec) <= shard
}

// How many digits a shard number is padded to.
#[tactic(auto, using(crate::proofs::Sharded::digits_made, crate::proofs::Sharded::digits_most))]
pub fn shard_digits(spec: Sharding) -> usize
    ensures { (result ≡ shard_digits spec) × (result ≤ 64) }
{
    usize::from(spec.shard_bits).div_ceil(4).max(1)
}

pub fn suffix_len(kind: FileKind) -> usize
    ensures { (result ≡ length (suffix_of kind)) × (result ≤ 6) }
{
    match kind {
        FileKind::Shard => 6,
        FileKind::Index => 6,
        FileKind::Data => 5,
    }
}

pub fn file_name_len(spec: Sharding, kind: FileKind) -> usize
    ensures { (result ≡ shard_digits spec + length (suffix_of kind)) × (result ≤ 70) }
{
    shard_digits(spec) + suffix_len(kind)
}
