// The lengths of the two files.

ghost use Rattle.std.specs.Prelude.{◌≡◌, true};
ghost use Rattle.sharding.specs.Specification.{allowed};
ghost use Rattle.split_shard.specs.seam.Pair.{length_number};

use shard::lengths::{MOST_SHARD_BYTES, index_length};
use sharding::Sharding;

// 23, or 6 of the joined length, or 0. The two lengths are not added: nothing bounds them yet.
pub fn length_number(spec: Sharding, index: &[u8], data: &[u8]) -> u8
    requires { allowed spec ≡ true }
    ensures { result ≡ length_number spec index.now «data».now }
{
    let n = index_length(spec);
    let ragged = index.len() != n;
    let long = MOST_SHARD_BYTES - n < data.len();
    if ragged {
        return 23;
    }
    if long {
        return 6;
    }
    0
}
