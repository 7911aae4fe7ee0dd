// The count of a minishard, once the call is allowed.

ghost use Rattle.std.specs.Prelude.{◌≡◌, ◌<◌, ◌≤◌, true, length};
ghost use Rattle.sharding.specs.Specification.{allowed, minishard_count_of};
ghost use Rattle.shard.specs.index.Index.{most_shard_bytes};
ghost use Rattle.shard.specs.File.{index_length_of, index_part, data_part};
ghost use Rattle.lookup.specs.listings.Listing.{count_in};

use crate::entries::count_in;
use refusal::CountAnswer;
use shard::judge::judge;
use shard::lengths::index_length;
use sharding::Sharding;

// How many chunks minishard m lists, or its fault, in a shard of two parts.
pub fn count_parts(spec: Sharding, shard: u64, index: &[u8], data: &[u8], m: u64) -> CountAnswer
    requires spec_value { allowed spec ≡ true }
    requires index_len { (length index.now ≡ index_length_of spec) × (length «data».now ≤ most_shard_bytes) }
    requires m_bound { m < minishard_count_of spec }
    ensures { result ≡ count_in spec shard index.now «data».now m }
{
    let fault = judge(spec, shard, index, data, m);
    if fault.number != 0 {
        return CountAnswer::Faulty {
            number: fault.number,
            position: fault.position,
        };
    }
    CountAnswer::Count(count_in(index, m))
}

// The same in one file whose length was tested.
pub fn count_file(spec: Sharding, shard: u64, file: &[u8], m: u64) -> CountAnswer
    requires spec_value { allowed spec ≡ true }
    requires spec_in_bounds { (index_length_of spec ≤ length file.now) × (length file.now ≤ most_shard_bytes) }
    requires m_bound { m < minishard_count_of spec }
    ensures { result ≡ count_in spec shard (index_part spec file.now) (data_part spec file.now) m }
{
    let n = index_length(spec);
    count_parts(spec, shard, &file[..n], &file[n..], m)
}
