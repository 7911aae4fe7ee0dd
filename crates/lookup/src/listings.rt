// The listing of a minishard: how many chunks it lists, and the id, place and length of each.
pub mod inner;

ghost use Rattle.std.specs.Prelude.{◌≡◌};
ghost use Rattle.lookup.specs.listings.Listing.{count_answer, listing_answer, listing_left};

use crate::entries::put_listing;
use refusal::CountAnswer;
use shard::lengths::{MOST_SHARD_BYTES, index_length};
use sharding::Sharding;
use sharding::limits::{is_allowed, minishard_count, shard_count};

// How many chunks a minishard lists.
pub fn listed_count(spec: Sharding, shard: u64, file: &[u8], minishard: u64) -> CountAnswer
    ensures answer { result ≡ count_answer spec shard file.now minishard }
{
    if !is_allowed(spec) {
        return CountAnswer::Refused(1);
    }
    if shard_count(spec) <= shard {
        return CountAnswer::Refused(5);
    }
    if minishard_count(spec) <= minishard {
        return CountAnswer::Refused(33);
    }
    if file.len() < index_length(spec) {
        return CountAnswer::Refused(6);
    }
    if MOST_SHARD_BYTES < file.len() {
        return CountAnswer::Refused(6);
    }
    inner::count_file(spec, shard, file, minishard)
}

// The ids, places and lengths of its chunks, in stored order: three numbers for each. The answer is how many numbers were written.
pub fn listing(
    spec: Sharding,
    shard: u64,
    file: &[u8],
    minishard: u64,
    out: &mut [u64],
) -> CountAnswer
    ensures answer { result ≡ listing_answer spec shard file.now minishard out.old }
    ensures out { out.new ≡ listing_left spec shard file.now minishard out.old }
{
    match listed_count(spec, shard, file, minishard) {
        CountAnswer::Count(count) => {
            if out.len() / 3 < count {
                return CountAnswer::Refused(13);
            }
            let n = index_length(spec);
            put_listing(&file[..n], &file[n..], minishard, out);
            CountAnswer::Count(3 * count)
        }
        CountAnswer::Refused(number) => CountAnswer::Refused(number),
        CountAnswer::Faulty { number, position } => CountAnswer::Faulty { number, position },
    }
}
