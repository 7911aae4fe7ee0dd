// Lookup by ranges, for a volume shard that is not in memory: three calls that need numbers and the bytes that the calls before
// asked for, never the file. A range is where bytes lie in the file and how many they are.
pub mod inner;

ghost use Rattle.std.specs.Prelude.{◌≡◌};
ghost use Rattle.lookup.specs.ranges.Steps.{entry_range, index_range, chunk_range};

use crate::id_search::LookupAnswer;
use sharding::Sharding;
use sharding::placement::inner::minishard_of;

// The range of the id's entry in the shard index of a file of `len` bytes: 16 bytes. Refusals: 1 (of a mesh too), 5, 6.
pub fn entry_range(spec: Sharding, shard: u64, id: u64, len: u64) -> LookupAnswer
    ensures answer { result ≡ entry_range spec shard id len }
{
    let number = inner::call_number(spec, shard, id, len);
    if number != 0 {
        return LookupAnswer::Refused(number);
    }
    LookupAnswer::Found {
        start: 16 * minishard_of(spec, id) as usize,
        length: 16,
    }
}

// The range of the id's minishard index, from the bytes of its entry. Refusals: 1 (of a mesh too), 5, 6, 31 where `entry` has not
// 16 bytes, 7, 8, and 12 where the minishard is empty.
pub fn index_range(spec: Sharding, shard: u64, id: u64, len: u64, entry: &[u8]) -> LookupAnswer
    ensures answer { result ≡ index_range spec shard id len entry.now }
{
    let number = inner::call_number(spec, shard, id, len);
    if number != 0 {
        return LookupAnswer::Refused(number);
    }
    if inner::other_length(entry, 16) {
        return LookupAnswer::Refused(31);
    }
    inner::entry_says(spec, shard, id, len, entry)
}

// The range of the chunk, the plain lookup's answer, from the bytes of the entry and of the minishard index. Refusals: 1 (of a mesh
// too), 5, 6, 31 where a slice has not the length of its range, 7 to 11, 12.
pub fn chunk_range(
    spec: Sharding,
    shard: u64,
    id: u64,
    len: u64,
    entry: &[u8],
    rows: &[u8],
) -> LookupAnswer
    ensures answer { result ≡ chunk_range spec shard id len entry.now rows.now }
{
    let range = index_range(spec, shard, id, len, entry);
    match range {
        LookupAnswer::Found { start, length } => {
            inner::rows_say(spec, shard, id, len, start, length, rows)
        }
        LookupAnswer::Refused(number) => LookupAnswer::Refused(number),
        LookupAnswer::Faulty { number, position } => LookupAnswer::Faulty { number, position },
    }
}
