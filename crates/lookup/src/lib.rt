// One question of a judged minishard: the chunk of an id, a node's fragment, a listing; also by ranges of a file that is not in memory.
#![tactic(auto)]

pub mod chosen_minishard;
pub mod entries;
pub mod fragments;
pub mod id_search;
pub mod in_file;
pub mod listings;
pub mod ranges;
pub mod row_judge;

ghost use Rattle.std.specs.Prelude.{◌≡◌, ◌+◌};
ghost use Rattle.lookup.specs.Find.{lookup_answer, part_start, part_bytes};

pub use fragments::{fragment, fragment_part};
pub use id_search::LookupAnswer;
pub use listings::{listed_count, listing};
pub use ranges::{chunk_range, entry_range, index_range};
use shard::lengths::{MOST_SHARD_BYTES, index_length};
use sharding::Sharding;
use sharding::limits::{is_allowed, shard_count};
use sharding::placement::inner::shard_of;

// The place and length of the chunk of an id, or the refusal.
pub fn lookup(spec: Sharding, shard: u64, file: &[u8], id: u64) -> LookupAnswer
    ensures answer { result ≡ lookup_answer spec shard file.now id }
{
    if !is_allowed(spec) {
        return LookupAnswer::Refused(1);
    }
    if shard_count(spec) <= shard {
        return LookupAnswer::Refused(5);
    }
    if shard_of(spec, id) != shard {
        return LookupAnswer::Refused(5);
    }
    if file.len() < index_length(spec) {
        return LookupAnswer::Refused(6);
    }
    if MOST_SHARD_BYTES < file.len() {
        return LookupAnswer::Refused(6);
    }
    in_file::lookup_file(spec, shard, file, id)
}

// The chunk of an id as a part of the file, uncopied; refused, the empty part at its start.
pub fn part(spec: Sharding, shard: u64, file: &[u8], id: u64) -> &[u8]
    ensures answer { result.now ≡ part_bytes (lookup_answer spec shard file.now id) file.now }
    ensures place { (result.ref_ptr.0 ≡ file.entry.ref_ptr.0) × (result.ref_ptr.1 ≡ file.entry.ref_ptr.1 + part_start (lookup_answer spec shard file.now id)) }
{
    in_file::part_of(file, lookup(spec, shard, file, id))
}
