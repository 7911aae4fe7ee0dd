// A shard of the earlier edition, an index file and a data file: each call answered as for the two joined.
#![tactic(auto)]

pub mod data_part;
pub mod form;
pub mod held_range;
pub mod seam;

ghost use Rattle.std.specs.Prelude.{◌≡◌, ◌++◌, ◌+◌, length};
ghost use Rattle.lookup.specs.Find.{part_start, part_bytes};
ghost use Rattle.split_shard.specs.Answers.{pair_check, pair_lookup, pair_fragment, in_data};

use crate::seam::inner::length_number;
pub use form::{listed_count, listing, settle, settled_length, unlisted_count};
use lookup::LookupAnswer;
use lookup::chosen_minishard::lookup_in;
pub use seam::{range, range_part};
use shard::CheckAnswer;
use shard::judge::first_fault;
use sharding::Sharding;
use sharding::limits::{is_allowed, is_mesh, minishard_count, shard_count};
use sharding::placement::inner::shard_of;

// Whether a pair is sound; else the refusal or the fault, with the first faulty minishard and the position in the joined file.
pub fn check(spec: Sharding, shard: u64, index: &[u8], data: &[u8]) -> CheckAnswer
    ensures answer { result ≡ pair_check spec shard index.now «data».now }
{
    if !is_allowed(spec) {
        return CheckAnswer::Refused(1);
    }
    if shard_count(spec) <= shard {
        return CheckAnswer::Refused(5);
    }
    let number = length_number(spec, index, data);
    if number != 0 {
        return CheckAnswer::Refused(number);
    }
    let found = first_fault(spec, shard, index, data, 0, minishard_count(spec));
    if found.number == 0 {
        return CheckAnswer::Sound;
    }
    CheckAnswer::Faulty {
        number: found.number,
        minishard: found.minishard,
        position: found.position,
    }
}

// The place in the joined file and the length of the chunk of an id, or the refusal.
pub fn lookup(spec: Sharding, shard: u64, index: &[u8], data: &[u8], id: u64) -> LookupAnswer
    ensures answer { result ≡ pair_lookup spec shard index.now «data».now id }
{
    if !is_allowed(spec) {
        return LookupAnswer::Refused(1);
    }
    if shard_count(spec) <= shard {
        return LookupAnswer::Refused(5);
    }
    if shard_of(spec, id) != shard {
        return LookupAnswer::Refused(5);
    }
    let number = length_number(spec, index, data);
    if number != 0 {
        return LookupAnswer::Refused(number);
    }
    lookup_in(spec, shard, index, data, id)
}

// The chunk of an id as a part of the data file, uncopied; refused, the empty part at its start.
pub fn part<'a>(spec: Sharding, shard: u64, index: &[u8], data: &'a [u8], id: u64) -> &'a [u8]
    ensures answer { result.now ≡ part_bytes (pair_lookup spec shard index.now «data».now id) (index.now ++ «data».now) }
    ensures place { (result.ref_ptr.0 ≡ «data».entry.ref_ptr.0) × (result.ref_ptr.1 ≡ «data».entry.ref_ptr.1 + part_start (in_data (length index.now) (pair_lookup spec shard index.now «data».now id))) }
{
    data_part::data_part(index.len(), data, lookup(spec, shard, index, data, id))
}

// The place in the joined file and the length of the fragment of a node of the manifest of an id, or the refusal.
pub fn fragment(
    spec: Sharding,
    shard: u64,
    index: &[u8],
    data: &[u8],
    id: u64,
    level: u32,
    node: u32,
) -> LookupAnswer
    ensures answer { result ≡ pair_fragment spec shard index.now «data».now id level node }
{
    let seam = index.len();
    let found = lookup(spec, shard, index, data, id);
    match found {
        LookupAnswer::Found { start, length: _ } => {
            if !is_mesh(spec) {
                return LookupAnswer::Refused(18);
            }
            lookup::fragments::inner::fragment_in(
                data_part::data_part(seam, data, found),
                start,
                level,
                node,
            )
        }
        LookupAnswer::Refused(number) => LookupAnswer::Refused(number),
        LookupAnswer::Faulty { number, position } => LookupAnswer::Faulty { number, position },
    }
}

// The fragment as a part of the data file, uncopied; refused, the empty part at its start.
pub fn fragment_part<'a>(
    spec: Sharding,
    shard: u64,
    index: &[u8],
    data: &'a [u8],
    id: u64,
    level: u32,
    node: u32,
) -> &'a [u8]
    ensures answer { result.now ≡ part_bytes (pair_fragment spec shard index.now «data».now id level node) (index.now ++ «data».now) }
    ensures place { (result.ref_ptr.0 ≡ «data».entry.ref_ptr.0) × (result.ref_ptr.1 ≡ «data».entry.ref_ptr.1 + part_start (in_data (length index.now) (pair_fragment spec shard index.now «data».now id level node))) }
{
    data_part::data_part(
        index.len(),
        data,
        fragment(spec, shard, index, data, id, level, node),
    )
}
