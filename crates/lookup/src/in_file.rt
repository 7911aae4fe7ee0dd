// The lookup in a file whose length was tested; the part that an answer gives.

ghost use Rattle.std.specs.Prelude.{◌≡◌, ◌+◌, ◌≤◌, true, length};
ghost use Rattle.sharding.specs.Specification.{allowed};
ghost use Rattle.shard.specs.index.Index.{most_shard_bytes};
ghost use Rattle.shard.specs.File.{index_length_of, index_part, data_part};
ghost use Rattle.lookup.specs.chosen_minishard.Chosen.{lookup_in};
ghost use Rattle.lookup.specs.Find.{part_start, part_end, part_bytes};

use crate::chosen_minishard::lookup_in;
use crate::id_search::LookupAnswer;
use shard::lengths::index_length;
use sharding::Sharding;

// The lookup over two parts, in one file whose length was tested.
pub fn lookup_file(spec: Sharding, shard: u64, file: &[u8], id: u64) -> LookupAnswer
    requires spec_value { allowed spec ≡ true }
    requires spec_in_bounds { (index_length_of spec ≤ length file.now) × (length file.now ≤ most_shard_bytes) }
    ensures { result ≡ lookup_in spec shard (index_part spec file.now) (data_part spec file.now) id }
{
    let n = index_length(spec);
    lookup_in(spec, shard, &file[..n], &file[n..], id)
}

// The part of the file that an answer gives, uncopied; refused, the empty part at its start.
pub fn part_of(file: &[u8], found: LookupAnswer) -> &[u8]
    requires { (part_end found ≤ length file.now) × (part_end found ≤ most_shard_bytes) }
    ensures result_value { result.now ≡ part_bytes found file.now }
    ensures ref_ptr_value { (result.ref_ptr.0 ≡ file.entry.ref_ptr.0) × (result.ref_ptr.1 ≡ file.entry.ref_ptr.1 + part_start found) }
{
    match found {
        LookupAnswer::Found { start, length } => {
            let end = start + length;
            &file[start..end]
        }
        LookupAnswer::Refused(_) => &file[0..0],
        LookupAnswer::Faulty {
            number: _,
            position: _,
        } => &file[0..0],
    }
}
