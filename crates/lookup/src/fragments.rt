// One node's fragment in a mesh shard: its place and length, or the part of the file that it is.
pub mod inner;

ghost use Rattle.std.specs.Prelude.{◌≡◌, ◌+◌};
ghost use Rattle.lookup.specs.Find.{part_start, part_bytes};
ghost use Rattle.lookup.specs.fragments.Fragment.{fragment_answer};

use crate::id_search::LookupAnswer;
use crate::in_file::part_of;
use sharding::Sharding;
use sharding::limits::is_mesh;

// The place and length of the fragment of a node of the manifest of an id, level and node counted from 0, or the refusal.
pub fn fragment(
    spec: Sharding,
    shard: u64,
    file: &[u8],
    id: u64,
    level: u32,
    node: u32,
) -> LookupAnswer
    ensures answer { result ≡ fragment_answer spec shard file.now id level node }
{
    let found = crate::lookup(spec, shard, file, id);
    match found {
        LookupAnswer::Found { start, length: _ } => {
            if !is_mesh(spec) {
                return LookupAnswer::Refused(18);
            }
            inner::fragment_in(part_of(file, found), start, level, node)
        }
        LookupAnswer::Refused(number) => LookupAnswer::Refused(number),
        LookupAnswer::Faulty { number, position } => LookupAnswer::Faulty { number, position },
    }
}

// The fragment as a part of the file, uncopied; refused, the empty part at its start.
pub fn fragment_part(
    spec: Sharding,
    shard: u64,
    file: &[u8],
    id: u64,
    level: u32,
    node: u32,
) -> &[u8]
    ensures answer { result.now ≡ part_bytes (fragment_answer spec shard file.now id level node) file.now }
    ensures place { (result.ref_ptr.0 ≡ file.entry.ref_ptr.0) × (result.ref_ptr.1 ≡ file.entry.ref_ptr.1 + part_start (fragment_answer spec shard file.now id level node)) }
{
    part_of(file, fragment(spec, shard, file, id, level, node))
}
