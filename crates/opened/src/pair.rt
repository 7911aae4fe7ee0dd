// The opened pair: the borrowed bytes of the two files with the specification and the shard number, opened once and asked many times.

ghost use Rattle.std.specs.Prelude.{◌≡◌, ◌++◌, ◌+◌, length};
ghost use Rattle.lookup.specs.Find.{part_start, part_bytes};
ghost use Rattle.split_shard.specs.Answers.{pair_lookup, pair_fragment, in_data};

use crate::MeshNode;
use lookup::LookupAnswer;
use sharding::Sharding;

// The fields stand in the order in which every call takes them.
#[derive(Clone, Copy)]
pub struct OpenedPair<'a> {
    pub spec: Sharding,
    pub number: u64,
    pub index: &'a [u8],
    pub data: &'a [u8],
}

// Opening judges nothing.
pub fn open_pair<'a>(spec: Sharding, number: u64, index: &'a [u8], data: &'a [u8]) -> OpenedPair<'a>
    ensures answer { (result.index ≡ index.entry) × (result.«data» ≡ «data».entry) × (result.spec ≡ spec) × (result.number ≡ number) }
{
    OpenedPair {
        spec,
        number,
        index,
        data,
    }
}

// The plain calls, both files borrowed for as long.
fn lookup_at<'a>(
    spec: Sharding,
    number: u64,
    index: &'a [u8],
    data: &'a [u8],
    id: u64,
) -> LookupAnswer
    ensures answer { result ≡ pair_lookup spec number index.now «data».now id }
{
    split_shard::lookup(spec, number, index, data, id)
}

fn part_at<'a>(spec: Sharding, number: u64, index: &'a [u8], data: &'a [u8], id: u64) -> &'a [u8]
    ensures answer { result.now ≡ part_bytes (pair_lookup spec number index.now «data».now id) (index.now ++ «data».now) }
    ensures place { (result.ref_ptr.0 ≡ «data».entry.ref_ptr.0) × (result.ref_ptr.1 ≡ «data».entry.ref_ptr.1 + part_start (in_data (length index.now) (pair_lookup spec number index.now «data».now id))) }
{
    split_shard::part(spec, number, index, data, id)
}

fn fragment_at<'a>(
    spec: Sharding,
    number: u64,
    index: &'a [u8],
    data: &'a [u8],
    at: MeshNode,
) -> LookupAnswer
    ensures answer { result ≡ pair_fragment spec number index.now «data».now at.id at.level at.node }
{
    split_shard::fragment(spec, number, index, data, at.id, at.level, at.node)
}

fn fragment_part_at<'a>(
    spec: Sharding,
    number: u64,
    index: &'a [u8],
    data: &'a [u8],
    at: MeshNode,
) -> &'a [u8]
    ensures answer { result.now ≡ part_bytes (pair_fragment spec number index.now «data».now at.id at.level at.node) (index.now ++ «data».now) }
    ensures place { (result.ref_ptr.0 ≡ «data».entry.ref_ptr.0) × (result.ref_ptr.1 ≡ «data».entry.ref_ptr.1 + part_start (in_data (length index.now) (pair_fragment spec number index.now «data».now at.id at.level at.node))) }
{
    split_shard::fragment_part(spec, number, index, data, at.id, at.level, at.node)
}

// The answer of the plain lookup.
pub fn lookup<'a>(o: OpenedPair<'a>, id: u64) -> LookupAnswer
    ensures answer { result ≡ pair_lookup o.entry.spec o.entry.number o.entry.index.now o.entry.«data».now id }
{
    lookup_at(o.spec, o.number, o.index, o.data, id)
}

// The part that the plain call hands out, of the data file that was lent to `open_pair`.
pub fn part<'a>(o: OpenedPair<'a>, id: u64) -> &'a [u8]
    ensures answer { result.now ≡ part_bytes (pair_lookup o.entry.spec o.entry.number o.entry.index.now o.entry.«data».now id) (o.entry.index.now ++ o.entry.«data».now) }
    ensures place { (result.ref_ptr.0 ≡ o.entry.«data».ref_ptr.0) × (result.ref_ptr.1 ≡ o.entry.«data».ref_ptr.1 + part_start (in_data (length o.entry.index.now) (pair_lookup o.entry.spec o.entry.number o.entry.index.now o.entry.«data».now id))) }
{
    part_at(o.spec, o.number, o.index, o.data, id)
}

// Both again for the fragment of a node of a manifest.
pub fn fragment<'a>(o: OpenedPair<'a>, at: MeshNode) -> LookupAnswer
    ensures answer { result ≡ pair_fragment o.entry.spec o.entry.number o.entry.index.now o.entry.«data».now at.id at.level at.node }
{
    fragment_at(o.spec, o.number, o.index, o.data, at)
}

pub fn fragment_part<'a>(o: OpenedPair<'a>, at: MeshNode) -> &'a [u8]
    ensures answer { result.now ≡ part_bytes (pair_fragment o.entry.spec o.entry.number o.entry.index.now o.entry.«data».now at.id at.level at.node) (o.entry.index.now ++ o.entry.«data».now) }
    ensures place { (result.ref_ptr.0 ≡ o.entry.«data».ref_ptr.0) × (result.ref_ptr.1 ≡ o.entry.«data».ref_ptr.1 + part_start (in_data (length o.entry.index.now) (pair_fragment o.entry.spec o.entry.number o.entry.index.now o.entry.«data».now at.id at.level at.node))) }
{
    fragment_part_at(o.spec, o.number, o.index, o.data, at)
}
