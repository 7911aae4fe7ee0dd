// The reading room's opened shard: the borrowed bytes with the specification and the shard number, opened once and asked many times.
#![tactic(auto)]

pub mod pair;

ghost use Rattle.std.specs.Prelude.{◌≡◌, ◌+◌};
ghost use Rattle.lookup.specs.Find.{lookup_answer, part_start, part_bytes};
ghost use Rattle.lookup.specs.fragments.Fragment.{fragment_answer};

use lookup::LookupAnswer;
use sharding::Sharding;

// The fields stand in the order in which every call takes them.
#[derive(Clone, Copy)]
pub struct Opened<'a> {
    pub spec: Sharding,
    pub number: u64,
    pub file: &'a [u8],
}

// Opening judges nothing.
pub fn open_shard<'a>(spec: Sharding, number: u64, file: &'a [u8]) -> Opened<'a>
    ensures answer { (result.file ≡ file.entry) × (result.spec ≡ spec) × (result.number ≡ number) }
{
    Opened { spec, number, file }
}

// The answer of the plain lookup.
pub fn lookup<'a>(o: Opened<'a>, id: u64) -> LookupAnswer
    ensures answer { result ≡ lookup_answer o.entry.spec o.entry.number o.entry.file.now id }
{
    lookup::lookup(o.spec, o.number, o.file, id)
}

// The part that the plain call hands out, of the bytes that were lent to `open_shard`.
pub fn part<'a>(o: Opened<'a>, id: u64) -> &'a [u8]
    ensures answer { result.now ≡ part_bytes (lookup_answer o.entry.spec o.entry.number o.entry.file.now id) o.entry.file.now }
    ensures place { (result.ref_ptr.0 ≡ o.entry.file.ref_ptr.0) × (result.ref_ptr.1 ≡ o.entry.file.ref_ptr.1 + part_start (lookup_answer o.entry.spec o.entry.number o.entry.file.now id)) }
{
    lookup::part(o.spec, o.number, o.file, id)
}

// Both again with plain parameters: opened and asked once.
pub fn lookup_in(spec: Sharding, number: u64, file: &[u8], id: u64) -> LookupAnswer
    ensures answer { result ≡ lookup_answer spec number file.now id }
{
    lookup(open_shard(spec, number, file), id)
}

pub fn part_in(spec: Sharding, number: u64, file: &[u8], id: u64) -> &[u8]
    ensures answer { result.now ≡ part_bytes (lookup_answer spec number file.now id) file.now }
    ensures place { (result.ref_ptr.0 ≡ file.entry.ref_ptr.0) × (result.ref_ptr.1 ≡ file.entry.ref_ptr.1 + part_start (lookup_answer spec number file.now id)) }
{
    part(open_shard(spec, number, file), id)
}

// ---- of a mesh

// A node of the manifest of an id, level and node counted from 0.
#[derive(Clone, Copy)]
pub struct MeshNode {
    pub id: u64,
    pub level: u32,
    pub node: u32,
}

// The plain calls for such a node.
fn fragment_at(spec: Sharding, number: u64, file: &[u8], at: MeshNode) -> LookupAnswer
    ensures { result ≡ fragment_answer spec number file.now at.id at.level at.node }
{
    lookup::fragment(spec, number, file, at.id, at.level, at.node)
}

fn fragment_part_at(spec: Sharding, number: u64, file: &[u8], at: MeshNode) -> &[u8]
    ensures answer { result.now ≡ part_bytes (fragment_answer spec number file.now at.id at.level at.node) file.now }
    ensures place { (result.ref_ptr.0 ≡ file.entry.ref_ptr.0) × (result.ref_ptr.1 ≡ file.entry.ref_ptr.1 + part_start (fragment_answer spec number file.now at.id at.level at.node)) }
{
    lookup::fragment_part(spec, number, file, at.id, at.level, at.node)
}

// The answer of the plain call.
pub fn fragment<'a>(o: Opened<'a>, at: MeshNode) -> LookupAnswer
    ensures answer { result ≡ fragment_answer o.entry.spec o.entry.number o.entry.file.now at.id at.level at.node }
{
    fragment_at(o.spec, o.number, o.file, at)
}

// The part that the plain call hands out, of the bytes that were lent to `open_shard`.
pub fn fragment_part<'a>(o: Opened<'a>, at: MeshNode) -> &'a [u8]
    ensures answer { result.now ≡ part_bytes (fragment_answer o.entry.spec o.entry.number o.entry.file.now at.id at.level at.node) o.entry.file.now }
    ensures place { (result.ref_ptr.0 ≡ o.entry.file.ref_ptr.0) × (result.ref_ptr.1 ≡ o.entry.file.ref_ptr.1 + part_start (fragment_answer o.entry.spec o.entry.number o.entry.file.now at.id at.level at.node)) }
{
    fragment_part_at(o.spec, o.number, o.file, at)
}
