// The manifests that a mesh minishard lists: 15, 16 and 17 of each, and 21 where its fragments would start before the index end.

ghost use Rattle.std.specs.Prelude.{◌≡◌, ◌+◌, ◌≤◌, length, take, drop};
ghost use Rattle.shard.specs.index.Index.{most_shard_bytes};
ghost use Rattle.shard.specs.index.Tests.{first_of};
ghost use Rattle.shard.specs.index.Reading.{Readable};
ghost use Rattle.shard.specs.manifests.Each.{least_of, lesser};
ghost use Rattle.shard.specs.manifests.Mesh.{manifest_tests, manifest_number};

use crate::index::Fault;
use endian::read_u64;
use mesh_manifest::judge::judge;
use mesh_manifest::nodes::inner::fragments_length;

// The first test that an entry fails, and the first entry that fails it; number 0 where all pass.
#[derive(Clone, Copy)]
struct Failed {
    number: u8,
    entry: usize,
}

// The first of the tests that a manifest fails, whose bytes stand behind `start` others; 0 where it fails none.
fn manifest_number(start: u64, body: &[u8]) -> u8
    ensures { result ≡ manifest_number start body.now }
{
    match judge(body) {
        Err(refusal) => refusal.number(),
        Ok(()) => {
            if start < fragments_length(body) {
                21
            } else {
                0
            }
        }
    }
}

// The same of the chunk of that start and size.
fn chunk_number(data: &[u8], start: u64, size: u64) -> u8
    requires { (start + size ≤ length «data».now) × (length «data».now ≤ most_shard_bytes) }
    ensures { result ≡ manifest_number start (take size (drop start «data».now)) }
{
    let from = start as usize;
    let to = from + size as usize;
    manifest_number(start, &data[from..to])
}

// What failed so far, or entry i, which fails this number, where that is the lesser.
fn lesser_of(found: Failed, number: u8, i: usize) -> Failed
    ensures { result ≡ lesser found number i }
{
    if number == 0 {
        return found;
    }
    if found.number != 0 {
        if found.number <= number {
            return found;
        }
    }
    Failed { number, entry: i }
}

// Of the n entries at p, the first of the tests that one fails, with the first entry that fails it. Each manifest is read once.
// Not inlined: the loops of the judge, which calls this once a minishard of a mesh, keep the registers to themselves.
#[inline(never)]
fn first_failed(base: usize, data: &[u8], p: usize, n: usize) -> Failed
    requires { Readable base «data».now p n }
    ensures { result ≡ least_of n (manifest_tests «data».now p n) }
{
    let q = p + 8 * n;
    let t = p + 16 * n;
    let mut found = Failed {
        number: 0,
        entry: 0,
    };
    let mut at: u64 = 0;
    for i in 0..n {
        let start = at.wrapping_add(read_u64(data, q + 8 * i));
        let size = read_u64(data, t + 8 * i);
        let number = chunk_number(data, start, size);
        found = lesser_of(found, number, i);
        at = start + size;
    }
    found
}

// The same as a fault: its position is the start step of that entry, which stands behind a shard index of `base` bytes.
pub fn manifest_fault(base: usize, data: &[u8], p: usize, n: usize) -> Fault
    requires { Readable base «data».now p n }
    ensures { result ≡ first_of (base + p) n (manifest_tests «data».now p n) }
{
    let found = first_failed(base, data, p, n);
    if found.number == 0 {
        return Fault {
            number: 0,
            position: 0,
        };
    }
    Fault {
        number: found.number,
        position: (base + (p + 8 * n) + 8 * found.entry) as u64,
    }
}
