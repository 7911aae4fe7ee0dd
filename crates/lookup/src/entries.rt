// The entries of a minishard that passed the judge, as numbers: the id, place and length of each chunk.

ghost use Rattle.std.specs.Prelude.{◌≡◌, ◌+◌, ◌*◌, ◌≤◌, [], ◌∷◌, length};
ghost use Rattle.endian.specs.Place.{paste};
ghost use Rattle.shard.specs.index.Index.{entry_start_of, entry_end_of, entry_count};
ghost use Rattle.shard.specs.index.Reading.{Readable, ReadableIn};
ghost use Rattle.lookup.specs.entries.Entries.{triples_from, listing_in};

use endian::read_u64;
use shard::index::{entry_end, entry_start};

// The three numbers of entry i.
fn put_entry(out: &mut [u64], i: usize, id: u64, start: u64, size: u64)
    requires { 3 * i + 3 ≤ length out.old }
    ensures { out.new ≡ paste (3 * i) (id ∷ start ∷ size ∷ []) out.old }
{
    out[3 * i] = id;
    out[3 * i + 1] = start;
    out[3 * i + 2] = size;
}

// The n entries at p, where they have room; `base` is the length of the shard index.
fn put_entries(base: usize, data: &[u8], p: usize, n: usize, out: &mut [u64])
    requires { Readable base «data».now p n × (3 * n ≤ length out.old) }
    ensures { out.new ≡ paste 0 (triples_from base «data».now p n 0 n) out.old }
{
    let q = p + 8 * n;
    let t = p + 16 * n;
    let mut end: u64 = 0;
    let mut id: u64 = 0;
    for i in 0..n {
        id = id.wrapping_add(read_u64(data, p + 8 * i));
        let start = end.wrapping_add(read_u64(data, q + 8 * i));
        let size = read_u64(data, t + 8 * i);
        put_entry(out, i, id, base as u64 + start, size);
        end = start.wrapping_add(size);
    }
}

// How many chunks minishard m lists.
pub fn count_in(index: &[u8], m: u64) -> usize
    requires { (16 * m + 16 ≤ length index.now) × (entry_start_of index.now m ≤ entry_end_of index.now m) }
    ensures { result ≡ entry_count (entry_start_of index.now m) (entry_end_of index.now m) }
{
    ((entry_end(index, m) - entry_start(index, m)) / 24) as usize
}

// The entries of minishard m, which passed the judge, where they have room.
pub fn put_listing(index: &[u8], data: &[u8], m: u64, out: &mut [u64])
    requires { ReadableIn index.now «data».now m × (3 * entry_count (entry_start_of index.now m) (entry_end_of index.now m) ≤ length out.old) }
    ensures { out.new ≡ paste 0 (listing_in index.now «data».now m) out.old }
{
    let s = entry_start(index, m);
    let e = entry_end(index, m);
    if s == e {
        return;
    }
    let n = ((e - s) / 24) as usize;
    put_entries(index.len(), data, s as usize, n, out);
}
