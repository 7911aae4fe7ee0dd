// Whether two minishards list the same.

ghost use Rattle.std.specs.Prelude.{◌≡◌, ◌+◌, ◌*◌, ◌<◌, ◌≤◌, length, take, drop};
ghost use Rattle.shard.specs.Items.{item_of, Led};
ghost use Rattle.settled_form.specs.Sorted.{Member};
ghost use Rattle.settled_form.specs.Content.{items_at, by_id};
ghost use Rattle.settle.specs.minishard_length.Writing.{ReadableIndex, LeadsIn, Apart};
ghost use Rattle.settle.specs.length.Settleable.{SettleableIn};
ghost use Rattle.repair.specs.same_listing.Alike.{alike, Tells, SameChunk, AllIn, InStep};
ghost use Rattle.repair.specs.same_listing.Walk.{Walked, EntryRead};

use endian::read_u64;
use shard::lengths::lead_length;
use sharding::Sharding;

// ---- bytes

// Whether the n bytes at i of a are those at j of b.
fn same_bytes(a: &[u8], i: usize, b: &[u8], j: usize, n: usize) -> bool
    requires { (i + n ≤ length a.now) × (j + n ≤ length b.now) }
    ensures { Tells (take n (drop i a.now) ≡ take n (drop j b.now)) result }
{
    a[i..i + n] == b[j..j + n]
}

// ---- chunks

// Whether two chunks of the same bytes have the same leads, which are then of one length.
#[tactic(auto, using(crate::proofs::same_listing::Items::leading))]
fn same_leads(spec: Sharding, a: &[u8], start: usize, size: usize, b: &[u8], from: usize) -> bool
    requires size_in_bounds { (start + size ≤ length a.now) × Led spec a.now start size }
    requires size_in_bounds_2 { (from + size ≤ length b.now) × Led spec b.now from size }
    requires a_value { take size (drop start a.now) ≡ take size (drop from b.now) }
    ensures { Tells (SameChunk spec a.now start size b.now from size) result }
{
    let lead = lead_length(spec, a, start, size);
    same_bytes(a, start - lead, b, from - lead, lead)
}

// Whether two chunks are the same, with their leads.
#[tactic(auto, using(crate::proofs::same_listing::Items::comparing))]
fn same_chunk(
    spec: Sharding,
    a: &[u8],
    start: usize,
    size: usize,
    b: &[u8],
    from: usize,
    len: usize,
) -> bool
    requires size_in_bounds { (start + size ≤ length a.now) × Led spec a.now start size }
    requires len_in_bounds { (from + len ≤ length b.now) × Led spec b.now from len }
    ensures { Tells (SameChunk spec a.now start size b.now from len) result }
{
    if size != len {
        return false;
    }
    if !same_bytes(a, start, b, from, size) {
        return false;
    }
    same_leads(spec, a, start, size, b, from)
}

// ---- entries

// An entry of a minishard index: its id, where its chunk starts, how long it is, and where the next counts from.
#[derive(Clone, Copy)]
struct Entry {
    id: u64,
    start: usize,
    size: usize,
    end: u64,
}

// What the first entry counts from.
const NONE: Entry = Entry {
    id: 0,
    start: 0,
    size: 0,
    end: 0,
};

// Entry i of the n at p, by the one before it.
fn read_entry(data: &[u8], p: usize, n: usize, i: usize, before: Entry) -> Entry
    requires { ReadableIndex «data».now p n × Walked «data».now p n i before.id before.end × (i < n) }
    ensures { EntryRead «data».now p n i result.id result.start result.size result.end }
{
    let id = before.id.wrapping_add(read_u64(data, p + 8 * i));
    let start = before.end.wrapping_add(read_u64(data, p + 8 * n + 8 * i));
    let size = read_u64(data, p + 16 * n + 8 * i);
    let end = start.wrapping_add(size);
    Entry {
        id,
        start: start as usize,
        size: size as usize,
        end,
    }
}

// Whether two entries have the same id and the same chunk.
#[tactic(auto, using(crate::proofs::same_listing::Items::comparing))]
fn same_item(spec: Sharding, a: &[u8], one: Entry, b: &[u8], other: Entry) -> bool
    requires one_in_bounds { (one.start + one.size ≤ length a.now) × Led spec a.now one.start one.size }
    requires other_in_bounds { (other.start + other.size ≤ length b.now) × Led spec b.now other.start other.size }
    ensures { Tells (item_of spec a.now one.id one.start one.size ≡ item_of spec b.now other.id other.start other.size) result }
{
    if one.id != other.id {
        return false;
    }
    same_chunk(spec, a, one.start, one.size, b, other.start, other.size)
}

// Whether one of the n entries at p of b is the same as one of a.
fn is_among(spec: Sharding, a: &[u8], one: Entry, b: &[u8], p: usize, n: usize) -> bool
    requires one_in_bounds { (one.start + one.size ≤ length a.now) × Led spec a.now one.start one.size }
    requires readable_index { ReadableIndex b.now p n × LeadsIn spec b.now p n }
    ensures { Tells (Member (item_of spec a.now one.id one.start one.size) (items_at spec b.now p n)) result }
{
    let mut before = NONE;
    for i in 0..n {
        let next = read_entry(b, p, n, i, before);
        if same_item(spec, a, one, b, next) {
            return true;
        }
        before = next;
    }
    false
}

// Whether each of the n entries at p of a is among the k at s of b.
fn all_among(spec: Sharding, a: &[u8], p: usize, n: usize, b: &[u8], s: usize, k: usize) -> bool
    requires readable_index { ReadableIndex a.now p n × LeadsIn spec a.now p n }
    requires readable_index_2 { ReadableIndex b.now s k × LeadsIn spec b.now s k }
    ensures { Tells (AllIn spec a.now p n b.now s k) result }
{
    let mut before = NONE;
    for i in 0..n {
        let next = read_entry(a, p, n, i, before);
        if !is_among(spec, a, next, b, s, k) {
            return false;
        }
        before = next;
    }
    true
}

// Whether the n entries at p of a are, one by one, those at s of b.
fn in_step(spec: Sharding, a: &[u8], p: usize, b: &[u8], s: usize, n: usize) -> bool
    requires readable_index { ReadableIndex a.now p n × LeadsIn spec a.now p n }
    requires readable_index_2 { ReadableIndex b.now s n × LeadsIn spec b.now s n }
    ensures { Tells (InStep spec a.now p b.now s n) result }
{
    let mut before = NONE;
    let mut beside = NONE;
    for i in 0..n {
        let one = read_entry(a, p, n, i, before);
        let other = read_entry(b, s, n, i, beside);
        if !same_item(spec, a, one, b, other) {
            return false;
        }
        before = one;
        beside = other;
    }
    true
}

// ---- minishards

// Whether the n entries at p of a list the same as the k at s of b.
#[tactic(auto, using(crate::proofs::same_listing::Minishards::matching))]
fn same_entries(spec: Sharding, a: &[u8], p: usize, n: usize, b: &[u8], s: usize, k: usize) -> bool
    requires readable_index { ReadableIndex a.now p n × LeadsIn spec a.now p n × Apart a.now p n }
    requires readable_index_2 { ReadableIndex b.now s k × LeadsIn spec b.now s k × Apart b.now s k }
    ensures { Tells (by_id (items_at spec a.now p n) ≡ by_id (items_at spec b.now s k)) result }
{
    if n != k {
        return false;
    }
    if in_step(spec, a, p, b, s, n) {
        return true;
    }
    if !all_among(spec, a, p, n, b, s, k) {
        return false;
    }
    all_among(spec, b, s, k, a, p, n)
}

// Whether minishard m lists the same in two shards of two parts, in both of which it can be settled.
#[tactic(auto, using(crate::proofs::same_listing::Minishards::deciding))]
pub fn lists_alike(spec: Sharding, ia: &[u8], da: &[u8], ib: &[u8], db: &[u8], m: usize) -> bool
    requires m_in_bounds { (16 * m + 16 ≤ length ia.now) × SettleableIn spec ia.now da.now m }
    requires m_in_bounds_2 { (16 * m + 16 ≤ length ib.now) × SettleableIn spec ib.now db.now m }
    ensures { result ≡ alike spec ia.now da.now ib.now db.now m }
{
    let p = read_u64(ia, 16 * m) as usize;
    let e = read_u64(ia, 16 * m + 8) as usize;
    let s = read_u64(ib, 16 * m) as usize;
    let f = read_u64(ib, 16 * m + 8) as usize;
    if p == e {
        return s == f;
    }
    if s == f {
        return false;
    }
    same_entries(spec, da, p, (e - p) / 24, db, s, (f - s) / 24)
}
