// The unlisted bytes of a shard whatever the order of its ranges, by windows of its data.

ghost use Rattle.std.specs.Prelude.{◌≡◌, ◌+◌, ◌-◌, ◌<◌, ◌≤◌, length, take, drop};
ghost use Rattle.bitmap.specs.Positions.{within, after, misses};
ghost use Rattle.bitmap.specs.window.Window.{span, window_words, Notes, Clear};
ghost use Rattle.shard.specs.index.Index.{entry_start_of, entry_end_of, most_shard_bytes};
ghost use Rattle.shard.specs.Items.{lead_length_of, Led};
ghost use Rattle.unlisted.specs.ranges.Covered.{in_items, in_minishard, covered_at};
ghost use Rattle.unlisted.specs.stretches.Reading.{Ranged, RangedIn, RangedShard};
ghost use Rattle.unlisted.specs.windows.Windows.{Limit, Meets};

use crate::chunks::Chunks;
use crate::stretches::item_start;
use bitmap::window::{SPAN, WINDOW_WORDS, note, open_below};
use shard::index::{entry_end, entry_start};
use shard::lengths::{MOST_SHARD_BYTES, has_leads};
use sharding::Sharding;
use sharding::limits::minishard_count;

// ---- noting: position p of the map stands for the byte at lo + p

// The range from a to b, as far as it lies in the window.
fn note_range(map: &mut [u64], lo: usize, a: usize, b: usize)
    requires { length map.old ≡ window_words }
    ensures { Notes map.old map.new (after lo (within a b)) }
{
    let x = a.saturating_sub(lo);
    let y = b.saturating_sub(lo).min(SPAN);
    if x < y {
        note(map, x, y);
    }
}

// From where on a chunk's start tells that its item lies past the window: never, where a lead may reach far back.
fn limit_of(spec: Sharding, lo: usize) -> usize
    requires { lo ≤ most_shard_bytes }
    ensures { Limit spec lo result }
{
    if has_leads(spec) {
        return MOST_SHARD_BYTES + 1;
    }
    lo + SPAN
}

// Whether it ends past lo and starts before the limit, by one comparison: chunks in no order decide no branch but this.
fn meets(lo: u64, limit: u64, start: u64, size: u64) -> bool
    requires { (lo < limit) × (limit ≤ 2147483648) × (start + size ≤ most_shard_bytes) }
    ensures { Meets lo limit start size result }
{
    (start + size).wrapping_sub(lo + 1) < limit - (lo + 1) + size
}

// An item that may meet the window. One whose chunk begins before it needs no lead.
fn note_met(map: &mut [u64], spec: Sharding, data: &[u8], lo: usize, start: usize, size: usize)
    requires map_len { length map.old ≡ window_words }
    requires size_in_bounds { (start + size ≤ length «data».now) × (length «data».now ≤ most_shard_bytes) × Led spec «data».now start size }
    ensures { Notes map.old map.new (after lo (within (start - lead_length_of spec (take size (drop start «data».now))) (start + size))) }
{
    if start <= lo {
        note_range(map, lo, start, start + size);
        return;
    }
    let begin = item_start(spec, data, start, size);
    note_range(map, lo, begin, start + size);
}

// An item.
fn note_item(
    map: &mut [u64],
    spec: Sharding,
    data: &[u8],
    lo: u64,
    limit: u64,
    start: u64,
    size: u64,
)
    requires map_len { (length map.old ≡ window_words) × Limit spec lo limit }
    requires size_in_bounds { (start + size ≤ length «data».now) × (length «data».now ≤ most_shard_bytes) × Led spec «data».now start size }
    ensures { Notes map.old map.new (after lo (within (start - lead_length_of spec (take size (drop start «data».now))) (start + size))) }
{
    if meets(lo, limit, start, size) {
        note_met(map, spec, data, lo as usize, start as usize, size as usize);
    }
}

// The items of the minishard index of n entries at s.
fn note_items(map: &mut [u64], spec: Sharding, data: &[u8], lo: u64, limit: u64, s: usize, n: usize)
    requires map_len { (length map.old ≡ window_words) × Limit spec lo limit }
    requires ranged { Ranged spec «data».now s n }
    ensures { Notes map.old map.new (after lo (in_items spec «data».now s n n)) }
{
    for chunk in Chunks::new(data, s, n, n) {
        note_item(map, spec, data, lo, limit, chunk.start, chunk.size);
    }
}

// Minishard m: its items and its index. An empty one may point past the data, and is not read.
fn note_minishard(
    map: &mut [u64],
    spec: Sharding,
    index: &[u8],
    data: &[u8],
    lo: u64,
    limit: u64,
    m: u64,
)
    requires map_len { (length map.old ≡ window_words) × Limit spec lo limit }
    requires ranged_in { RangedIn spec index.now «data».now m }
    ensures { Notes map.old map.new (after lo (in_minishard spec «data».now (entry_start_of index.now m) (entry_end_of index.now m))) }
{
    let s = entry_start(index, m) as usize;
    let e = entry_end(index, m) as usize;
    if s == e {
        return;
    }
    note_items(map, spec, data, lo, limit, s, (e - s) / 24);
    note_range(map, lo as usize, s, e);
}

// All minishards.
fn note_all(map: &mut [u64], spec: Sharding, index: &[u8], data: &[u8], lo: usize)
    requires map_len { (length map.old ≡ window_words) × (lo ≤ most_shard_bytes) }
    requires ranged_shard { RangedShard spec index.now «data».now }
    ensures { Notes map.old map.new (after lo (covered_at spec index.now «data».now)) }
{
    let limit = limit_of(spec, lo);
    let n = minishard_count(spec);
    for m in 0..n {
        note_minishard(map, spec, index, data, lo as u64, limit as u64, m);
    }
}

// ---- counting

// The unlisted bytes among the w from lo on, by a map of which nothing is noted.
fn count_in(map: &mut [u64], spec: Sharding, index: &[u8], data: &[u8], lo: usize, w: usize) -> u64
    requires map_len { (length map.old ≡ window_words) × (lo ≤ most_shard_bytes) × Clear map.old × (w ≤ span) }
    requires ranged_shard { RangedShard spec index.now «data».now }
    ensures { result ≡ misses (after lo (covered_at spec index.now «data».now)) w }
{
    note_all(map, spec, index, data, lo);
    open_below(map, w)
}

fn count_window(spec: Sharding, index: &[u8], data: &[u8], lo: usize, w: usize) -> u64
    requires lo_le_most_shard_bytes { (lo ≤ most_shard_bytes) × (w ≤ span) }
    requires ranged_shard { RangedShard spec index.now «data».now }
    ensures { result ≡ misses (after lo (covered_at spec index.now «data».now)) w }
{
    let mut map = [0u64; WINDOW_WORDS];
    count_in(&mut map, spec, index, data, lo, w)
}

// The unlisted bytes among any w from lo on: those of half of the windows, and of the rest. As this function calls itself, the
// compiler joins it with no caller, and the map is on the stack while windows are counted and at no other time.
pub fn count_from(spec: Sharding, index: &[u8], data: &[u8], lo: usize, w: usize) -> u64
    requires w_bound { lo + w ≤ most_shard_bytes }
    requires ranged_shard { RangedShard spec index.now «data».now }
    ensures { (result ≡ misses (after lo (covered_at spec index.now «data».now)) w) × (result ≤ w) }
{
    if w <= SPAN {
        return count_window(spec, index, data, lo, w);
    }
    let half = SPAN * ((w / SPAN + 1) / 2);
    let first = count_from(spec, index, data, lo, half);
    first + count_from(spec, index, data, lo + half, w - half)
}
