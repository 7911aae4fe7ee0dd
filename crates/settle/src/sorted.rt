// One minishard of a settled form, written sorted, or as it stands where that is its settled form.

ghost use Rattle.std.specs.Prelude.{◌≡◌, ◌+◌, ◌*◌, ◌≤◌, length};
ghost use Rattle.endian.specs.Little.{row, row_at};
ghost use Rattle.endian.specs.Place.{paste};
ghost use Rattle.shard.specs.index.Index.{most_shard_bytes};
ghost use Rattle.settled_form.specs.Form.{part_of};
ghost use Rattle.settled_form.specs.Content.{items_at, by_id};
ghost use Rattle.index_sort.specs.three_rows.Rows.{entries_at, Only};
ghost use Rattle.settle.specs.minishard_length.Writing.{ReadableIndex, LeadsIn, Apart, minishard_length};
ghost use Rattle.settle.specs.sorted.Reordered.{stored_entries, RisingRow, steps_from, SortedRows};

use crate::as_it_stands::may_stand;
use crate::item_runs::copy_items;
use crate::minishard_length::part_length;
use crate::stored::settle_stored;
use endian::{put_u64, read_u64};
use index_sort::sort_rows;
use index_sort::three_rows::{Entry, put};
use sharding::Sharding;

// The entries with absolute numbers, as they stand, in three rows at q.
fn put_rows(data: &[u8], s: usize, n: usize, out: &mut [u8], q: usize)
    requires { (s + 24 * n ≤ length «data».now) × (q + 24 * n ≤ length out.old) }
    ensures n_after { entries_at out.new q n ≡ stored_entries «data».now s n }
    ensures only { Only q (24 * n) out.old out.new }
{
    let starts = s + 8 * n;
    let sizes = s + 16 * n;
    let mut id: u64 = 0;
    let mut end: u64 = 0;
    for i in 0..n {
        id = id.wrapping_add(read_u64(data, s + 8 * i));
        let start = end.wrapping_add(read_u64(data, starts + 8 * i));
        let size = read_u64(data, sizes + 8 * i);
        let e = Entry { id, start, size };
        put(out, q, n, i, e);
        end = start.wrapping_add(size);
    }
}

// The same, sorted by id.
fn sort_index(data: &[u8], s: usize, n: usize, out: &mut [u8], q: usize)
    requires { (s + 24 * n ≤ length «data».now) × Apart «data».now s n × (q + 24 * n ≤ length out.old) }
    ensures { SortedRows «data».now s n out.old q out.new }
{
    put_rows(data, s, n, out, q);
    sort_rows(out, q, n);
}

// The rising ids of a row, turned into steps.
fn put_steps(out: &mut [u8], q: usize, n: usize)
    requires n_in_bounds { q + 8 * n ≤ length out.old }
    requires rising_row { RisingRow (row_at out.old q) n }
    ensures { out.new ≡ paste q (row (steps_from (row_at out.old q) 0 0 n)) out.old }
{
    let mut before: u64 = 0;
    for i in 0..n {
        let id = read_u64(out, q + 8 * i);
        put_u64(out, q + 8 * i, id - before);
        before = id;
    }
}

// The minishard at the place p, which counts from `base`.
fn settle_sorted(
    spec: Sharding,
    data: &[u8],
    s: usize,
    n: usize,
    out: &mut [u8],
    base: usize,
    p: usize,
) -> usize
    requires readable_index { ReadableIndex «data».now s n × LeadsIn spec «data».now s n × Apart «data».now s n }
    requires n_in_bounds { (base + p + minishard_length spec «data».now s n ≤ length out.old) × (minishard_length spec «data».now s n ≤ most_shard_bytes) }
    ensures value { result ≡ minishard_length spec «data».now s n }
    ensures out_after { out.new ≡ paste (base + p) (part_of p (by_id (items_at spec «data».now s n))) out.old }
{
    let begin = base + p;
    let len = part_length(spec, data, s, n);
    let q = begin + (len - 24 * n);
    sort_index(data, s, n, out, q);
    copy_items(spec, data, n, out, q, begin, p);
    put_steps(out, q, n);
    len
}

// The same, as it stands where it may be written so.
pub fn settle_part(
    spec: Sharding,
    data: &[u8],
    s: usize,
    n: usize,
    out: &mut [u8],
    base: usize,
    p: usize,
) -> usize
    requires readable_index { ReadableIndex «data».now s n × LeadsIn spec «data».now s n × Apart «data».now s n }
    requires n_in_bounds { (base + p + minishard_length spec «data».now s n ≤ length out.old) × (minishard_length spec «data».now s n ≤ most_shard_bytes) }
    ensures value { result ≡ minishard_length spec «data».now s n }
    ensures out_after { out.new ≡ paste (base + p) (part_of p (by_id (items_at spec «data».now s n))) out.old }
{
    if may_stand(spec, data, s, n) {
        return settle_stored(spec, data, s, n, out, base, p);
    }
    settle_sorted(spec, data, s, n, out, base, p)
}
