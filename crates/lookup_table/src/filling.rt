// Filling a table: a minishard index judged, its entries written and sorted.

ghost use Rattle.std.specs.Prelude.{◌≡◌, ◌*◌, ◌/◌, ◌≤◌, length};
ghost use Rattle.refusal.specs.Buffer.{over};
ghost use Rattle.settled_form.specs.Sorted.{Distinct};
ghost use Rattle.index_sort.specs.three_rows.Rows.{id_of};
ghost use Rattle.shard.specs.File.{index_length_of};
ghost use Rattle.lookup.specs.row_judge.Rows.{Passed};
ghost use Rattle.lookup.specs.ranges.Says.{Pointed};
ghost use Rattle.lookup_table.specs.sorting.Table.{each, entries_in, Front};
ghost use Rattle.lookup_table.specs.Fill.{listed, table_of};
ghost use Rattle.lookup_table.specs.Says.{rows_judged, fill_says, fill_holds, empty_or};

use crate::sorting::{Table, sort_table};
use index_sort::layout::Layout;
use index_sort::three_rows::Entry;
use lookup::ranges::inner::other_length;
use lookup::row_judge::{id_step, rows_fault, size_of, start_step};
use refusal::CountAnswer;
use shard::lengths::index_length;
use sharding::Sharding;
use sharding::placement::inner::minishard_of;

// The n entries in the order in which they are listed; `base` is the length of the shard index.
fn write_listed(base: usize, rows: &[u8], n: usize, out: &mut [u64])
    requires passed { Passed base rows.now n }
    requires n_in_bounds { 3 * n ≤ length out.old }
    ensures n_after { entries_in out.new n ≡ each (listed base rows.now n) 0 n }
    ensures front { Front (3 * n) out.old out.new }
{
    let mut at: u64 = 0;
    let mut cur: u64 = 0;
    for i in 0..n {
        cur = cur.wrapping_add(id_step(rows, n, i));
        let start = at.wrapping_add(start_step(rows, n, i));
        let size = size_of(rows, n, i);
        let e = Entry {
            id: cur,
            start: (base as u64) + start,
            size,
        };
        Table { n }.put(out, i, e);
        at = start.wrapping_add(size);
    }
}

// The table of n entries that passed.
fn write_table(base: usize, rows: &[u8], n: usize, out: &mut [u64])
    requires passed { Passed base rows.now n }
    requires distinct { Distinct id_of (each (listed base rows.now n) 0 n) }
    requires n_in_bounds { 3 * n ≤ length out.old }
    ensures { out.new ≡ over (table_of base rows.now n) out.old }
{
    write_listed(base, rows, n, out);
    sort_table(out, n);
}

// The minishard index of `count` bytes that begins in the file at `at`: judged, then written.
pub fn rows_fill(
    spec: Sharding,
    shard: u64,
    id: u64,
    len: u64,
    at: usize,
    count: usize,
    rows: &[u8],
    out: &mut [u64],
) -> CountAnswer
    requires { Pointed spec shard id len at count }
    ensures value { result ≡ fill_says (rows_judged spec shard id len at count rows.now) (count / 24) out.old }
    ensures out_after { out.new ≡ fill_holds (rows_judged spec shard id len at count rows.now) (index_length_of spec) rows.now (count / 24) out.old }
{
    if other_length(rows, count) {
        return CountAnswer::Refused(31);
    }
    let n = count / 24;
    let base = index_length(spec);
    let room = len - base as u64;
    let fault = rows_fault(spec, shard, minishard_of(spec, id), room, at, rows, n);
    if fault.number != 0 {
        return CountAnswer::Faulty {
            number: fault.number,
            position: fault.position,
        };
    }
    if out.len() < 3 * n {
        return CountAnswer::Refused(13);
    }
    write_table(base, rows, n, out);
    CountAnswer::Count(n)
}

// What the second call of a lookup by ranges refused: 12 is an empty minishard, whose table is empty.
pub fn empty_or(number: u8) -> CountAnswer
    ensures { result ≡ empty_or number }
{
    if number == 12 {
        return CountAnswer::Count(0);
    }
    CountAnswer::Refused(number)
}
