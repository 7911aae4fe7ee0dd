// Tests 9 to 11 and the search in a minishard index that is read alone, without the file around it.

ghost use Rattle.std.specs.Prelude.{◌≡◌, ◌+◌, ◌*◌, ◌<◌, ◌≤◌, true, length};
ghost use Rattle.endian.specs.Range.{first};
ghost use Rattle.sharding.specs.Specification.{allowed};
ghost use Rattle.shard.specs.index.Index.{id_steps, start_steps, sizes, most_shard_bytes};
ghost use Rattle.shard.specs.index.Tests.{first_of};
ghost use Rattle.shard.specs.Faults.{foreign_at, ends_past};
ghost use Rattle.lookup.specs.id_search.Search.{found_in};
ghost use Rattle.lookup.specs.row_judge.Rows.{row_tests, Passed};

use crate::id_search::LookupAnswer;
use duplicate_ids::first_twice;
use endian::read_u64;
use shard::faults::is_foreign;
use shard::index::Fault;
use sharding::Sharding;

// The numbers of entry i in the three rows.
pub fn id_step(rows: &[u8], n: usize, i: usize) -> u64
    requires { (24 * n ≤ length rows.now) × (i < n) }
    ensures { (result ≡ id_steps rows.now 0 i) × (result < 18446744073709551616) }
{
    read_u64(rows, 8 * i)
}

pub fn start_step(rows: &[u8], n: usize, i: usize) -> u64
    requires { (24 * n ≤ length rows.now) × (i < n) }
    ensures { (result ≡ start_steps rows.now 0 n i) × (result < 18446744073709551616) }
{
    read_u64(rows, 8 * (n + i))
}

pub fn size_of(rows: &[u8], n: usize, i: usize) -> u64
    requires { (24 * n ≤ length rows.now) × (i < n) }
    ensures { (result ≡ sizes rows.now 0 n i) × (result < 18446744073709551616) }
{
    read_u64(rows, 8 * (2 * n + i))
}

// Test 10: the first of n entries whose id belongs to another shard or minishard; n where there is none.
pub fn first_foreign(spec: Sharding, shard: u64, m: u64, rows: &[u8], n: usize) -> usize
    requires spec_value { allowed spec ≡ true }
    requires n_in_bounds { 24 * n ≤ length rows.now }
    ensures { result ≡ first (foreign_at spec shard m (id_steps rows.now 0)) n }
{
    let mut own: u64 = 0;
    for j in 0..n {
        own = own.wrapping_add(id_step(rows, n, j));
        if is_foreign(spec, shard, m, own) {
            return j;
        }
    }
    n
}

// Test 11: the first of n entries whose chunk ends past the `room` bytes behind the shard index; n where there is none.
pub fn first_outside(room: u64, rows: &[u8], n: usize) -> usize
    requires { (24 * n ≤ length rows.now) × (room ≤ most_shard_bytes) }
    ensures { result ≡ first (ends_past room (start_steps rows.now 0 n) (sizes rows.now 0 n)) n }
{
    let mut end: u64 = 0;
    for k in 0..n {
        let start = end.wrapping_add(start_step(rows, n, k));
        let size = size_of(rows, n, k);
        if room < start {
            return k;
        }
        if room - start < size {
            return k;
        }
        end = start + size;
    }
    n
}

fn row_fault(number: u8, at: usize, i: usize) -> Fault
    requires { (at ≤ most_shard_bytes) × (i ≤ most_shard_bytes) }
    ensures { result ≡ record { number = number; position = at + 8 * i } }
{
    Fault {
        number,
        position: (at + 8 * i) as u64,
    }
}

// The first fault of n entries, which begin in the file at `at`.
pub fn rows_fault(
    spec: Sharding,
    shard: u64,
    m: u64,
    room: u64,
    at: usize,
    rows: &[u8],
    n: usize,
) -> Fault
    requires spec_value { allowed spec ≡ true }
    requires n_in_bounds { (24 * n ≤ length rows.now) × (length rows.now ≤ most_shard_bytes) × (room ≤ most_shard_bytes) × (at ≤ most_shard_bytes) }
    ensures { result ≡ first_of at n (row_tests spec shard m room rows.now n) }
{
    let again = first_twice(rows, 0, n);
    if again < n {
        return row_fault(9, at, again);
    }
    let foreign = first_foreign(spec, shard, m, rows, n);
    if foreign < n {
        return row_fault(10, at, foreign);
    }
    let ends_past = first_outside(room, rows, n);
    if ends_past < n {
        return row_fault(11, at, n + ends_past);
    }
    Fault {
        number: 0,
        position: 0,
    }
}

// The chunk of an id among n entries that passed; `base` is the length of the shard index.
pub fn find_row(base: usize, rows: &[u8], n: usize, id: u64) -> LookupAnswer
    requires { Passed base rows.now n }
    ensures { result ≡ found_in base rows.now 0 n id }
{
    let mut at: u64 = 0;
    let mut cur: u64 = 0;
    for i in 0..n {
        cur = cur.wrapping_add(id_step(rows, n, i));
        let start = at.wrapping_add(start_step(rows, n, i));
        let size = size_of(rows, n, i);
        if cur == id {
            return LookupAnswer::Found {
                start: base + start as usize,
                length: size as usize,
            };
        }
        at = start.wrapping_add(size);
    }
    LookupAnswer::Refused(12)
}
