// What the calls by ranges share: 1, 5, 6 and 31, what an index entry says, what a minishard index says.

ghost use Rattle.std.specs.Prelude.{◌≡◌, false};
ghost use Rattle.refusal.specs.Checks.{first_number};
ghost use Rattle.lookup.specs.ranges.Steps.{call_checks, other_length};
ghost use Rattle.lookup.specs.ranges.Says.{entry_says, rows_say, Pointed};

use crate::id_search::LookupAnswer;
use crate::row_judge::{find_row, rows_fault};
use shard::index::{entry_end, entry_start};
use shard::lengths::{MOST_SHARD_BYTES, index_length};
use sharding::Sharding;
use sharding::limits::{is_allowed, is_mesh, shard_count};
use sharding::placement::inner::{minishard_of, shard_of};

// The number of the first of 1, 5 and 6 that holds; 0 where none does.
pub fn call_number(spec: Sharding, shard: u64, id: u64, len: u64) -> u8
    ensures { result ≡ first_number (call_checks spec shard id len) }
{
    if !is_allowed(spec) {
        return 1;
    }
    if is_mesh(spec) {
        return 1;
    }
    if shard_count(spec) <= shard {
        return 5;
    }
    if shard_of(spec, id) != shard {
        return 5;
    }
    if len < index_length(spec) as u64 {
        return 6;
    }
    if (MOST_SHARD_BYTES as u64) < len {
        return 6;
    }
    0
}

// Whether a slice has another length than the n bytes asked for: 31.
pub fn other_length(slice: &[u8], n: usize) -> bool
    ensures { result ≡ other_length slice.now n }
{
    slice.len() != n
}

// What the 16 bytes of the entry say, where none of 1, 5 and 6 holds.
pub fn entry_says(spec: Sharding, shard: u64, id: u64, len: u64, entry: &[u8]) -> LookupAnswer
    requires { (first_number (call_checks spec shard id len) ≡ 0) × (other_length entry.now 16 ≡ false) }
    ensures { result ≡ entry_says spec id len entry.now }
{
    let position = 16 * minishard_of(spec, id);
    let base = index_length(spec) as u64;
    let s = entry_start(entry, 0);
    let e = entry_end(entry, 0);
    if e < s {
        return LookupAnswer::Faulty {
            number: 7,
            position,
        };
    }
    if s == e {
        return LookupAnswer::Refused(12);
    }
    if len - base < e {
        return LookupAnswer::Faulty {
            number: 7,
            position,
        };
    }
    if (e - s) % 24 != 0 {
        return LookupAnswer::Faulty {
            number: 8,
            position,
        };
    }
    LookupAnswer::Found {
        start: (base + s) as usize,
        length: (e - s) as usize,
    }
}

// What the `count` bytes of the minishard index say, which begin in the file at `at`.
pub fn rows_say(
    spec: Sharding,
    shard: u64,
    id: u64,
    len: u64,
    at: usize,
    count: usize,
    rows: &[u8],
) -> LookupAnswer
    requires { Pointed spec shard id len at count }
    ensures { result ≡ rows_say spec shard id len at count rows.now }
{
    if other_length(rows, count) {
        return LookupAnswer::Refused(31);
    }
    let n = count / 24;
    let base = index_length(spec);
    let room = len - base as u64;
    let fault = rows_fault(spec, shard, minishard_of(spec, id), room, at, rows, n);
    if fault.number != 0 {
        return LookupAnswer::Faulty {
            number: fault.number,
            position: fault.position,
        };
    }
    find_row(base, rows, n, id)
}
