// The unlisted bytes of a shard whose ranges come in rising order, by one walk over them.

ghost use Rattle.std.specs.Prelude.{◌≡◌, ◌-◌, ◌/◌, ◌≤◌};
ghost use Rattle.refusal.specs.Choice.{pick};
ghost use Rattle.bitmap.specs.Positions.{within};
ghost use Rattle.sharding.specs.Specification.{minishard_count_of};
ghost use Rattle.shard.specs.index.Index.{entry_start_of, entry_end_of};
ghost use Rattle.unlisted.specs.ranges.Covered.{in_items, covered_at};
ghost use Rattle.unlisted.specs.stretches.Reading.{Ranged, RangedIn, RangedShard};
ghost use Rattle.unlisted.specs.rising_walk.Order.{Extends, Tells, in_part, part_at};

use crate::chunks::Chunks;
use crate::stretches::{item_start, stretch_of};
use shard::index::{entry_end, entry_start};
use sharding::Sharding;
use sharding::limits::minishard_count;

// Where a walk stands: behind the last range, with so many bytes in none before it, all of these before `last`. A range that
// begins before `last` could hold some of them: the walk is then broken, and tells nothing.
#[derive(Clone, Copy)]
pub struct Run {
    pub to: usize,
    pub gaps: usize,
    pub last: usize,
}

pub const BROKEN: usize = 18446744073709551615;

fn run_of(to: usize, gaps: usize, last: usize) -> Run
    ensures { result ≡ record { to = to; gaps = gaps; last = last } }
{
    Run { to, gaps, last }
}

// The range from a to b.
fn extend(run: Run, a: usize, b: usize) -> Run
    requires { run.gaps ≤ run.to }
    ensures { Extends (within a b) run result }
{
    if b <= a {
        return run;
    }
    if a < run.last {
        return run_of(0, 0, BROKEN);
    }
    if run.to < a {
        return run_of(b, run.gaps + (a - run.to), a);
    }
    if run.to < b {
        return run_of(b, run.gaps, run.last);
    }
    run
}

// The first k items of the minishard index of n entries at s, one by one.
fn over_each(run: Run, spec: Sharding, data: &[u8], s: usize, n: usize, k: usize) -> Run
    requires ranged { Ranged spec «data».now s n × (k ≤ n) }
    requires gaps_le_to { run.gaps ≤ run.to }
    ensures { Extends (in_items spec «data».now s n k) run result }
{
    let mut at = run;
    for chunk in Chunks::new(data, s, n, k) {
        let start = chunk.start as usize;
        let size = chunk.size as usize;
        let begin = item_start(spec, data, start, size);
        at = extend(at, begin, start + size);
        if at.last == BROKEN {
            return at;
        }
    }
    at
}

// The same: at once where they stand in one run.
fn over_items(run: Run, spec: Sharding, data: &[u8], s: usize, n: usize, k: usize) -> Run
    requires ranged { Ranged spec «data».now s n × (k ≤ n) }
    requires gaps_le_to { run.gaps ≤ run.to }
    ensures { Extends (in_items spec «data».now s n k) run result }
{
    let stretch = stretch_of(spec, data, s, n, k);
    if stretch.whole {
        return extend(run, stretch.from, stretch.to);
    }
    over_each(run, spec, data, s, n, k)
}

fn chosen(b: bool, x: usize, y: usize) -> usize
    ensures { result ≡ pick b x y }
{
    if b { x } else { y }
}

// Of the minishard index from s to e its items, itself, or both.
pub fn over_part(
    run: Run,
    spec: Sharding,
    data: &[u8],
    s: usize,
    e: usize,
    items: bool,
    rows: bool,
) -> Run
    requires s_le_e { (s ≤ e) × Ranged spec «data».now s ((e - s) / 24) }
    requires gaps_le_to { run.gaps ≤ run.to }
    ensures { Extends (in_part items rows spec «data».now s e) run result }
{
    let n = (e - s) / 24;
    let k = chosen(items, n, 0);
    let at = over_items(run, spec, data, s, n, k);
    let to = chosen(rows, e, s);
    extend(at, s, to)
}

// Of minishard m. An empty one may point past the data, and is not read.
fn over_minishard(
    run: Run,
    spec: Sharding,
    index: &[u8],
    data: &[u8],
    m: u64,
    items: bool,
    rows: bool,
) -> Run
    requires ranged_in { RangedIn spec index.now «data».now m }
    requires gaps_le_to { run.gaps ≤ run.to }
    ensures { Extends (in_part items rows spec «data».now (entry_start_of index.now m) (entry_end_of index.now m)) run result }
{
    let s = entry_start(index, m) as usize;
    let e = entry_end(index, m) as usize;
    if s == e {
        return run;
    }
    over_part(run, spec, data, s, e, items, rows)
}

// Of all minishards.
fn over_all(run: Run, spec: Sharding, index: &[u8], data: &[u8], items: bool, rows: bool) -> Run
    requires ranged_shard { RangedShard spec index.now «data».now }
    requires gaps_le_to { run.gaps ≤ run.to }
    ensures { Extends (part_at items rows spec index.now «data».now (minishard_count_of spec)) run result }
{
    let n = minishard_count(spec);
    let mut at = run;
    for m in 0..n {
        at = over_minishard(at, spec, index, data, m, items, rows);
        if at.last == BROKEN {
            return at;
        }
    }
    at
}

// ---- all ranges, in the orders in which writers lay them down

pub fn nothing() -> Run
    ensures { result ≡ record { to = 0; gaps = 0; last = 0 } }
{
    run_of(0, 0, 0)
}

// The items of each minishard and then its index.
pub fn in_turn(spec: Sharding, index: &[u8], data: &[u8]) -> Run
    requires { RangedShard spec index.now «data».now }
    ensures { (result.gaps ≤ result.to) × Tells (covered_at spec index.now «data».now) result }
{
    let none = nothing();
    over_all(none, spec, index, data, true, true)
}

// All indexes before all items, or behind them.
fn in_parts(spec: Sharding, index: &[u8], data: &[u8]) -> Run
    requires { RangedShard spec index.now «data».now }
    ensures { (result.gaps ≤ result.to) × Tells (covered_at spec index.now «data».now) result }
{
    let none = nothing();
    let rows = over_all(none, spec, index, data, false, true);
    let before = over_all(rows, spec, index, data, true, false);
    if before.last != BROKEN {
        return before;
    }
    let items = over_all(none, spec, index, data, true, false);
    over_all(items, spec, index, data, false, true)
}

// The walk that went in turn, or where it is broken one in parts.
pub fn in_order(run: Run, spec: Sharding, index: &[u8], data: &[u8]) -> Run
    requires ranged_shard { RangedShard spec index.now «data».now }
    requires gaps_le_to { (run.gaps ≤ run.to) × Tells (covered_at spec index.now «data».now) run }
    ensures { (result.gaps ≤ result.to) × Tells (covered_at spec index.now «data».now) result }
{
    if run.last != BROKEN {
        return run;
    }
    in_parts(spec, index, data)
}
