// A row of cells: whether all are inside, how many there are, and what a cell of it shares with the
// one before.

ghost use Rattle.std.specs.Prelude.{◌≡◌, ◌+◌, ◌-◌, ◌*◌, ◌^◌, ◌<◌, ◌≤◌};
ghost use Rattle.morton.specs.batch.Batch.{each_in_grid};
ghost use Rattle.morton.specs.spread.Spread.{spread, Spreads};
ghost use Rattle.morton.specs.plan.Parts.{rest_key, Planned};
ghost use Rattle.morton.specs.rows.Row.{row_of};

use crate::grid::inner::inside;
use crate::grid::{Cell, Extents};
use crate::plan::Plan;
use crate::plan::inner::rest_key;
use crate::spread::{low_bits, spread_bits};

// Each cell of a row is one of the grid's: its last one is.
pub fn row_inside(grid: Extents, from: u32, to: u32, y: u32, z: u32) -> bool
    ensures { result ≡ each_in_grid grid (row_of from to y z) }
{
    if to <= from {
        return true;
    }
    inside(grid, Cell { x: to - 1, y, z })
}

// How many cells a row has.
pub fn row_length(from: u32, to: u32) -> usize
    ensures { result ≡ to - from }
{
    to.saturating_sub(from) as usize
}

// What y and z give to the turns below n.
pub fn low_yz(table: &[u32], y: u32, z: u32, n: u32) -> u64
    requires { Spreads table.now × (n ≤ 21) }
    ensures { (result ≡ 2 * spread n y + 4 * spread n z) × (result < 6 * 2 ^ 61) }
{
    2 * spread_bits(table, y, n) + 4 * spread_bits(table, z, n)
}

// The bits of the later turns, from those of the cell before: they are the same within 2^low cells.
pub fn next_rest(plan: Plan, x: u32, y: u32, z: u32, rest: u64) -> u64
    requires planned { Planned plan × (x + 1 < 2 ^ 32) }
    requires rest_value { rest ≡ rest_key plan.low plan.grid (record { x = x; y = y; z = z }) }
    ensures { result ≡ rest_key plan.low plan.grid (record { x = x + 1; y = y; z = z }) }
{
    let next = x + 1;
    if low_bits(next as u64, plan.low) == 0 {
        return rest_key(plan, Cell { x: next, y, z });
    }
    rest
}
