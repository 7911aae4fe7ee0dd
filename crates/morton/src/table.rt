// The key of a cell by the table: the bits of the turns that all three axes share by the table, the
// rest by the steps.

ghost use Rattle.std.specs.Prelude.{◌≡◌, ◌≤◌};
ghost use Rattle.morton.specs.Key.{key_of};
ghost use Rattle.morton.specs.spread.Spread.{Spreads};
ghost use Rattle.morton.specs.plan.Parts.{low_key, Planned};

use crate::grid::Cell;
use crate::plan::Plan;
use crate::plan::inner::rest_key;
use crate::spread::spread_bits;

// The bits of the turns below n, which use all three axes: none where an axis has one cell.
fn low_key(table: &[u32], cell: Cell, n: u32) -> u64
    requires { Spreads table.now × (n ≤ 21) }
    ensures { result ≡ low_key n cell }
{
    if n == 0 {
        return 0;
    }
    spread_bits(table, cell.x, n)
        + 2 * spread_bits(table, cell.y, n)
        + 4 * spread_bits(table, cell.z, n)
}

// The key of a cell of the plan's grid.
pub fn key_by_table(plan: Plan, cell: Cell, table: &[u32]) -> u64
    requires { Planned plan × Spreads table.now }
    ensures { result ≡ key_of plan.grid cell }
{
    low_key(table, cell, plan.low) + rest_key(plan, cell)
}
