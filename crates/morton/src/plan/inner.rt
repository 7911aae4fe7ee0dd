// The plan, and what it gives to a key.

ghost use Rattle.std.specs.Prelude.{◌≡◌, ◌*◌, ◌^◌, ◌<◌, ◌≤◌};
ghost use Rattle.morton.specs.Key.{key_bits_of};
ghost use Rattle.morton.specs.plan.Parts.{coarse_grid, coarse_cell, rest_key, Planned};

use crate::axis::axis_bits;
use crate::grid::inner::grid_size;
use crate::grid::{Cell, Extents};
use crate::plan::Plan;
use crate::steps::{key, key_bits};

// ---- the plan

// The grid of cells that are 2^n cells long.
fn coarse_grid(grid: Extents, n: u32) -> Extents
    requires { n < 32 }
    ensures { result ≡ coarse_grid n grid }
{
    let side = 1u32 << n;
    Extents {
        x: grid_size(grid.x, side),
        y: grid_size(grid.y, side),
        z: grid_size(grid.z, side),
    }
}

// What the keys of a grid need.
pub fn plan(grid: Extents) -> Plan
    requires { key_bits_of grid ≤ 64 }
    ensures { (result.grid ≡ grid) × Planned result }
{
    let x = axis_bits(grid.x);
    let y = axis_bits(grid.y);
    let z = axis_bits(grid.z);
    let low = x.min(y).min(z);
    let rest = coarse_grid(grid, low);
    Plan {
        grid,
        low,
        rest,
        bits: key_bits(rest),
    }
}

// ---- the key

// The cell of the coarse grid that holds a cell.
fn coarse_cell(cell: Cell, n: u32) -> Cell
    requires { n < 32 }
    ensures { result ≡ coarse_cell n cell }
{
    Cell {
        x: cell.x >> n,
        y: cell.y >> n,
        z: cell.z >> n,
    }
}

// x above n bits.
fn raise(x: u64, n: u32) -> u64
    requires { (n < 64) × (x * 2 ^ n < 2 ^ 64) }
    ensures { result ≡ x * 2 ^ n }
{
    x << n
}

// The bits of the turns after these, at their place in the key.
pub fn rest_key(plan: Plan, cell: Cell) -> u64
    requires { Planned plan }
    ensures { result ≡ rest_key plan.low plan.grid cell }
{
    if plan.bits == 0 {
        return 0;
    }
    let rest = key(plan.rest, coarse_cell(cell, plan.low));
    raise(rest, 3 * plan.low)
}
