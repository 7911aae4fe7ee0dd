// The keys of a row of cells: what y and z give is found once.

ghost use Rattle.std.specs.Prelude.{◌≡◌, map, ◌-◌, ◌≤◌, length};
ghost use Rattle.endian.specs.Place.{paste};
ghost use Rattle.morton.specs.Key.{key_bits_of, key_of};
ghost use Rattle.morton.specs.batch.Batch.{keys_answer, keys_left};
ghost use Rattle.morton.specs.spread.Spread.{Spreads};
ghost use Rattle.morton.specs.plan.Parts.{Planned};
ghost use Rattle.morton.specs.rows.Row.{row_of};

use crate::grid::inner::{grid, zero_extent};
use crate::grid::{Cell, Extents, Volume};
use crate::plan::Plan;
use crate::plan::inner::{plan, rest_key};
use crate::rows::{low_yz, next_rest, row_inside, row_length};
use crate::spread::spread_bits;
use crate::spread::table::spread_bytes;
use crate::steps::too_many_bits;
use refusal::Refusal;

fn fill(plan: Plan, table: &[u32], from: u32, to: u32, y: u32, z: u32, keys: &mut [u64])
    requires planned { Planned plan × Spreads table.now }
    requires room { to - from ≤ length keys.old }
    ensures { keys.new ≡ paste 0 (map (key_of plan.grid) (row_of from to y z)) keys.old }
{
    let yz = low_yz(table, y, z, plan.low);
    let mut rest = rest_key(plan, Cell { x: from, y, z });
    for x in from..to {
        keys[(x - from) as usize] = spread_bits(table, x, plan.low) + yz + rest;
        rest = next_rest(plan, x, y, z, rest);
    }
}

fn fill_row(grid: Extents, from: u32, to: u32, y: u32, z: u32, keys: &mut [u64])
    requires key_fits { key_bits_of grid ≤ 64 }
    requires room { to - from ≤ length keys.old }
    ensures { keys.new ≡ paste 0 (map (key_of grid) (row_of from to y z)) keys.old }
{
    let table = spread_bytes();
    fill(plan(grid), &table, from, to, y, z, keys);
}

// The keys of the cells with x from `from` up to `to`, that end excluded, at y and z, and how many:
// as `keys_of` answers for these cells.
pub fn row_keys(
    volume: Volume,
    from: u32,
    to: u32,
    y: u32,
    z: u32,
    keys: &mut [u64],
) -> Result<usize, Refusal>
    ensures answer { result ≡ keys_answer volume (row_of from to y z) keys.old }
    ensures keys { keys.new ≡ keys_left volume (row_of from to y z) keys.old }
{
    if zero_extent(volume) {
        return Err(Refusal::NoSuchCell);
    }
    let grid = grid(volume);
    if !row_inside(grid, from, to, y, z) {
        return Err(Refusal::NoSuchCell);
    }
    if too_many_bits(grid) {
        return Err(Refusal::TooManyKeyBits);
    }
    if keys.len() < row_length(from, to) {
        return Err(Refusal::NoRoom);
    }
    fill_row(grid, from, to, y, z, keys);
    Ok(row_length(from, to))
}
