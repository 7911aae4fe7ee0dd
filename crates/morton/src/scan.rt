// Keys for a whole scan, by the table of spread bytes, which is made once for all of them.
pub mod row;

ghost use Rattle.std.specs.Prelude.{◌≡◌, map, ◌+◌, ◌/◌, ◌≤◌, length};
ghost use Rattle.endian.specs.Place.{paste};
ghost use Rattle.morton.specs.Key.{key_bits_of, key_of};
ghost use Rattle.morton.specs.batch.Batch.{cells_of, keys_answer, keys_left};
ghost use Rattle.morton.specs.spread.Spread.{Spreads};
ghost use Rattle.morton.specs.plan.Parts.{Planned};

use crate::batch::cell_at;
use crate::grid::{Extents, Volume};
use crate::plan::Plan;
use crate::plan::inner::plan;
use crate::spread::table::spread_bytes;
use crate::table::key_by_table;
use refusal::Refusal;

#[tactic(auto, using(crate::proofs::batch::Threes::key_next, crate::proofs::batch::Threes::key_past))]
fn fill(plan: Plan, table: &[u32], cells: &[u32], keys: &mut [u64])
    requires planned { Planned plan × Spreads table.now }
    requires cells_in_bounds { length cells.now / 3 ≤ length keys.old }
    ensures { keys.new ≡ paste 0 (map (key_of plan.grid) (cells_of cells.now)) keys.old }
{
    for i in 0..cells.len() / 3 {
        keys[i] = key_by_table(plan, cell_at(cells, 3 * i), table);
    }
}

// The table is made here, once for all keys.
fn fill_keys(grid: Extents, cells: &[u32], keys: &mut [u64])
    requires key_fits { key_bits_of grid ≤ 64 }
    requires cells_in_bounds { length cells.now / 3 ≤ length keys.old }
    ensures { keys.new ≡ paste 0 (map (key_of grid) (cells_of cells.now)) keys.old }
{
    let table = spread_bytes();
    fill(plan(grid), &table, cells, keys);
}

// As `crate::batch::keys_of`, by the table: 2 where an extent is 0 or any cell is outside, 3 where the
// grid needs more than 64 key bits, 13 where the keys do not fit.
pub fn keys_of(volume: Volume, cells: &[u32], keys: &mut [u64]) -> Result<usize, Refusal>
    ensures answer { result ≡ keys_answer volume (cells_of cells.now) keys.old }
    ensures keys { keys.new ≡ keys_left volume (cells_of cells.now) keys.old }
{
    if crate::grid::inner::zero_extent(volume) {
        return Err(Refusal::NoSuchCell);
    }
    let grid = crate::grid::inner::grid(volume);
    if !crate::batch::all_inside(grid, cells) {
        return Err(Refusal::NoSuchCell);
    }
    if crate::steps::too_many_bits(grid) {
        return Err(Refusal::TooManyKeyBits);
    }
    if keys.len() < cells.len() / 3 {
        return Err(Refusal::NoRoom);
    }
    fill_keys(grid, cells, keys);
    Ok(cells.len() / 3)
}
