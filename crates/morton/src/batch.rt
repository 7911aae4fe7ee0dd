// The keys of many cells in one call, where a call for each would cost more than the work.

ghost use Rattle.std.specs.Prelude.{◌≡◌, map, ◌+◌, ◌/◌, ◌≤◌, length};
ghost use Rattle.endian.specs.Place.{paste};
ghost use Rattle.morton.specs.Key.{key_bits_of, key_of};
ghost use Rattle.morton.specs.batch.Batch.{cell_at, cells_of, each_in_grid, keys_answer, keys_left};

use crate::grid::{Cell, Extents, Volume, inner};
use refusal::Refusal;

// The cell whose three numbers begin at `at`.
pub(crate) fn cell_at(cells: &[u32], at: usize) -> Cell
    requires { at + 3 ≤ length cells.now }
    ensures { result ≡ cell_at cells.now at }
{
    Cell {
        x: cells[at],
        y: cells[at + 1],
        z: cells[at + 2],
    }
}

// Each cell is one of the grid's.
pub fn all_inside(grid: Extents, cells: &[u32]) -> bool
    ensures { result ≡ each_in_grid grid (cells_of cells.now) }
{
    let n = cells.len() / 3;
    for i in 0..n {
        if !inner::inside(grid, cell_at(cells, 3 * i)) {
            return false;
        }
    }
    true
}

#[tactic(auto, using(crate::proofs::batch::Threes::key_next, crate::proofs::batch::Threes::key_past))]
fn fill_keys(grid: Extents, cells: &[u32], keys: &mut [u64])
    requires key_fits { key_bits_of grid ≤ 64 }
    requires cells_in_bounds { length cells.now / 3 ≤ length keys.old }
    ensures { keys.new ≡ paste 0 (map (key_of grid) (cells_of cells.now)) keys.old }
{
    for i in 0..cells.len() / 3 {
        keys[i] = crate::steps::key(grid, cell_at(cells, 3 * i));
    }
}

// The keys of cells, three numbers for each, and how many: 2 where an extent is 0 or any cell is
// outside, 3 where the grid needs more than 64 key bits, 13 where the keys do not fit.
pub fn keys_of(volume: Volume, cells: &[u32], keys: &mut [u64]) -> Result<usize, Refusal>
    ensures answer { result ≡ keys_answer volume (cells_of cells.now) keys.old }
    ensures keys { keys.new ≡ keys_left volume (cells_of cells.now) keys.old }
{
    if inner::zero_extent(volume) {
        return Err(Refusal::NoSuchCell);
    }
    let grid = inner::grid(volume);
    if !all_inside(grid, cells) {
        return Err(Refusal::NoSuchCell);
    }
    if crate::steps::too_many_bits(grid) {
        return Err(Refusal::TooManyKeyBits);
    }
    if keys.len() < cells.len() / 3 {
        return Err(Refusal::NoRoom);
    }
    fill_keys(grid, cells, keys);
    Ok(cells.len() / 3)
}
