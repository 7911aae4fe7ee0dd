// The key of a cell, and the cell of a key.

ghost use Rattle.std.specs.Prelude.{◌≡◌, ◌^◌, ◌≤◌, leb};
ghost use Rattle.morton.specs.Answers.{key_answer, cell_answer};

use crate::grid::{Cell, Volume};
use crate::steps;
use refusal::Refusal;

// The key of a cell: 2 where there is no such cell, 3 where the grid needs more than 64 key bits.
pub fn key_of(volume: Volume, cell: Cell) -> Result<u64, Refusal>
    ensures answer { result ≡ key_answer volume cell }
{
    if crate::grid::inner::zero_extent(volume) {
        return Err(Refusal::NoSuchCell);
    }
    let grid = crate::grid::inner::grid(volume);
    if !crate::grid::inner::inside(grid, cell) {
        return Err(Refusal::NoSuchCell);
    }
    if steps::too_many_bits(grid) {
        return Err(Refusal::TooManyKeyBits);
    }
    Ok(steps::key(grid, cell))
}

// The key has a bit above its first `bits`.
fn reaches_past(key: u64, bits: u32) -> bool
    requires { bits ≤ 64 }
    ensures { result ≡ leb (2 ^ bits) key }
{
    if bits == 64 {
        return false;
    }
    (1u64 << bits) <= key
}

// The cell whose key it is: 2 where an extent is 0, 3 as above, 4 where the key is no cell's.
pub fn cell_of(volume: Volume, key: u64) -> Result<Cell, Refusal>
    ensures answer { result ≡ cell_answer volume key }
{
    if crate::grid::inner::zero_extent(volume) {
        return Err(Refusal::NoSuchCell);
    }
    let grid = crate::grid::inner::grid(volume);
    if steps::too_many_bits(grid) {
        return Err(Refusal::TooManyKeyBits);
    }
    if reaches_past(key, steps::key_bits(grid)) {
        return Err(Refusal::KeyOfNoCell);
    }
    let cell = steps::cell(grid, key);
    if !crate::grid::inner::inside(grid, cell) {
        return Err(Refusal::KeyOfNoCell);
    }
    Ok(cell)
}
