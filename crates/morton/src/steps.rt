// Keys by the published steps, a turn for each bit, of a grid that the caller has tested: key bits, key, cell.

ghost use Rattle.std.specs.Prelude.{◌≡◌, false, ◌≤◌};
ghost use Rattle.morton.specs.grid.Grid.{grid_of, zero_extent};
ghost use Rattle.morton.specs.Key.{key_bits_of, too_many_bits, key_of, cell_of};
ghost use Rattle.morton.specs.Turn.{Top};

use crate::axis;
use crate::grid::inner::grid;
use crate::grid::{Cell, Extents, Volume};

// How many bits the grid's keys have.
pub fn key_bits(grid: Extents) -> u32
    ensures { result ≡ key_bits_of grid }
{
    axis::axis_bits(grid.x) + axis::axis_bits(grid.y) + axis::axis_bits(grid.z)
}

// The grid needs more than 64: refusal 3.
pub fn too_many_bits(grid: Extents) -> bool
    ensures { result ≡ too_many_bits grid }
{
    64 < key_bits(grid)
}

// How many bits the keys of a volume's grid have: a card whose grid needs more than 64 is refused.
pub fn volume_key_bits(volume: Volume) -> u32
    requires { zero_extent volume ≡ false }
    ensures { result ≡ key_bits_of (grid_of volume) }
{
    key_bits(grid(volume))
}

// As many turns as some axis uses: no later turn uses any.
#[tactic(auto, using(crate::proofs::Lengths::top_of))]
fn turns(grid: Extents) -> u32
    ensures { Top grid result }
{
    axis::axis_bits(grid.x)
        .max(axis::axis_bits(grid.y))
        .max(axis::axis_bits(grid.z))
}

// The key of a cell, from its highest bit down.
#[tactic(auto, using(crate::proofs::Turns::packed_none, crate::proofs::Turns::packed_more, crate::proofs::Turns::packed_all))]
pub fn key(grid: Extents, cell: Cell) -> u64
    requires { key_bits_of grid ≤ 64 }
    ensures { result ≡ key_of grid cell }
{
    let mut k = 0u64;
    for i in (0..turns(grid)).rev() {
        k = axis::put_bit(grid.z, cell.z, i, k);
        k = axis::put_bit(grid.y, cell.y, i, k);
        k = axis::put_bit(grid.x, cell.x, i, k);
    }
    k
}

// The cell that the key's used bits make, inside the grid or not.
#[tactic(auto, using(crate::proofs::Turns::read_none))]
pub fn cell(grid: Extents, key: u64) -> Cell
    ensures { result ≡ cell_of grid key }
{
    let mut k = key;
    let mut x = 0u32;
    let mut y = 0u32;
    let mut z = 0u32;
    for i in 0..turns(grid) {
        x += axis::low_bit(grid.x, i, k);
        k = axis::rest_key(grid.x, i, k);
        y += axis::low_bit(grid.y, i, k);
        k = axis::rest_key(grid.y, i, k);
        z += axis::low_bit(grid.z, i, k);
        k = axis::rest_key(grid.z, i, k);
    }
    Cell { x, y, z }
}
