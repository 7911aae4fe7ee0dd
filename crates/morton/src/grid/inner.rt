// What other crates ask of a volume or a grid that they have tested.

ghost use Rattle.std.specs.Prelude.{◌≡◌, false, ◌<◌};
ghost use Rattle.morton.specs.grid.Grid.{grid_size, grid_of, has_zero, zero_extent, in_grid};

use crate::grid::{Cell, Extents, Volume};

// An extent is 0.
pub fn has_zero(e: Extents) -> bool
    ensures { result ≡ has_zero e }
{
    if e.x == 0 {
        return true;
    }
    if e.y == 0 {
        return true;
    }
    e.z == 0
}

// A volume or chunk extent is 0.
pub fn zero_extent(volume: Volume) -> bool
    ensures { result ≡ zero_extent volume }
{
    let size = volume.size;
    let chunk = volume.chunk;
    if has_zero(size) {
        return true;
    }
    has_zero(chunk)
}

// An extent in chunks, rounded up.
#[tactic(auto, using(crate::proofs::grid::Covers::grid_size_up))]
pub fn grid_size(extent: u32, chunk: u32) -> u32
    requires { 0 < chunk }
    ensures { result ≡ grid_size extent chunk }
{
    extent.div_ceil(chunk)
}

// How many cells the volume has along each axis.
pub fn grid(volume: Volume) -> Extents
    requires { zero_extent volume ≡ false }
    ensures { result ≡ grid_of volume }
{
    let size = volume.size;
    let chunk = volume.chunk;
    Extents {
        x: grid_size(size.x, chunk.x),
        y: grid_size(size.y, chunk.y),
        z: grid_size(size.z, chunk.z),
    }
}

// The cell is one of the grid's.
pub fn inside(grid: Extents, cell: Cell) -> bool
    ensures { result ≡ in_grid grid cell }
{
    if grid.x <= cell.x {
        return false;
    }
    if grid.y <= cell.y {
        return false;
    }
    cell.z < grid.z
}
