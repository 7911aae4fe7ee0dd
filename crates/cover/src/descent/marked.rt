// The marked cells of a grid, those that share a voxel with the box: the first and the last of them, if any.

ghost use Rattle.std.specs.Prelude.{◌≡◌, false};
ghost use Rattle.cover.specs.overlap.Marked.{missed, first_cell, last_cell};

use crate::overlap::Part;
use morton::grid::Cell;

// No cell is marked.
#[tactic(auto, using(crate::proofs::descent::Ways::ways))]
pub fn misses(part: Part) -> bool
    ensures { result ≡ missed part }
{
    let x = part.x;
    let y = part.y;
    let z = part.z;
    if x.to <= x.from {
        return true;
    }
    if y.to <= y.from {
        return true;
    }
    z.to <= z.from
}

// The first and the last of the marked cells along each axis.
pub fn first(part: Part) -> Cell
    ensures { result ≡ first_cell part }
{
    let x = part.x;
    let y = part.y;
    let z = part.z;
    Cell {
        x: x.from,
        y: y.from,
        z: z.from,
    }
}

#[tactic(auto, using(crate::proofs::descent::Ways::ways))]
pub fn last(part: Part) -> Cell
    requires { missed part ≡ false }
    ensures { result ≡ last_cell part }
{
    let x = part.x;
    let y = part.y;
    let z = part.z;
    Cell {
        x: x.to - 1,
        y: y.to - 1,
        z: z.to - 1,
    }
}
