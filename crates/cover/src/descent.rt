// The search by halves: the keys of a box of cells, and of the marked cells of a grid.
mod marked;

ghost use Rattle.std.specs.Prelude.{◌≡◌, ◌+◌, ◌^◌, ◌≤◌, length};
ghost use Rattle.endian.specs.Place.{paste};
ghost use Rattle.morton.specs.Key.{key_bits_of};
ghost use Rattle.cover.specs.overlap.Marked.{Sized, Framed, part_keys};
ghost use Rattle.cover.specs.halves.Box.{counting, box_keys, InHalf};

use crate::halves::{cut_box, full, halve};
use crate::overlap::Part;
use morton::grid::{Cell, Extents};
use morton::steps::{key, key_bits};

// n keys one after the other, and where they end.
#[tactic(auto, using(crate::proofs::descent::Counts::count_first, crate::proofs::descent::Counts::count_next, crate::proofs::descent::Counts::count_past))]
fn put_keys(out: &mut [u64], at: usize, first: u64, n: usize) -> usize
    requires { (at + n ≤ length out.old) × (first + n ≤ 2 ^ 64) }
    ensures next { result ≡ at + n }
    ensures out { out.new ≡ paste at (counting first n) out.old }
{
    for i in 0..n {
        out[at + i] = first + i as u64;
    }
    at + n
}

// The keys of the box from low to high into `out` from `at` on, rising, and where they end. The box lies in the part of the grid that
// has `bits` key bits left and begins at `first`. The highest of them splits that part in two; each half is tested and, unless it
// misses the box, searched again with one bit fewer. A half that lies in the box whole is counted through.
fn descend(
    x: u64,
    y: u64,
    z: u64,
    low: u64,
    high: u64,
    first: u64,
    bits: u32,
    out: &mut [u64],
    at: usize,
) -> usize
    requires { InHalf x y z low high first bits × (at + length (box_keys x y z low high) ≤ length out.old) }
    ensures next { result ≡ at + length (box_keys x y z low high) }
    ensures out { out.new ≡ paste at (box_keys x y z low high) out.old }
{
    if bits == 0 {
        return put_keys(out, at, low, 1);
    }
    let left = bits - 1;
    if full(low, high, left) {
        return put_keys(out, at, low, (high - low) as usize + 1);
    }
    let halves = halve(first, left, low, high);
    let lower = halves.lower;
    let upper = halves.upper;
    if lower.misses {
        return descend(x, y, z, low, high, upper.first, left, out, at);
    }
    if upper.misses {
        return descend(x, y, z, low, high, lower.first, left, out, at);
    }
    let parts = cut_box(x, y, z, low, high, left);
    let next = descend(x, y, z, low, parts.last, lower.first, left, out, at);
    descend(x, y, z, parts.first, high, upper.first, left, out, next)
}

// The keys of the marked cells of the whole grid, rising, and how many there are.
pub fn search(grid: Extents, whole: Part, out: &mut [u64]) -> usize
    requires { Framed grid whole × Sized whole × (key_bits_of grid ≤ 64) × (length (part_keys whole 0) ≤ length out.old) }
    ensures count { result ≡ length (part_keys whole 0) }
    ensures out { out.new ≡ paste 0 (part_keys whole 0) out.old }
{
    if marked::misses(whole) {
        return 0;
    }
    // A cell with all bits of one coordinate, and none of the others, has the bits of that axis.
    let x = key(
        grid,
        Cell {
            x: u32::MAX,
            y: 0,
            z: 0,
        },
    );
    let y = key(
        grid,
        Cell {
            x: 0,
            y: u32::MAX,
            z: 0,
        },
    );
    let z = key(
        grid,
        Cell {
            x: 0,
            y: 0,
            z: u32::MAX,
        },
    );
    let low = key(grid, marked::first(whole));
    let high = key(grid, marked::last(whole));
    descend(x, y, z, low, high, 0, key_bits(grid), out, 0)
}
