// The lines of cells that stand one after the other, at the front of a buffer.

ghost use Rattle.std.specs.Prelude.{◌≡◌, true, ◌+◌, ◌*◌, ◌≤◌, length};
ghost use Rattle.endian.specs.Place.{paste};
ghost use Rattle.morton.specs.Key.{key_bits_of};
ghost use Rattle.sharding.specs.Specification.{allowed};
ghost use Rattle.morton.specs.spread.Spread.{Spreads};
ghost use Rattle.morton.specs.plan.Parts.{Planned};
ghost use Rattle.locate.specs.lines.Lines.{line_in, line_room};
ghost use Rattle.locate.specs.lines.Cells.{cell_at, lines_by};

use crate::lines::line;
use endian;
use morton::grid::{Cell, Extents};
use morton::plan::Plan;
use sharding::Sharding;

fn cell_at(s: &[u8], at: usize) -> Cell
    requires { at + 12 ≤ length s.now }
    ensures { result ≡ cell_at s.now at }
{
    Cell {
        x: endian::read_u32(s, at),
        y: endian::read_u32(s, at + 4),
        z: endian::read_u32(s, at + 8),
    }
}

// The lines of the first n cells, by what their keys share: the grid's plan and the table.
fn put_planned(
    out: &mut [u8],
    spec: Sharding,
    plan: Plan,
    table: &[u32],
    cells: &[u8],
    n: usize,
) -> usize
    requires { (allowed spec ≡ true) × Planned plan × Spreads table.now × (12 * n ≤ length cells.now) × (line_room * n ≤ length out.old) }
    ensures value { (result ≡ length (lines_by (line_in spec plan.grid) n cells.now 0)) × (result ≤ line_room * n) }
    ensures out_after { out.new ≡ paste 0 (lines_by (line_in spec plan.grid) n cells.now 0) out.old }
{
    let mut at: usize = 0;
    for i in 0..n {
        at = line::put_line(out, at, spec, plan, table, cell_at(cells, 12 * i));
    }
    at
}

// The same. The plan is found here and the table made, once for all of them.
pub fn put_lines(out: &mut [u8], spec: Sharding, grid: Extents, cells: &[u8], n: usize) -> usize
    requires { (allowed spec ≡ true) × (key_bits_of grid ≤ 64) × (12 * n ≤ length cells.now) × (line_room * n ≤ length out.old) }
    ensures value { (result ≡ length (lines_by (line_in spec grid) n cells.now 0)) × (result ≤ line_room * n) }
    ensures out_after { out.new ≡ paste 0 (lines_by (line_in spec grid) n cells.now 0) out.old }
{
    let table = morton::spread::table::spread_bytes();
    put_planned(out, spec, morton::plan::inner::plan(grid), &table, cells, n)
}
