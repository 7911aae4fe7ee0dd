// The line of a cell, at a place that the caller has tested.

ghost use Rattle.std.specs.Prelude.{◌≡◌, true, ◌+◌, ◌≤◌, length};
ghost use Rattle.endian.specs.Place.{paste};
ghost use Rattle.sharding.specs.Specification.{allowed};
ghost use Rattle.morton.specs.spread.Spread.{Spreads};
ghost use Rattle.morton.specs.plan.Parts.{Planned};
ghost use Rattle.locate.specs.lines.Lines.{ending, refused_line, filed, keyed, line_in, line_room};

use endian;
use morton::grid::Cell;
use morton::plan::Plan;
use sharding::Sharding;
use sharding::placement::Place;

// A number that ends its line.
fn put_ending(out: &mut [u8], at: usize, v: u64) -> usize
    requires { at + length (ending v) ≤ length out.old }
    ensures value { result ≡ at + length (ending v) }
    ensures out_after { out.new ≡ paste at (ending v) out.old }
{
    let m = names::digits::put_decimal(out, at, v);
    endian::put_byte(out, m, b'\n');
    m + 1
}

// `refused `, as the number whose bytes it is, and the refusal's number.
pub fn put_refused(out: &mut [u8], at: usize, number: u8) -> usize
    requires { at + line_room ≤ length out.old }
    ensures value { (result ≡ at + length (refused_line number)) × (result ≤ at + line_room) }
    ensures out_after { out.new ≡ paste at (refused_line number) out.old }
{
    endian::put_u64(out, at, 0x2064_6573_7566_6572);
    put_ending(out, at + 8, number as u64)
}

fn put_filed(out: &mut [u8], at: usize, spec: Sharding, place: Place) -> usize
    requires { at + length (filed spec place) ≤ length out.old }
    ensures value { result ≡ at + length (filed spec place) }
    ensures out_after { out.new ≡ paste at (filed spec place) out.old }
{
    let m = names::writing::put_file_name(out, at, spec, place.shard, names::FileKind::Shard);
    endian::put_byte(out, m, b' ');
    put_ending(out, m + 1, place.minishard)
}

fn put_keyed(out: &mut [u8], at: usize, spec: Sharding, key: u64, place: Place) -> usize
    requires { at + length (keyed spec key place) ≤ length out.old }
    ensures value { result ≡ at + length (keyed spec key place) }
    ensures out_after { out.new ≡ paste at (keyed spec key place) out.old }
{
    let m = names::digits::put_decimal(out, at, key);
    endian::put_byte(out, m, b' ');
    put_filed(out, m + 1, spec, place)
}

// The line of a cell.
pub fn put_line(
    out: &mut [u8],
    at: usize,
    spec: Sharding,
    plan: Plan,
    table: &[u32],
    cell: Cell,
) -> usize
    requires { (allowed spec ≡ true) × Planned plan × Spreads table.now × (at + line_room ≤ length out.old) }
    ensures value { (result ≡ at + length (line_in spec plan.grid cell)) × (result ≤ at + line_room) }
    ensures out_after { out.new ≡ paste at (line_in spec plan.grid cell) out.old }
{
    if !morton::grid::inner::inside(plan.grid, cell) {
        return put_refused(out, at, 2);
    }
    let key = morton::table::key_by_table(plan, cell, table);
    let place = sharding::placement::inner::place(spec, key);
    put_keyed(out, at, spec, key, place)
}
