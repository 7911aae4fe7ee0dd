// What is printed for a block of cells.

ghost use Rattle.std.specs.Prelude.{◌≡◌, true, ◌+◌, ◌*◌, ◌/◌, ◌≤◌, length};
ghost use Rattle.endian.specs.Place.{paste};
ghost use Rattle.morton.specs.grid.Grid.{grid_of};
ghost use Rattle.morton.specs.Key.{key_bits_of};
ghost use Rattle.sharding.specs.Specification.{allowed};
ghost use Rattle.card.specs.Answers.{fault};
ghost use Rattle.locate.specs.lines.Lines.{line_in, line_room};
ghost use Rattle.locate.specs.text.Output.{cut_line, text_by, cells_text};

use card::Card;
use morton::grid::Extents;
use sharding::Sharding;

// `cut` and the line's end, as the number whose bytes they are.
fn put_cut(out: &mut [u8], at: usize) -> usize
    requires { at + 4 ≤ length out.old }
    ensures value { result ≡ at + 4 }
    ensures out_after { out.new ≡ paste at cut_line out.old }
{
    endian::put_u32(out, at, 0x0a74_7563);
    at + 4
}

// The lines of all whole cells, and `cut` where bytes are left over.
fn put_text(out: &mut [u8], spec: Sharding, grid: Extents, cells: &[u8]) -> usize
    requires { (allowed spec ≡ true) × (key_bits_of grid ≤ 64) × (line_room * (length cells.now / 12) + 4 ≤ length out.old) }
    ensures value { (result ≡ length (text_by (line_in spec grid) cells.now)) × (result ≤ line_room * (length cells.now / 12) + 4) }
    ensures out_after { out.new ≡ paste 0 (text_by (line_in spec grid) cells.now) out.old }
{
    let m = crate::lines::cells::put_lines(out, spec, grid, cells, cells.len() / 12);
    if cells.len() % 12 == 0 {
        return m;
    }
    put_cut(out, m)
}

// The grid of a card that was judged.
pub fn grid_of(card: Card) -> Extents
    requires { fault card ≡ 0 }
    ensures { result ≡ grid_of card.volume }
{
    let volume = card.volume;
    morton::grid::inner::grid(volume)
}

// What is printed for cells of a card that was judged, at the front of a buffer.
pub fn cells_text(out: &mut [u8], card: Card, grid: Extents, cells: &[u8]) -> usize
    requires { (fault card ≡ 0) × (grid ≡ grid_of card.volume) × (line_room * (length cells.now / 12) + 4 ≤ length out.old) }
    ensures value { (result ≡ length (cells_text card cells.now)) × (result ≤ length out.new) }
    ensures out_after { out.new ≡ paste 0 (cells_text card cells.now) out.old }
{
    let sharding = card.sharding;
    put_text(out, sharding, grid, cells)
}
