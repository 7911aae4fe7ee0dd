// Volumes, cells and keys.

ghost use Rattle.std.specs.Prelude.{◌≡◌, [], ◌∷◌};
ghost use Rattle.morton.specs.grid.Answers.{grid_answer, grid_result};
ghost use Rattle.morton.specs.Answers.{key_answer, cell_answer, cell_result, key_result};
ghost use Rattle.morton.specs.bounds.Answers.{bounds_answer, bounds_result};
ghost use Rattle.morton.specs.batch.Batch.{cells_of, keys_answer, keys_left};
ghost use Rattle.morton.specs.rows.Row.{row_of};
ghost use Rattle.cover.specs.overlap.Cover.{cover_answer, cover_left};
ghost use Rattle.refusal.specs.Result.{written_result};
ghost use Rattle.coronagamba.specs.word.Word.{length_after, word_of};
ghost use Rattle.coronagamba.specs.Cells.{grid_after, key_after, cell_after, begin_after, end_after};

use crate::answers::put_length;
use morton::bounds::Point;
use morton::grid::{Cell, Volume};

// How many cells the volume has. Writes the numbers along x, y and z to `grid`.
// Refusals: 2 where an extent is 0
pub fn coronagamba_grid_of(volume: Volume, grid: &mut [u32; 3]) -> u64
    ensures answer { result ≡ word_of (grid_result (grid_answer volume)) }
    ensures grid { grid.new ≡ grid_after (grid_answer volume) grid.old }
{
    match morton::grid_of(volume) {
        Ok(g) => {
            *grid = [g.x, g.y, g.z];
            0
        }
        Err(refusal) => refusal.number() as u64,
    }
}

// The key of a cell: its compressed Morton code. Writes it to `key`.
// Refusals: 2, 3
pub fn coronagamba_key_of(volume: Volume, cell: Cell, key: &mut u64) -> u64
    ensures answer { result ≡ word_of (key_result (key_answer volume cell)) }
    ensures key { key.new ≡ key_after (key_answer volume cell) key.old }
{
    match morton::key_of(volume, cell) {
        Ok(k) => {
            *key = k;
            0
        }
        Err(refusal) => refusal.number() as u64,
    }
}

// The keys of many cells, in their order. `cells` holds x, y and z of each cell in turn, three
// numbers for a cell; one or two left over are no cell. Writes the keys to the front of `keys`, and
// their number to `length`. The volume is judged also where there is no cell.
// Refusals: 2 where an extent is 0 or any cell is outside the grid, 3, 13 where `keys` has room for
// fewer
pub fn coronagamba_keys_of(volume: Volume, cells: &[u32], keys: &mut [u64], length: &mut u64) -> u64
    ensures answer { result ≡ word_of (written_result (keys_answer volume (cells_of cells.now) keys.old)) }
    ensures keys { keys.new ≡ keys_left volume (cells_of cells.now) keys.old }
    ensures length { length.new ≡ length_after (keys_answer volume (cells_of cells.now) keys.old) length.old }
{
    let answer = morton::keys_of(volume, cells, keys);
    put_length(answer, length)
}

// The keys of a row of cells: x rises from `from` up to `to`, that end excluded, at one `y` and `z`. A
// row whose end is not past its begin has no cell. Writes the keys to the front of `keys`, and their
// number to `length`. The volume is judged also where there is no cell.
// Refusals: 2 where an extent is 0 or any cell is outside the grid, 3, 13 where `keys` has room for
// fewer
pub fn coronagamba_row_keys(
    volume: Volume,
    from: u32,
    to: u32,
    y: u32,
    z: u32,
    keys: &mut [u64],
    length: &mut u64,
) -> u64
    ensures answer { result ≡ word_of (written_result (keys_answer volume (row_of from to y z) keys.old)) }
    ensures keys { keys.new ≡ keys_left volume (row_of from to y z) keys.old }
    ensures length { length.new ≡ length_after (keys_answer volume (row_of from to y z) keys.old) length.old }
{
    let answer = morton::row_keys(volume, from, to, y, z, keys);
    put_length(answer, length)
}

// The chunks that cover a box: the keys of all cells that share a voxel with it, rising, each once.
// The box begins at `lower` and ends at `upper`, that end excluded along each axis, in voxels, the
// volume's offset included. An empty or reversed box, and one outside the volume, has none. Writes
// the keys to the front of `keys`, and their number to `length`. Takes time by the keys that it
// writes and their bits, whatever the box and the grid.
// Refusals: 2 where an extent is 0, 3, 13 where `keys` has room for fewer
pub fn coronagamba_cover(
    volume: Volume,
    lower: Point,
    upper: Point,
    keys: &mut [u64],
    length: &mut u64,
) -> u64
    ensures answer { result ≡ word_of (written_result (cover_answer volume lower upper keys.old)) }
    ensures keys { keys.new ≡ cover_left volume lower upper keys.old }
    ensures length { length.new ≡ length_after (cover_answer volume lower upper keys.old) length.old }
{
    let answer = cover::cover(volume, lower, upper, keys);
    put_length(answer, length)
}

// The cell of a key. Writes its x, y and z to `cell`.
// Refusals: 2 where an extent is 0, 3, 4
pub fn coronagamba_cell_of(volume: Volume, key: u64, cell: &mut [u32; 3]) -> u64
    ensures answer { result ≡ word_of (cell_result (cell_answer volume key)) }
    ensures cell { cell.new ≡ cell_after (cell_answer volume key) cell.old }
{
    match morton::cell_of(volume, key) {
        Ok(c) => {
            *cell = [c.x, c.y, c.z];
            0
        }
        Err(refusal) => refusal.number() as u64,
    }
}

fn three(p: Point) -> [i64; 3]
    ensures { result ≡ p.x ∷ p.y ∷ p.z ∷ [] }
{
    [p.x, p.y, p.z]
}

// Where a cell lies, in voxels, the volume's offset included. Writes where it begins along x, y and
// z to `begin` and where it ends, that voxel excluded, to `end`.
// Refusals: 2
pub fn coronagamba_bounds_of(
    volume: Volume,
    cell: Cell,
    begin: &mut [i64; 3],
    end: &mut [i64; 3],
) -> u64
    ensures answer { result ≡ word_of (bounds_result (bounds_answer volume cell)) }
    ensures begin { begin.new ≡ begin_after (bounds_answer volume cell) begin.old }
    ensures end { end.new ≡ end_after (bounds_answer volume cell) end.old }
{
    match morton::bounds_of(volume, cell) {
        Ok(bounds) => {
            *begin = three(bounds.begin);
            *end = three(bounds.end);
            0
        }
        Err(refusal) => refusal.number() as u64,
    }
}
