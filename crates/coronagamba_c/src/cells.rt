// Volumes, cells and keys.
// Made by ./interface: change crates/coronagamba, then run it.

ghost use Rattle.std.specs.Prelude.{◌≡◌};
ghost use Rattle.morton.specs.grid.Answers.{grid_answer, grid_result};
ghost use Rattle.morton.specs.Answers.{key_answer, cell_answer, cell_result, key_result};
ghost use Rattle.morton.specs.bounds.Answers.{bounds_answer, bounds_result};
ghost use Rattle.morton.specs.batch.Batch.{cells_of, keys_answer, keys_left};
ghost use Rattle.morton.specs.rows.Row.{row_of};
ghost use Rattle.cover.specs.overlap.Cover.{cover_answer, cover_left};
ghost use Rattle.refusal.specs.Result.{written_result};
ghost use Rattle.coronagamba.specs.word.Word.{length_after, word_of};
ghost use Rattle.coronagamba.specs.Cells.{grid_after, key_after, cell_after, begin_after, end_after};

use morton::bounds::Point;
use morton::grid::{Cell, Volume};

#[unsafe(no_mangle)]
pub extern "C" fn coronagamba_grid_of(volume: Volume, grid: &mut [u32; 3]) -> u64
    ensures answer { result ≡ word_of (grid_result (grid_answer volume)) }
    ensures grid { grid.new ≡ grid_after (grid_answer volume) grid.old }
{
    coronagamba::cells::coronagamba_grid_of(volume, grid)
}

#[unsafe(no_mangle)]
pub extern "C" fn coronagamba_key_of(volume: Volume, cell: Cell, key: &mut u64) -> u64
    ensures answer { result ≡ word_of (key_result (key_answer volume cell)) }
    ensures key { key.new ≡ key_after (key_answer volume cell) key.old }
{
    coronagamba::cells::coronagamba_key_of(volume, cell, key)
}

#[unsafe(no_mangle)]
pub extern "C" fn coronagamba_keys_of(
    volume: Volume,
    cells: &[u32],
    keys: &mut [u64],
    length: &mut u64,
) -> u64
    ensures answer { result ≡ word_of (written_result (keys_answer volume (cells_of cells.now) keys.old)) }
    ensures keys { keys.new ≡ keys_left volume (cells_of cells.now) keys.old }
    ensures length { length.new ≡ length_after (keys_answer volume (cells_of cells.now) keys.old) length.old }
{
    coronagamba::cells::coronagamba_keys_of(volume, cells, keys, length)
}

#[unsafe(no_mangle)]
pub extern "C" fn coronagamba_row_keys(
    volume: Volume,
    from: u32,
    to: u32,
    y: u32,
    z: u32,
    keys: &mut [u64],
    length: &mut u64,
) -> u64
    ensures answer { result ≡ word_of (written_result (keys_answer volume (row_of from to y z) keys.old)) }
    ensures keys { keys.new ≡ keys_left volume (row_of from to y z) keys.old }
    ensures length { length.new ≡ length_after (keys_answer volume (row_of from to y z) keys.old) length.old }
{
    coronagamba::cells::coronagamba_row_keys(volume, from, to, y, z, keys, length)
}

#[unsafe(no_mangle)]
pub extern "C" fn coronagamba_cover(
    volume: Volume,
    lower: Point,
    upper: Point,
    keys: &mut [u64],
    length: &mut u64,
) -> u64
    ensures answer { result ≡ word_of (written_result (cover_answer volume lower upper keys.old)) }
    ensures keys { keys.new ≡ cover_left volume lower upper keys.old }
    ensures length { length.new ≡ length_after (cover_answer volume lower upper keys.old) length.old }
{
    coronagamba::cells::coronagamba_cover(volume, lower, upper, keys, length)
}

#[unsafe(no_mangle)]
pub extern "C" fn coronagamba_cell_of(volume: Volume, key: u64, cell: &mut [u32; 3]) -> u64
    ensures answer { result ≡ word_of (cell_result (cell_answer volume key)) }
    ensures cell { cell.new ≡ cell_after (cell_answer volume key) cell.old }
{
    coronagamba::cells::coronagamba_cell_of(volume, key, cell)
}

#[unsafe(no_mangle)]
pub extern "C" fn coronagamba_bounds_of(
    volume: Volume,
    cell: Cell,
    begin: &mut [i64; 3],
    end: &mut [i64; 3],
) -> u64
    ensures answer { result ≡ word_of (bounds_result (bounds_answer volume cell)) }
    ensures begin { begin.new ≡ begin_after (bounds_answer volume cell) begin.old }
    ensures end { end.new ≡ end_after (bounds_answer volume cell) end.old }
{
    coronagamba::cells::coronagamba_bounds_of(volume, cell, begin, end)
}
