// The names of chunks, written into lent buffers.
pub mod inner;

ghost use Rattle.std.specs.Prelude.{◌≡◌};
ghost use Rattle.names.specs.chunks.Chunks.{chunk_name_answer, chunk_name_left};

use morton::grid::{Cell, Volume};
use refusal::Refusal;

// The name of an unsharded chunk: refused with 2 or 13.
pub fn chunk_name(volume: Volume, cell: Cell, out: &mut [u8]) -> Result<usize, Refusal>
    ensures answer { result ≡ chunk_name_answer volume cell out.old }
    ensures out { out.new ≡ chunk_name_left volume cell out.old }
{
    let bounds = morton::bounds_of(volume, cell)?;
    inner::bounds_name(bounds, out)
}
