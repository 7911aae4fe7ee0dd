// The grid of a volume, or 2.

ghost use Rattle.std.specs.Prelude.{◌≡◌};
ghost use Rattle.morton.specs.grid.Answers.{grid_answer};

use crate::grid::{Extents, Volume, inner};
use refusal::Refusal;

// How many cells the volume has along each axis, or 2 where an extent is 0.
pub fn grid_of(volume: Volume) -> Result<Extents, Refusal>
    ensures answer { result ≡ grid_answer volume }
{
    if inner::zero_extent(volume) {
        return Err(Refusal::NoSuchCell);
    }
    Ok(inner::grid(volume))
}
