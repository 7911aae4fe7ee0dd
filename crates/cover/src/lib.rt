// Which chunks cover a box of voxels.
#![tactic(auto)]

pub mod descent;
pub mod halves;
mod marked_count;
pub mod overlap;

ghost use Rattle.std.specs.Prelude.{◌≡◌};
ghost use Rattle.cover.specs.overlap.Cover.{cover_answer, cover_left};

use crate::descent::search;
use crate::overlap::spans;
use morton::bounds::Point;
use morton::grid::Volume;
use refusal::Refusal;

// The keys of all cells that share a voxel with the box from `lower` up to `upper`, rising, into `out`, and how many:
// 2 where an extent is 0, 3 where the grid needs more than 64 key bits, 13 where the keys do not fit.
pub fn cover(volume: Volume, lower: Point, upper: Point, out: &mut [u64]) -> Result<usize, Refusal>
    ensures answer { result ≡ cover_answer volume lower upper out.old }
    ensures out { out.new ≡ cover_left volume lower upper out.old }
{
    if morton::grid::inner::zero_extent(volume) {
        return Err(Refusal::NoSuchCell);
    }
    if 64 < morton::steps::volume_key_bits(volume) {
        return Err(Refusal::TooManyKeyBits);
    }
    let whole = spans::whole(volume, lower, upper);
    let face = marked_count::face(whole);
    let deep = marked_count::depth(whole);
    if marked_count::exceeds(face, deep, out.len() as u64) {
        return Err(Refusal::NoRoom);
    }
    Ok(search(morton::grid::inner::grid(volume), whole, out))
}
