// How many cells of a grid are marked, that is, share a voxel with the box, and whether as many keys fit.

ghost use Rattle.std.specs.Prelude.{◌≡◌, ◌*◌, ◌^◌, ◌<◌, ltb};
ghost use Rattle.cover.specs.overlap.Marked.{marked_width};

use crate::overlap::{Along, Part};

// How many cells are marked along an axis.
#[tactic(auto, using(crate::proofs::Ways::width_is))]
fn long(a: Along) -> u64
    ensures { (result ≡ marked_width a) × (result < 2 ^ 32) }
{
    u64::from(a.to.saturating_sub(a.from))
}

// How many cells are marked along x and y, and along z: their product is the number of keys.
#[tactic(auto, using(crate::proofs::Ways::ways))]
pub fn face(part: Part) -> u64
    ensures { result ≡ marked_width part.x * marked_width part.y }
{
    long(part.x) * long(part.y)
}

pub fn depth(part: Part) -> u64
    ensures { result ≡ marked_width part.z }
{
    long(part.z)
}

// a times b is above the room, whether it fits or not.
#[tactic(auto, using(crate::proofs::Ways::ways))]
pub fn exceeds(a: u64, b: u64, room: u64) -> bool
    ensures { result ≡ ltb room (a * b) }
{
    if b == 0 {
        return false;
    }
    room / b < a
}
