// The two corners of a node, by the header and the level.

ghost use Rattle.std.specs.Prelude.{◌≡◌, true, ◌<◌};
ghost use Rattle.mesh_manifest.specs.corners.Boxes.{near_corner, far_corner, placed, finite_corner, box_answer};

use crate::Header;
use crate::corners::{Corner, Corners};
use crate::nodes::Node;
use crate::reals::{far, is_finite, near};
use refusal::Refusal;

// Each position is below 2^24.
fn is_placed(n: Node) -> bool
    ensures { result ≡ placed n }
{
    if n.x >= 16777216 {
        return false;
    }
    if n.y >= 16777216 {
        return false;
    }
    n.z < 16777216
}

fn near_corner(h: Header, level: u32, n: Node) -> Corner
    requires { (placed n ≡ true) × (level < 32) }
    ensures { result ≡ near_corner h level n }
{
    let x = near(h.origin_x, h.shape_x, n.x, level);
    let y = near(h.origin_y, h.shape_y, n.y, level);
    let z = near(h.origin_z, h.shape_z, n.z, level);
    Corner { x, y, z }
}

fn far_corner(h: Header, level: u32, near: Corner) -> Corner
    requires { level < 32 }
    ensures { result ≡ far_corner h level near }
{
    let x = far(near.x, h.shape_x, level);
    let y = far(near.y, h.shape_y, level);
    let z = far(near.z, h.shape_z, level);
    Corner { x, y, z }
}

fn is_finite_corner(c: Corner) -> bool
    ensures { result ≡ finite_corner c }
{
    if !is_finite(c.x) {
        return false;
    }
    if !is_finite(c.y) {
        return false;
    }
    is_finite(c.z)
}

// The corners of a node of that level, or 18.
pub fn corners_in(h: Header, level: u32, n: Node) -> Result<Corners, Refusal>
    requires { level < 32 }
    ensures { result ≡ box_answer h level n }
{
    if !is_placed(n) {
        return Err(Refusal::NoSuchNode);
    }
    let near = near_corner(h, level, n);
    if !is_finite_corner(near) {
        return Err(Refusal::NoSuchNode);
    }
    let far = far_corner(h, level, near);
    if !is_finite_corner(far) {
        return Err(Refusal::NoSuchNode);
    }
    Ok(Corners { near, far })
}
