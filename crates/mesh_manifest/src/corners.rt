// The corners of a node of a manifest, in f32.
mod boxes;

ghost use Rattle.std.specs.Prelude.{◌≡◌};
ghost use Rattle.mesh_manifest.specs.corners.Boxes.{corners_answer};

use refusal::Refusal;

#[derive(Clone, Copy)]
pub struct Corner {
    pub x: f32,
    pub y: f32,
    pub z: f32,
}

#[derive(Clone, Copy)]
pub struct Corners {
    pub near: Corner,
    pub far: Corner,
}

// The corners of a node; 18 also where a position is 2^24 or more, or a corner is not finite.
pub fn corners_of(bytes: &[u8], level: u32, node: u32) -> Result<Corners, Refusal>
    ensures answer { result ≡ corners_answer bytes.now level node }
{
    crate::judge::judge(bytes)?;
    if !crate::nodes::inner::has_node(bytes, level as usize, node as usize) {
        return Err(Refusal::NoSuchNode);
    }
    let at = crate::nodes::inner::node(bytes, level as usize, node as usize);
    boxes::corners_in(crate::judge::header(bytes), level, at)
}
