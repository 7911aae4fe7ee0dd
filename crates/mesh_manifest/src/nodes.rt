// The nodes of a manifest, one by one, and their fragments.
pub mod inner;

ghost use Rattle.std.specs.Prelude.{◌≡◌};
ghost use Rattle.mesh_manifest.specs.nodes.Nodes.{node_answer};

use refusal::Refusal;

// A node's position, and its fragment: the bytes from start up to start + size of the fragment data.
#[derive(Clone, Copy)]
pub struct Node {
    pub x: u32,
    pub y: u32,
    pub z: u32,
    pub start: u64,
    pub size: u32,
}

// A node of a level, both counted from 0; 18 where there is none.
pub fn node_of(bytes: &[u8], level: u32, node: u32) -> Result<Node, Refusal>
    ensures answer { result ≡ node_answer bytes.now level node }
{
    crate::judge::judge(bytes)?;
    if !inner::has_node(bytes, level as usize, node as usize) {
        return Err(Refusal::NoSuchNode);
    }
    Ok(inner::node(bytes, level as usize, node as usize))
}
