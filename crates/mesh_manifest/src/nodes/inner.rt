// One node of a manifest that the judge found sound.

ghost use Rattle.std.specs.Prelude.{◌≡◌, true, ◌+◌, ◌*◌, ◌≤◌, ◌<◌, length};
ghost use Rattle.mesh_manifest.specs.sound.Verdict.{manifest_verdict};
ghost use Rattle.mesh_manifest.specs.nodes.Nodes.{fragments_length_of, has_node, node_in, node_at};

use crate::fragment_sums::{bytes_before, sizes};
use crate::layout::{count, item, nodes_before};
use crate::nodes::Node;

// Node i of a level with n nodes whose items begin at first; its own fragment begins at start.
pub fn node_in(s: &[u8], first: usize, n: usize, i: usize, start: u64) -> Node
    requires { (4 * (first + 4 * n) ≤ length s.now) × (i < n) }
    ensures { result ≡ node_in s.now first n i start }
{
    let x = item(s, first + i);
    let y = item(s, first + n + i);
    let z = item(s, first + 2 * n + i);
    let size = item(s, first + 3 * n + i);
    Node {
        x,
        y,
        z,
        start,
        size,
    }
}

// How many bytes all fragments have together.
#[tactic(auto, using(crate::proofs::nodes::Levels::sound))]
pub fn fragments_length(s: &[u8]) -> u64
    requires { manifest_verdict s.now ≡ 0 }
    ensures { result ≡ fragments_length_of s.now }
{
    let levels = item(s, 6) as usize;
    bytes_before(s, levels, levels)
}

#[tactic(auto, using(crate::proofs::nodes::Levels::sound, crate::proofs::nodes::Asked::asked))]
pub fn has_node(s: &[u8], level: usize, node: usize) -> bool
    requires { manifest_verdict s.now ≡ 0 }
    ensures { result ≡ has_node s.now level node }
{
    let levels = item(s, 6) as usize;
    if level >= levels {
        return false;
    }
    node < count(s, levels, level)
}

#[tactic(auto, using(crate::proofs::nodes::Levels::sound, crate::proofs::nodes::Asked::node_made))]
pub fn node(s: &[u8], level: usize, node: usize) -> Node
    requires { (manifest_verdict s.now ≡ 0) × (has_node s.now level node ≡ true) }
    ensures { result ≡ node_at s.now level node }
{
    let levels = item(s, 6) as usize;
    let n = count(s, levels, level);
    let first = 7 + 5 * levels + 4 * nodes_before(s, levels, level);
    let start = bytes_before(s, levels, level) + sizes(s, first, n, node);
    node_in(s, first, n, node, start)
}
