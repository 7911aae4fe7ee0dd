// The nodes of a level as numbers, written at the front of lent ones.

ghost use Rattle.std.specs.Prelude.{◌≡◌, ◌+◌, ◌*◌, ◌≤◌, ◌<◌, length};
ghost use Rattle.endian.specs.Place.{paste};
ghost use Rattle.mesh_manifest.specs.layout.Layout.{levels_of, count_of, field_count};
ghost use Rattle.mesh_manifest.specs.node_numbers.Numbers.{node_from, numbers_of, numbers_from, nodes_of};

use crate::fragment_sums::bytes_before;
use crate::layout::nodes_before;
use crate::nodes::Node;
use crate::nodes::inner::node_in;

// The five numbers of a node.
fn put_node(out: &mut [u64], at: usize, node: Node)
    requires { at + 5 ≤ length out.old }
    ensures { out.new ≡ paste at (numbers_of node) out.old }
{
    out[at] = node.x as u64;
    out[at + 1] = node.y as u64;
    out[at + 2] = node.z as u64;
    out[at + 3] = node.start;
    out[at + 4] = node.size as u64;
}

// All n nodes of a level whose items begin at first, and whose fragments begin at start.
fn put_nodes(s: &[u8], first: usize, n: usize, start: u64, out: &mut [u64])
    requires { (4 * (first + 4 * n) ≤ length s.now) × (length s.now ≤ 16777216) × (start ≤ 18014398509481984) × (5 * n ≤ length out.old) }
    ensures { out.new ≡ paste 0 (numbers_from (node_from s.now first n start) 0 n) out.old }
{
    let mut at = start;
    for i in 0..n {
        let node = node_in(s, first, n, i, at);
        put_node(out, 5 * i, node);
        at += node.size as u64;
    }
}

// All n nodes of a level of a manifest with that many levels.
pub fn put_level(s: &[u8], levels: usize, level: usize, n: usize, out: &mut [u64])
    requires levels_value { (levels ≡ levels_of s.now) × (levels ≤ 32) × (level < levels) × (length s.now ≡ 4 * field_count s.now) × (length s.now ≤ 16777216) }
    requires n_value { (n ≡ count_of s.now level) × (5 * n ≤ length out.old) }
    ensures { out.new ≡ paste 0 (nodes_of s.now level) out.old }
{
    let first = 7 + 5 * levels + 4 * nodes_before(s, levels, level);
    let start = bytes_before(s, levels, level);
    put_nodes(s, first, n, start, out);
}
