// The fragments of a manifest that was found sound.

ghost use Rattle.std.specs.Prelude.{◌≡◌, ◌≤◌};
ghost use Rattle.mesh_manifest.specs.sound.Verdict.{manifest_verdict};
ghost use Rattle.mesh_manifest.specs.nodes.Nodes.{fragments_length_of};
ghost use Rattle.lookup.specs.fragments.Fragment.{fragment_in};

use crate::id_search::LookupAnswer;
use mesh_manifest::nodes::inner::{fragments_length, has_node};

// The fragment of a node of the manifest that stands at `start` in the file, behind its fragments; 18 where there is no such node.
pub fn fragment_in(manifest: &[u8], start: usize, level: u32, node: u32) -> LookupAnswer
    requires { (manifest_verdict manifest.now ≡ 0) × (fragments_length_of manifest.now ≤ start) }
    ensures { result ≡ fragment_in manifest.now start level node }
{
    let l = level as usize;
    let i = node as usize;
    if !has_node(manifest, l, i) {
        return LookupAnswer::Refused(18);
    }
    let found = mesh_manifest::nodes::inner::node(manifest, l, i);
    let first = start - fragments_length(manifest) as usize;
    LookupAnswer::Found {
        start: first + found.start as usize,
        length: found.size as usize,
    }
}
