// Test 15 of a manifest, its length; which of its items are reals.

ghost use Rattle.std.specs.Prelude.{◌≡◌, ◌≤◌};
ghost use Rattle.mesh_manifest.specs.layout.Layout.{is_real_of};
ghost use Rattle.mesh_manifest.specs.sound.Verdict.{right_length};

use crate::layout::{item, nodes_before};

// Refusal 15 does not hold.
#[tactic(auto, using(crate::proofs::sound::Ways::ways))]
pub fn right_length(s: &[u8]) -> bool
    ensures { result ≡ right_length s.now }
{
    if s.len() > 16777216 {
        return false;
    }
    if s.len() < 28 {
        return false;
    }
    let levels = item(s, 6) as usize;
    if levels > 32 {
        return false;
    }
    if s.len() < 28 + 20 * levels {
        return false;
    }
    s.len() == 28 + 20 * levels + 16 * nodes_before(s, levels, levels)
}

// Whether item i holds a real.
#[tactic(auto, using(crate::proofs::sound::Ways::ways))]
pub fn is_real(levels: usize, i: usize) -> bool
    requires { levels ≤ 32 }
    ensures { result ≡ is_real_of levels i }
{
    if i < 6 {
        return true;
    }
    if i < 7 {
        return false;
    }
    i < 7 + 4 * levels
}
