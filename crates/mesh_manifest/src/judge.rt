// What other crates ask of a manifest: the judge, and the header of one that the judge found sound.

ghost use Rattle.std.specs.Prelude.{◌≡◌};
ghost use Rattle.refusal.specs.Answers.{judged};
ghost use Rattle.mesh_manifest.specs.sound.Verdict.{manifest_verdict};
ghost use Rattle.mesh_manifest.specs.Fields.{header_at};

use crate::Header;
use crate::field_kinds::real;
use crate::layout::item;
use crate::sound::right_length;
use crate::tests::{nodes_rise, reals_fit};
use refusal::Refusal;

// The first of the refusals 15, 16 and 17 that holds, if one does.
pub fn judge(s: &[u8]) -> Result<(), Refusal>
    ensures { result ≡ judged (manifest_verdict s.now) }
{
    if !right_length(s) {
        return Err(Refusal::ManifestLength);
    }
    let levels = item(s, 6) as usize;
    if !reals_fit(s, levels) {
        return Err(Refusal::ManifestReal);
    }
    if !nodes_rise(s, levels) {
        return Err(Refusal::NodeOrder);
    }
    Ok(())
}

#[tactic(auto, using(crate::proofs::sound::Sounds::sound, crate::proofs::Asked::header_read))]
pub fn header(s: &[u8]) -> Header
    requires { manifest_verdict s.now ≡ 0 }
    ensures { result ≡ header_at s.now }
{
    let shape_x = real(s, 0);
    let shape_y = real(s, 1);
    let shape_z = real(s, 2);
    let origin_x = real(s, 3);
    let origin_y = real(s, 4);
    let origin_z = real(s, 5);
    Header {
        shape_x,
        shape_y,
        shape_z,
        origin_x,
        origin_y,
        origin_z,
    }
}
