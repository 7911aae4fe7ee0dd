// A field by its kind.

ghost use Rattle.std.specs.Prelude.{◌≡◌, ◌+◌, ◌*◌, ◌≤◌, ◌<◌, T, length};
ghost use Rattle.mesh_manifest.specs.layout.Layout.{manifest_item, field_count};
ghost use Rattle.mesh_manifest.specs.layout.Bits.{finite_bits, real_at};
ghost use Rattle.mesh_manifest.specs.sound.Verdict.{manifest_verdict};
ghost use Rattle.mesh_manifest.specs.Fields.{field_at};

use crate::Field;
use crate::layout::{item, real_of};
use crate::sound::is_real;

pub fn real(s: &[u8], i: usize) -> f32
    requires { (4 * i + 4 ≤ length s.now) × T (finite_bits (manifest_item s.now i)) }
    ensures { result ≡ real_at s.now i }
{
    real_of(item(s, i))
}

// The item of that number, by its kind.
pub fn field(s: &[u8], i: usize) -> Field
    requires { (manifest_verdict s.now ≡ 0) × (i < field_count s.now) }
    ensures { result ≡ field_at s.now i }
{
    let levels = item(s, 6) as usize;
    if is_real(levels, i) {
        return Field::Real(real(s, i));
    }
    Field::Whole(item(s, i))
}
