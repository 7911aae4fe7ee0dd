// Computed reals, and the ends of a node on one axis, in f32.

ghost use Rattle.std.specs.Prelude.{◌≡◌, ◌^◌, ◌<◌};
ghost use Rattle.mesh_manifest.specs.reals.Reals.{finite, power_of, near_of, far_of};

// A computed real is finite where it lies between the infinities; a NaN does not.
pub fn is_finite(x: f32) -> bool
    ensures { result ≡ finite x }
{
    if x < f32::from_bits(0x7f80_0000) {
        return x > f32::from_bits(0xff80_0000);
    }
    false
}

// 2^level, by its exponent field.
pub fn power(level: u32) -> f32
    requires { level < 32 }
    ensures { result ≡ power_of level }
{
    f32::from_bits((127 + level) * 8388608)
}

pub fn near(origin: f32, shape: f32, position: u32, level: u32) -> f32
    requires { (position < 2 ^ 24) × (level < 32) }
    ensures { result ≡ near_of origin shape position level }
{
    origin + (position as f32) * shape * power(level)
}

pub fn far(near: f32, shape: f32, level: u32) -> f32
    requires { level < 32 }
    ensures { result ≡ far_of near shape level }
{
    near + shape * power(level)
}
