// Signed numbers as 32-bit numbers, by two's complement.

ghost use Rattle.std.specs.Prelude.{◌≡◌};
ghost use Rattle.card.specs.fields.Twos.{bits32, no_offset, signed32};

use morton::grid::Offset;

pub fn signed(v: u32) -> i32
    ensures { result ≡ signed32 v }
{
    if v < 2147483648 {
        v as i32
    } else {
        -1 - (4294967295 - v) as i32
    }
}

pub fn bits(z: i32) -> u32
    ensures { result ≡ bits32 z }
{
    if z < 0 {
        4294967295 - (-1 - z) as u32
    } else {
        z as u32
    }
}

// The offset is 0,0,0.
pub fn no_offset(o: Offset) -> bool
    ensures { result ≡ no_offset o }
{
    (o.x == 0) & ((o.y == 0) & (o.z == 0))
}
