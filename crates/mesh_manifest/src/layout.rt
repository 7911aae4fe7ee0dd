// Where the items of a manifest stand, and which patterns are reals.

ghost use Rattle.std.specs.Prelude.{◌≡◌, ◌+◌, ◌*◌, ◌≤◌, ◌<◌, T, length};
ghost use Rattle.std.specs.Float.{binary32};
ghost use Rattle.std.specs.Float.Ieee.{of_bits};
ghost use Rattle.mesh_manifest.specs.layout.Layout.{manifest_item, levels_of, count_of, nodes_before};
ghost use Rattle.mesh_manifest.specs.layout.Bits.{finite_bits, above_zero};

// Item i, counted from 0 in file order.
pub fn item(s: &[u8], i: usize) -> u32
    requires { 4 * i + 4 ≤ length s.now }
    ensures { (result ≡ manifest_item s.now i) × (result < 4294967296) }
{
    endian::read_u32(s, 4 * i)
}

// How many nodes a level has, of a manifest with that many levels.
pub fn count(s: &[u8], levels: usize, level: usize) -> usize
    requires { (levels ≡ levels_of s.now) × (level < levels) × (28 + 20 * levels ≤ length s.now) }
    ensures { (result ≡ count_of s.now level) × (result < 4294967296) }
{
    item(s, 7 + 4 * levels + level) as usize
}

// How many nodes the levels before `level` have together.
#[tactic(auto, using(crate::proofs::layout::Loops::loops))]
pub fn nodes_before(s: &[u8], levels: usize, level: usize) -> usize
    requires { (levels ≡ levels_of s.now) × (levels ≤ 32) × (level ≤ levels) × (28 + 20 * levels ≤ length s.now) }
    ensures { (result ≡ nodes_before s.now level) × (result ≤ 137438953472) }
{
    let mut total: usize = 0;
    for l in 0..level {
        total += count(s, levels, l);
    }
    total
}

pub fn finite_bits(b: u32) -> bool
    ensures { result ≡ finite_bits b }
{
    b / 8388608 % 256 != 255
}

pub fn above_zero(b: u32) -> bool
    ensures { result ≡ above_zero b }
{
    if b > 0 {
        return b < 2147483648;
    }
    false
}

// The real of a finite pattern.
pub fn real_of(b: u32) -> f32
    requires { T (finite_bits b) }
    ensures { result ≡ of_bits binary32 b }
{
    f32::from_bits(b)
}
