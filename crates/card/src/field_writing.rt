// Writing the fields that each deposit card has.

ghost use Rattle.std.specs.Prelude.{◌≡◌, ◌+◌, ◌≤◌, length};
ghost use Rattle.endian.specs.Place.{paste};
ghost use Rattle.card.specs.Layout.{head, one_byte, three, sharding_bytes, extents_bytes};

use endian;
use morton::grid::Extents;
use sharding::Sharding;

pub fn put_head(out: &mut [u8], at: usize, tag: u8, len: u16)
    requires { at + 3 ≤ length out.old }
    ensures { out.new ≡ paste at (head tag len) out.old }
{
    endian::put_byte(out, at, tag);
    endian::put_u16(out, at + 1, len);
}

pub fn put_one(out: &mut [u8], at: usize, tag: u8, v: u8)
    requires { at + 4 ≤ length out.old }
    ensures { out.new ≡ paste at (one_byte tag v) out.old }
{
    put_head(out, at, tag, 1);
    endian::put_byte(out, at + 3, v);
}

pub fn put_three(out: &mut [u8], at: usize, x: u32, y: u32, z: u32)
    requires { at + 12 ≤ length out.old }
    ensures { out.new ≡ paste at (three x y z) out.old }
{
    endian::put_u32(out, at, x);
    endian::put_u32(out, at + 4, y);
    endian::put_u32(out, at + 8, z);
}

pub fn put_sharding(out: &mut [u8], at: usize, spec: Sharding)
    requires { at + 16 ≤ length out.old }
    ensures { out.new ≡ paste at (sharding_bytes spec) out.old }
{
    put_one(out, at, 1, spec.preshift);
    put_one(out, at + 4, 2, spec.hash);
    put_one(out, at + 8, 3, spec.minishard_bits);
    put_one(out, at + 12, 4, spec.shard_bits);
}

pub fn put_extents(out: &mut [u8], at: usize, tag: u8, e: Extents)
    requires { at + 15 ≤ length out.old }
    ensures { out.new ≡ paste at (extents_bytes tag e) out.old }
{
    put_head(out, at, tag, 12);
    put_three(out, at + 3, e.x, e.y, e.z);
}
