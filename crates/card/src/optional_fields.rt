// The fields that a deposit card may lack, its offset and its kind: how long they are, writing them.

ghost use Rattle.std.specs.Prelude.{◌≡◌, ◌+◌, ◌≤◌, length};
ghost use Rattle.endian.specs.Place.{paste};
ghost use Rattle.card.specs.Layout.{offset_tag, offset_bytes, kind_bytes};

use crate::field_writing::{put_head, put_one, put_three};
use crate::fields::twos;
use morton::grid::Offset;
use sharding::Sharding;

pub fn offset_len(o: Offset) -> usize
    ensures { (result ≡ length (offset_bytes o)) × (result ≤ 15) }
{
    if twos::no_offset(o) { 0 } else { 15 }
}

fn put_offset_tag(out: &mut [u8], at: usize, o: Offset)
    requires { at + 15 ≤ length out.old }
    ensures { out.new ≡ paste at (offset_tag o) out.old }
{
    put_head(out, at, 7, 12);
    put_three(
        out,
        at + 3,
        twos::bits(o.x),
        twos::bits(o.y),
        twos::bits(o.z),
    );
}

pub fn put_offset(out: &mut [u8], at: usize, o: Offset)
    requires { at + length (offset_bytes o) ≤ length out.old }
    ensures { out.new ≡ paste at (offset_bytes o) out.old }
{
    if twos::no_offset(o) {
        return;
    }
    put_offset_tag(out, at, o);
}

pub fn kind_len(spec: Sharding) -> usize
    ensures { (result ≡ length (kind_bytes spec)) × (result ≤ 4) }
{
    if sharding::limits::is_mesh(spec) {
        4
    } else {
        0
    }
}

pub fn put_kind(out: &mut [u8], at: usize, spec: Sharding)
    requires { at + length (kind_bytes spec) ≤ length out.old }
    ensures { out.new ≡ paste at (kind_bytes spec) out.old }
{
    if !sharding::limits::is_mesh(spec) {
        return;
    }
    put_one(out, at, 8, 1);
}
