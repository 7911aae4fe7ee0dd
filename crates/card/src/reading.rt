// What the bytes of a card say.

ghost use Rattle.std.specs.Prelude.{◌≡◌, true, ◌+◌, ◌≤◌, length};
ghost use Rattle.card.specs.Reading.{card_extents_at, kind_in, card_sharding, offset_in, card_volume, card_in};
ghost use Rattle.card.specs.form.Form.{well_formed};

use crate::Card;
use crate::fields::{byte, offset_at};
use endian;
use morton::grid::{Extents, Offset, Volume};
use sharding::Sharding;

fn extents_at(s: &[u8], at: usize) -> Extents
    requires { at + 12 ≤ length s.now }
    ensures { result ≡ card_extents_at s.now at }
{
    Extents {
        x: endian::read_u32(s, at),
        y: endian::read_u32(s, at + 4),
        z: endian::read_u32(s, at + 8),
    }
}

// The eighth field is there in cards of these lengths.
fn kind_in(s: &[u8]) -> u8
    ensures { result ≡ kind_in s.now }
{
    if (s.len() == 50) | (s.len() == 65) {
        1
    } else {
        0
    }
}

fn sharding_in(s: &[u8]) -> Sharding
    requires { 46 ≤ length s.now }
    ensures { result ≡ card_sharding s.now }
{
    Sharding {
        preshift: byte(s, 3),
        hash: byte(s, 7),
        minishard_bits: byte(s, 11),
        shard_bits: byte(s, 15),
        kind: kind_in(s),
    }
}

fn offset_in(s: &[u8]) -> Offset
    requires { well_formed s.now ≡ true }
    ensures { result ≡ offset_in s.now }
{
    if (s.len() == 46) | (s.len() == 50) {
        return Offset { x: 0, y: 0, z: 0 };
    }
    offset_at(s, 49)
}

fn volume_in(s: &[u8]) -> Volume
    requires { well_formed s.now ≡ true }
    ensures { result ≡ card_volume s.now }
{
    let size = extents_at(s, 19);
    let chunk = extents_at(s, 34);
    let offset = offset_in(s);
    Volume {
        size,
        chunk,
        offset,
    }
}

// What the bytes of a card say.
pub fn card_in(s: &[u8]) -> Card
    requires { well_formed s.now ≡ true }
    ensures { result ≡ card_in s.now }
{
    let sharding = sharding_in(s);
    let volume = volume_in(s);
    Card { sharding, volume }
}
