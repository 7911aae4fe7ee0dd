// The bytes of a card, field by field.

ghost use Rattle.std.specs.Prelude.{◌≡◌, ◌+◌, ◌≤◌, length};
ghost use Rattle.endian.specs.Place.{paste};
ghost use Rattle.refusal.specs.Buffer.{written, left_by};
ghost use Rattle.card.specs.Layout.{offset_bytes, volume_bytes, kind_bytes, card_bytes};

use crate::Card;
use crate::field_writing::{put_extents, put_sharding};
use crate::optional_fields::{kind_len, offset_len, put_kind, put_offset};
use morton::grid::Volume;
use refusal::Refusal;

fn put_volume(out: &mut [u8], at: usize, volume: Volume)
    requires { at + (30 + length (offset_bytes volume.offset)) ≤ length out.old }
    ensures { out.new ≡ paste at (volume_bytes volume) out.old }
{
    let size = volume.size;
    let chunk = volume.chunk;
    let offset = volume.offset;
    put_extents(out, at, 5, size);
    put_extents(out, at + 15, 6, chunk);
    put_offset(out, at + 30, offset);
}

// Where the eighth field begins: behind all others.
fn kind_place(card: Card) -> usize
    ensures { (result ≡ 46 + length (offset_bytes card.volume.offset)) × (result ≤ 61) }
{
    let volume = card.volume;
    let offset = volume.offset;
    46 + offset_len(offset)
}

fn card_len(card: Card) -> usize
    ensures { (result ≡ length (card_bytes card)) × (result ≡ 46 + length (offset_bytes card.volume.offset) + length (kind_bytes card.sharding)) }
{
    let sharding = card.sharding;
    kind_place(card) + kind_len(sharding)
}

fn put_card(out: &mut [u8], card: Card)
    requires { 46 + length (offset_bytes card.volume.offset) + length (kind_bytes card.sharding) ≤ length out.old }
    ensures { out.new ≡ paste 0 (card_bytes card) out.old }
{
    let sharding = card.sharding;
    let volume = card.volume;
    put_sharding(out, 0, sharding);
    put_volume(out, 16, volume);
    put_kind(out, kind_place(card), sharding);
}

// The bytes of a card that was judged.
pub fn write(card: Card, out: &mut [u8]) -> Result<usize, Refusal>
    ensures value { result ≡ written (card_bytes card) out.old }
    ensures out_after { out.new ≡ left_by (card_bytes card) out.old }
{
    let n = card_len(card);
    if out.len() < n {
        return Err(Refusal::NoRoom);
    }
    put_card(out, card);
    Ok(n)
}
