// A specification's numbers, and those of a card's record, as they cross the border.

ghost use Rattle.std.specs.Prelude.{◌≡◌, [], ◌∷◌};
ghost use Rattle.sharding.specs.Specification.{minishard_bits_of, shard_bits_of};
ghost use Rattle.card.specs.Answers.{card_result};
ghost use Rattle.coronagamba.specs.word.Word.{word_of};
ghost use Rattle.coronagamba.specs.Specification.{given_sharding};
ghost use Rattle.coronagamba.specs.Cards.{sharding_after, volume_after, chunk_after, offset_after};

use card::Card;
use intake::numbers::capped;
use morton::grid::{Extents, Offset};
use refusal::Refusal;
use sharding::Sharding;

// A sharding specification, its numbers as in a card: hash 0 is identity, 1 is murmur; kind 0 is
// volume, 1 is mesh. Any numbers; each call judges them. The fields are wider than a card's, so that
// a greater number is not cut off: above 255 each is refused with 1.
#[repr(C)]
#[derive(Clone, Copy)]
pub struct CSharding {
    pub preshift: u32,
    pub hash: u32,
    pub minishard_bits: u32,
    pub shard_bits: u32,
    pub kind: u32,
}

// The specification that the caller's numbers are.
pub fn sharding_of(given: CSharding) -> Sharding
    ensures { result ≡ given_sharding given }
{
    Sharding {
        preshift: capped(given.preshift as u64),
        hash: capped(given.hash as u64),
        minishard_bits: capped(given.minishard_bits as u64),
        shard_bits: capped(given.shard_bits as u64),
        kind: capped(given.kind as u64),
    }
}

pub fn five(sharding: Sharding) -> [u8; 5]
    ensures { result ≡ sharding.preshift ∷ sharding.hash ∷ minishard_bits_of sharding ∷ shard_bits_of sharding ∷ sharding.kind ∷ [] }
{
    [
        sharding.preshift,
        sharding.hash,
        sharding.minishard_bits,
        sharding.shard_bits,
        sharding.kind,
    ]
}

pub fn three_extents(e: Extents) -> [u32; 3]
    ensures { result ≡ e.x ∷ e.y ∷ e.z ∷ [] }
{
    [e.x, e.y, e.z]
}

pub fn three_offsets(o: Offset) -> [i32; 3]
    ensures { result ≡ o.x ∷ o.y ∷ o.z ∷ [] }
{
    [o.x, o.y, o.z]
}

pub fn put_card(
    answer: Result<Card, Refusal>,
    sharding: &mut [u8; 5],
    size: &mut [u32; 3],
    chunk: &mut [u32; 3],
    offset: &mut [i32; 3],
) -> u64
    ensures word { result ≡ word_of (card_result answer) }
    ensures sharding { sharding.new ≡ sharding_after answer sharding.old }
    ensures size { size.new ≡ volume_after answer size.old }
    ensures chunk { chunk.new ≡ chunk_after answer chunk.old }
    ensures offset { offset.new ≡ offset_after answer offset.old }
{
    match answer {
        Ok(card) => {
            let volume = card.volume;
            *sharding = five(card.sharding);
            *size = three_extents(volume.size);
            *chunk = three_extents(volume.chunk);
            *offset = three_offsets(volume.offset);
            0
        }
        Err(refusal) => refusal.number() as u64,
    }
}
