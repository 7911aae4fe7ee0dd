// Deposit cards.

ghost use Rattle.std.specs.Prelude.{◌≡◌};
ghost use Rattle.card.specs.Answers.{read_answer, write_answer, write_left, card_result};
ghost use Rattle.refusal.specs.Result.{written_result};
ghost use Rattle.coronagamba.specs.Specification.{given_sharding};
ghost use Rattle.coronagamba.specs.word.Word.{length_after, word_of};
ghost use Rattle.coronagamba.specs.Cards.{sharding_after, volume_after, chunk_after, offset_after};

use crate::answers::put_length;
use crate::numbers::{CSharding, put_card, sharding_of};
use card::Card;
use morton::grid::Volume;

// What a deposit card of these bytes says. Writes preshift, hash, minishard bits, shard bits and kind
// to `sharding`, and volume size, chunk size and voxel offset along x, y and z to `size`, `chunk` and
// `offset`. To use them in other calls, copy the numbers into the structs one by one.
// Refusals: 14, 1, 2, 3
pub fn coronagamba_card_read(
    bytes: &[u8],
    sharding: &mut [u8; 5],
    size: &mut [u32; 3],
    chunk: &mut [u32; 3],
    offset: &mut [i32; 3],
) -> u64
    ensures answer { result ≡ word_of (card_result (read_answer bytes.now)) }
    ensures sharding { sharding.new ≡ sharding_after (read_answer bytes.now) sharding.old }
    ensures size { size.new ≡ volume_after (read_answer bytes.now) size.old }
    ensures chunk { chunk.new ≡ chunk_after (read_answer bytes.now) chunk.old }
    ensures offset { offset.new ≡ offset_after (read_answer bytes.now) offset.old }
{
    let answer = card::read_card(bytes);
    put_card(answer, sharding, size, chunk, offset)
}

// A deposit card. Writes its bytes, 46 or 61, of a mesh 50 or 65, to the front of `out`, and their
// number to `length`.
// Refusals: 1, 2, 3, 13 where `out` is shorter than the card
pub fn coronagamba_card_write(
    sharding: CSharding,
    volume: Volume,
    out: &mut [u8],
    length: &mut u64,
) -> u64
    ensures answer { result ≡ word_of (written_result (write_answer (record { sharding = given_sharding sharding; volume = volume }) out.old)) }
    ensures out { out.new ≡ write_left (record { sharding = given_sharding sharding; volume = volume }) out.old }
    ensures length { length.new ≡ length_after (write_answer (record { sharding = given_sharding sharding; volume = volume }) out.old) length.old }
{
    let answer = card::write_card(
        Card {
            sharding: sharding_of(sharding),
            volume,
        },
        out,
    );
    put_length(answer, length)
}
