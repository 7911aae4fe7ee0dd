// Deposit cards.
// Made by ./interface: change crates/coronagamba, then run it.

ghost use Rattle.std.specs.Prelude.{◌≡◌};
ghost use Rattle.card.specs.Answers.{read_answer, write_answer, write_left, card_result};
ghost use Rattle.refusal.specs.Result.{written_result};
ghost use Rattle.coronagamba.specs.Specification.{given_sharding};
ghost use Rattle.coronagamba.specs.word.Word.{length_after, word_of};
ghost use Rattle.coronagamba.specs.Cards.{sharding_after, volume_after, chunk_after, offset_after};

use coronagamba::CSharding;
use morton::grid::Volume;

#[unsafe(no_mangle)]
pub extern "C" fn coronagamba_card_read(
    bytes: &[u8],
    sharding: &mut [u8; 5],
    size: &mut [u32; 3],
    chunk: &mut [u32; 3],
    offset: &mut [i32; 3],
) -> u64
    ensures answer { result ≡ word_of (card_result (read_answer bytes.now)) }
    ensures sharding { sharding.new ≡ sharding_after (read_answer bytes.now) sharding.old }
    ensures size { size.new ≡ volume_after (read_answer bytes.now) size.old }
    ensures chunk { chunk.new ≡ chunk_after (read_answer bytes.now) chunk.old }
    ensures offset { offset.new ≡ offset_after (read_answer bytes.now) offset.old }
{
    coronagamba::cards::coronagamba_card_read(bytes, sharding, size, chunk, offset)
}

#[unsafe(no_mangle)]
pub extern "C" fn coronagamba_card_write(
    sharding: CSharding,
    volume: Volume,
    out: &mut [u8],
    length: &mut u64,
) -> u64
    ensures answer { result ≡ word_of (written_result (write_answer (record { sharding = given_sharding sharding; volume = volume }) out.old)) }
    ensures out { out.new ≡ write_left (record { sharding = given_sharding sharding; volume = volume }) out.old }
    ensures length { length.new ≡ length_after (write_answer (record { sharding = given_sharding sharding; volume = volume }) out.old) length.old }
{
    coronagamba::cards::coronagamba_card_write(sharding, volume, out, length)
}
