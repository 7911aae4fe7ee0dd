// Info files.
// Made by ./interface: change crates/coronagamba, then run it.

ghost use Rattle.std.specs.Prelude.{◌≡◌};
ghost use Rattle.info.specs.Answers.{info_answer};
ghost use Rattle.card.specs.Answers.{card_result};
ghost use Rattle.coronagamba.specs.word.Word.{word_of};
ghost use Rattle.coronagamba.specs.Cards.{sharding_after, volume_after, chunk_after, offset_after};

#[unsafe(no_mangle)]
pub extern "C" fn coronagamba_info_read(
    text: &[u8],
    scale: u64,
    sharding: &mut [u8; 5],
    size: &mut [u32; 3],
    chunk: &mut [u32; 3],
    offset: &mut [i32; 3],
) -> u64
    ensures answer { result ≡ word_of (card_result (info_answer text.now scale)) }
    ensures sharding { sharding.new ≡ sharding_after (info_answer text.now scale) sharding.old }
    ensures size { size.new ≡ volume_after (info_answer text.now scale) size.old }
    ensures chunk { chunk.new ≡ chunk_after (info_answer text.now scale) chunk.old }
    ensures offset { offset.new ≡ offset_after (info_answer text.now scale) offset.old }
{
    coronagamba::infos::coronagamba_info_read(text, scale, sharding, size, chunk, offset)
}
