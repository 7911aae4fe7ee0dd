// Writing a deposit card.
mod bytes;

ghost use Rattle.std.specs.Prelude.{◌≡◌};
ghost use Rattle.card.specs.Answers.{write_answer, write_left};

use crate::Card;
use crate::judge::judge;
use refusal::Refusal;

// The card's bytes at the front of the buffer: refused with 1, 2, 3 or 13.
pub fn write_card(card: Card, out: &mut [u8]) -> Result<usize, Refusal>
    ensures answer { result ≡ write_answer card out.old }
    ensures out { out.new ≡ write_left card out.old }
{
    judge(card)?;
    bytes::write(card, out)
}
