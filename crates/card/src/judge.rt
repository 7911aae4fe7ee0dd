// The judge of what a card says, before it is written and after it is read.

ghost use Rattle.std.specs.Prelude.{◌≡◌};
ghost use Rattle.refusal.specs.Answers.{judged};
ghost use Rattle.card.specs.Answers.{fault};

use crate::Card;
use refusal::Refusal;

// Refuses what a card says by the first of 1, 2 and 3 that holds.
pub fn judge(card: Card) -> Result<(), Refusal>
    ensures { result ≡ judged (fault card) }
{
    let sharding = card.sharding;
    let volume = card.volume;
    if !sharding::limits::is_allowed(sharding) {
        return Err(Refusal::ShardingNotAllowed);
    }
    if morton::grid::inner::zero_extent(volume) {
        return Err(Refusal::NoSuchCell);
    }
    if 64 < morton::steps::volume_key_bits(volume) {
        return Err(Refusal::TooManyKeyBits);
    }
    Ok(())
}
