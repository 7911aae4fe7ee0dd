// The deposit card: what an archive's volume is and how its chunks are sharded, in 46 or 61 bytes,
// of a mesh in 50 or 65.
#![tactic(auto)]

pub mod field_writing;
pub mod fields;
pub mod form;
pub mod judge;
pub mod older_readers;
pub mod optional_fields;
mod reading;
pub mod writing;

ghost use Rattle.std.specs.Prelude.{◌≡◌};
ghost use Rattle.card.specs.Answers.{read_answer};

use morton::grid::Volume;
use refusal::Refusal;
use sharding::Sharding;
pub use writing::write_card;

#[repr(C)]
#[derive(Clone, Copy)]
pub struct Card {
    pub sharding: Sharding,
    pub volume: Volume,
}

// What a card says: refused with 14, 1, 2 or 3.
pub fn read_card(bytes: &[u8]) -> Result<Card, Refusal>
    ensures answer { result ≡ read_answer bytes.now }
{
    if !crate::form::well_formed(bytes) {
        return Err(Refusal::CardMalformed);
    }
    let card = reading::card_in(bytes);
    judge::judge(card)?;
    Ok(card)
}
