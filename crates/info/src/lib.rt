// Reading the settings of a volume from the text of its info file.
#![tactic(auto)]

pub mod document;
pub mod numbers;
pub mod scale;
mod settings;
pub mod sharding_members;

ghost use Rattle.std.specs.Prelude.{◌≡◌};
ghost use Rattle.info.specs.Answers.{judged_answer, info_answer};

use crate::sharding_members::SettingsError;
use card::Card;
use refusal::Refusal;

// What is answered where the text says this record.
fn judged(card: Card) -> Result<Card, Refusal>
    ensures { result ≡ judged_answer card }
{
    card::judge::judge(card)?;
    Ok(card)
}

// The settings of the scale as a card says them: refused with 19, 20, 1, 2 or 3.
// The time is linear in the text: it is walked once as JSON, once along the outermost members, once along the scales to the one that
// is asked for, once along its members and twice along its sharding's; a walk passes over each value once, and calls nest no deeper
// than values, 32.
pub fn read_info(text: &[u8], scale: u64) -> Result<Card, Refusal>
    ensures answer { result ≡ info_answer text.now scale }
{
    if !json_text::is_json(text) {
        return Err(Refusal::InfoNotJson);
    }
    match settings::settings_of(text, scale) {
        Ok(said) => judged(said),
        Err(SettingsError::UnknownHash) => Err(Refusal::ShardingNotAllowed),
        Err(SettingsError::Wrong) => Err(Refusal::InfoSettings),
    }
}
