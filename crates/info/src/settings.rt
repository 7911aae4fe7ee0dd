// The scale that is asked for, and its settings, from the text of an info file.

ghost use Rattle.std.specs.Prelude.{◌≡◌};
ghost use Rattle.info.specs.Settings.{scale_at, settings_of};

use crate::scale::settings_at;
use crate::sharding_members::SettingsError;
use card::Card;

// Scale k.
#[tactic(auto, unfolding(crate::specs::Settings::scale_at))]
fn scale_at(s: &[u8], k: u64) -> Option<usize>
    ensures { result ≡ scale_at s.now k }
{
    let v = json_text::members::needed(s, json_text::tokens::skip_ws(s, 0), b"scales")?;
    json_text::members::element(s, v, k)
}

#[tactic(auto, unfolding(crate::specs::Settings::settings_of))]
pub fn settings_of(s: &[u8], k: u64) -> Result<Card, SettingsError>
    ensures { result ≡ settings_of s.now k }
{
    let p = scale_at(s, k).ok_or(SettingsError::Wrong)?;
    settings_at(s, p)
}
