// Single values of a sharding in an info file: an encoding, a hash, four numbers.

ghost use Rattle.std.specs.Prelude.{◌≡◌};
ghost use Rattle.info.specs.sharding_members.Values.{raw_by, hash_at, sharding_of};

use json_text::members::{Given, NotOnce};
use sharding::Sharding;

// Why a text does not say the settings: it names a hash that is not known, or what is used is missing, doubled or of the wrong kind.
#[derive(Clone, Copy, PartialEq, Eq)]
pub enum SettingsError {
    UnknownHash,
    Wrong,
}

// The encoding found is raw, or none is named.
#[tactic(auto, unfolding(crate::specs::sharding_members::Values::raw_by))]
pub fn raw(s: &[u8], given: Given) -> bool
    ensures { result ≡ raw_by s.now given }
{
    match given {
        Ok(v) => json_text::members::is_text(s, v, b"raw"),
        Err(NotOnce::Never) => true,
        Err(NotOnce::Twice) => false,
    }
}

// The hash that is named at p, by its number.
#[tactic(auto, unfolding(crate::specs::sharding_members::Values::hash_at))]
pub fn hash_at(s: &[u8], p: usize) -> Result<u8, SettingsError>
    ensures { result ≡ hash_at s.now p }
{
    if json_text::tokens::byte(s, p) != b'"' {
        return Err(SettingsError::Wrong);
    }
    if json_text::members::is_text(s, p, b"identity") {
        return Ok(0);
    }
    if !json_text::members::is_text(s, p, b"murmurhash3_x86_128") {
        return Err(SettingsError::UnknownHash);
    }
    Ok(1)
}

// The numbers as a card's fields hold them, of a volume. A number that its field cannot hold comes before the hash.
#[tactic(auto, unfolding(crate::specs::sharding_members::Values::sharding_of, crate::specs::sharding_members::Values::hashed_by))]
pub fn sharding_of(
    a: u32,
    h: Result<u8, SettingsError>,
    m: u32,
    n: u32,
) -> Result<Sharding, SettingsError>
    ensures { result ≡ sharding_of a h m n }
{
    let Ok(preshift) = u8::try_from(a) else {
        return Err(SettingsError::Wrong);
    };
    let Ok(minishard_bits) = u8::try_from(m) else {
        return Err(SettingsError::Wrong);
    };
    let Ok(shard_bits) = u8::try_from(n) else {
        return Err(SettingsError::Wrong);
    };
    let hash = h?;
    Ok(Sharding {
        preshift,
        hash,
        minishard_bits,
        shard_bits,
        kind: 0,
    })
}
