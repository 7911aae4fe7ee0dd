// The settings of one scale of an info file.

ghost use Rattle.std.specs.Prelude.{◌≡◌};
ghost use Rattle.info.specs.scale.Scale.{extents_at, offset_at_of, offset_by, formed, numbers_in, sharding_at, settings_at};
ghost use Rattle.info.specs.scale.Parts.{size_by, chunk_by, volume_by, typed_by, hash_by, number_by, sharding_by};

use crate::sharding_members::{SettingsError, hash_at, raw, sharding_of};
use card::Card;
use json_text::members::{Given, NotOnce};
use morton::grid::{Extents, Offset, Volume};
use sharding::Sharding;

// The array of three numbers at p.
#[tactic(auto, unfolding(crate::specs::scale::Scale::extents_at, crate::specs::scale::Scale::extents_of))]
fn extents_at(s: &[u8], p: usize) -> Option<Extents>
    ensures { result ≡ extents_at s.now p }
{
    let t = json_text::members::just_three(s, p)?;
    let x = crate::numbers::natural(s, t.x)?;
    let y = crate::numbers::natural(s, t.y)?;
    let z = crate::numbers::natural(s, t.z)?;
    Some(Extents { x, y, z })
}

// The array of three signed numbers at p. The walk is that of `extents_at`, but how a number is read, what it becomes and the struct
// made of three all differ: one function for both would take each of them from its caller and be no plainer.
#[tactic(auto, unfolding(crate::specs::scale::Scale::offset_at_of, crate::specs::scale::Scale::offset_of))]
fn offset_at(s: &[u8], p: usize) -> Option<Offset>
    ensures { result ≡ offset_at_of s.now p }
{
    let t = json_text::members::just_three(s, p)?;
    let x = crate::numbers::coordinate(s, t.x)?;
    let y = crate::numbers::coordinate(s, t.y)?;
    let z = crate::numbers::coordinate(s, t.z)?;
    Some(Offset {
        x: card::fields::twos::signed(x),
        y: card::fields::twos::signed(y),
        z: card::fields::twos::signed(z),
    })
}

// The size, by the member found.
#[tactic(auto, unfolding(crate::specs::scale::Parts::size_by))]
fn size_by(s: &[u8], given: Given) -> Option<Extents>
    ensures { result ≡ size_by s.now given }
{
    extents_at(s, json_text::members::once(given)?)
}

// The one chunk size.
#[tactic(auto, unfolding(crate::specs::scale::Parts::chunk_by))]
fn chunk_by(s: &[u8], given: Given) -> Option<Extents>
    ensures { result ≡ chunk_by s.now given }
{
    let sizes = json_text::members::once(given)?;
    extents_at(s, json_text::members::just_one(s, sizes)?)
}

// The offset, 0,0,0 where there is none.
#[tactic(auto, unfolding(crate::specs::scale::Scale::offset_by))]
fn offset_by(s: &[u8], given: Given) -> Option<Offset>
    ensures { result ≡ offset_by s.now given }
{
    match given {
        Ok(v) => offset_at(s, v),
        Err(NotOnce::Never) => Some(Offset { x: 0, y: 0, z: 0 }),
        Err(NotOnce::Twice) => None,
    }
}

#[tactic(auto, unfolding(crate::specs::scale::Parts::volume_by))]
fn volume_by(s: &[u8], sizes: Given, chunks: Given, offsets: Given) -> Option<Volume>
    ensures { result ≡ volume_by s.now sizes chunks offsets }
{
    let size = size_by(s, sizes)?;
    let chunk = chunk_by(s, chunks)?;
    let offset = offset_by(s, offsets)?;
    Some(Volume {
        size,
        chunk,
        offset,
    })
}

// The type found is the one that the format names.
#[tactic(auto, unfolding(crate::specs::scale::Parts::typed_by))]
fn typed(s: &[u8], given: Given) -> bool
    ensures { result ≡ typed_by s.now given }
{
    let Some(v) = json_text::members::once(given) else {
        return false;
    };
    json_text::members::is_text(s, v, b"neuroglancer_uint64_sharded_v1")
}

// The sharding at p is of the type and in the encodings that are read. A walk tells of four names, one of which is not used.
#[tactic(auto, unfolding(crate::specs::scale::Scale::formed, crate::specs::scale::Scale::typed, crate::specs::scale::Parts::typed_by, json_text::specs::members::Places::needed))]
fn formed(s: &[u8], p: usize) -> bool
    ensures { result ≡ formed s.now p }
{
    let found = json_text::members::four_members(
        s,
        p,
        b"@type",
        b"minishard_index_encoding",
        b"data_encoding",
        b"",
    );
    let named = found.a;
    let index = found.b;
    let data = found.c;
    typed(s, named) & (raw(s, index) & raw(s, data))
}

#[tactic(auto, unfolding(crate::specs::scale::Parts::hash_by))]
fn hash_by(s: &[u8], given: Given) -> Result<u8, SettingsError>
    ensures { result ≡ hash_by s.now given }
{
    let v = json_text::members::once(given).ok_or(SettingsError::Wrong)?;
    hash_at(s, v)
}

// The number that the member found has.
#[tactic(auto, unfolding(crate::specs::scale::Parts::number_by))]
fn number_by(s: &[u8], given: Given) -> Option<u32>
    ensures { result ≡ number_by s.now given }
{
    crate::numbers::natural(s, json_text::members::once(given)?)
}

#[tactic(auto, unfolding(crate::specs::scale::Scale::numbers_in, crate::specs::scale::Scale::numbers_of, crate::specs::scale::Scale::number_in, crate::specs::scale::Scale::hash_in, crate::specs::scale::Parts::number_by, crate::specs::scale::Parts::hash_by, json_text::specs::members::Places::needed))]
fn numbers_in(s: &[u8], p: usize) -> Result<Sharding, SettingsError>
    ensures { result ≡ numbers_in s.now p }
{
    let found = json_text::members::four_members(
        s,
        p,
        b"preshift_bits",
        b"hash",
        b"minishard_bits",
        b"shard_bits",
    );
    let preshift = number_by(s, found.a).ok_or(SettingsError::Wrong)?;
    let minishard = number_by(s, found.c).ok_or(SettingsError::Wrong)?;
    let shard = number_by(s, found.d).ok_or(SettingsError::Wrong)?;
    sharding_of(preshift, hash_by(s, found.b), minishard, shard)
}

#[tactic(auto, unfolding(crate::specs::scale::Scale::sharding_at))]
fn sharding_at(s: &[u8], p: usize) -> Result<Sharding, SettingsError>
    ensures { result ≡ sharding_at s.now p }
{
    if !formed(s, p) {
        return Err(SettingsError::Wrong);
    }
    numbers_in(s, p)
}

#[tactic(auto, unfolding(crate::specs::scale::Parts::sharding_by))]
fn sharding_by(s: &[u8], given: Given) -> Result<Sharding, SettingsError>
    ensures { result ≡ sharding_by s.now given }
{
    let v = json_text::members::once(given).ok_or(SettingsError::Wrong)?;
    sharding_at(s, v)
}

// The settings of the scale at p.
#[tactic(auto, unfolding(crate::specs::scale::Scale::settings_at, crate::specs::scale::Scale::volume_in, crate::specs::scale::Scale::size_in, crate::specs::scale::Scale::chunk_in, crate::specs::scale::Scale::offset_in, crate::specs::scale::Scale::sharding_in, crate::specs::scale::Scale::settings_by, crate::specs::scale::Parts::volume_by, crate::specs::scale::Parts::size_by, crate::specs::scale::Parts::chunk_by, crate::specs::scale::Parts::sharding_by, json_text::specs::members::Places::needed))]
pub fn settings_at(s: &[u8], p: usize) -> Result<Card, SettingsError>
    ensures { result ≡ settings_at s.now p }
{
    let found = json_text::members::four_members(
        s,
        p,
        b"size",
        b"chunk_sizes",
        b"voxel_offset",
        b"sharding",
    );
    let volume = volume_by(s, found.a, found.b, found.c).ok_or(SettingsError::Wrong)?;
    let sharding = sharding_by(s, found.d)?;
    Ok(Card { sharding, volume })
}
