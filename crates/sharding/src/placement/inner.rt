// For callers that judge the specification once and then place many ids.

ghost use Rattle.std.specs.Prelude.{◌≡◌, true, ◌/◌, ◌%◌, ◌^◌, ◌<◌};
ghost use Rattle.sharding.specs.Specification.{allowed, minishard_count_of, shard_count_of};
ghost use Rattle.sharding.specs.placement.Place.{hashed_id, shard_of, minishard_of, place_of};

use crate::Sharding;
use crate::limits::{MURMUR, minishard_count, shard_count};
use crate::placement::Place;

#[tactic(auto, using(crate::proofs::Allowed::preshift_shifts))]
fn shifted(spec: Sharding, id: u64) -> u64
    requires { allowed spec ≡ true }
    ensures { result ≡ id / 2 ^ spec.preshift }
{
    id >> spec.preshift
}

// The hash of the shifted id.
#[tactic(auto, using(crate::proofs::placement::Placed::murmur_hashed, crate::proofs::placement::Placed::identity_hashed))]
pub fn hashed_id(spec: Sharding, id: u64) -> u64
    requires { allowed spec ≡ true }
    ensures { (result ≡ hashed_id spec id) × (result < 2 ^ 64) }
{
    if spec.hash == MURMUR {
        murmur3::hash(shifted(spec, id))
    } else {
        shifted(spec, id)
    }
}

// The low bits of a hashed id.
fn minishard_in(spec: Sharding, hashed: u64) -> u64
    requires { allowed spec ≡ true }
    ensures { result ≡ hashed % minishard_count_of spec }
{
    hashed % minishard_count(spec)
}

// The bits above those.
#[tactic(auto, using(crate::proofs::Allowed::minishard_shifts))]
fn shard_in(spec: Sharding, hashed: u64) -> u64
    requires { allowed spec ≡ true }
    ensures { result ≡ hashed / minishard_count_of spec % shard_count_of spec }
{
    (hashed >> spec.minishard_bits) % shard_count(spec)
}

#[tactic(auto, using(crate::proofs::placement::Placed::minishard_bits_made, crate::proofs::placement::Placed::rest_below))]
pub fn minishard_of(spec: Sharding, id: u64) -> u64
    requires { allowed spec ≡ true }
    ensures { (result ≡ minishard_of spec id) × (result < minishard_count_of spec) }
{
    minishard_in(spec, hashed_id(spec, id))
}

#[tactic(auto, using(crate::proofs::placement::Placed::shard_bits_made, crate::proofs::placement::Placed::rest_below))]
pub fn shard_of(spec: Sharding, id: u64) -> u64
    requires { allowed spec ≡ true }
    ensures { (result ≡ shard_of spec id) × (result < shard_count_of spec) }
{
    shard_in(spec, hashed_id(spec, id))
}

#[tactic(auto, using(crate::proofs::placement::Placed::minishard_bits_made, crate::proofs::placement::Placed::shard_bits_made, crate::proofs::placement::Placed::rest_below))]
pub fn place(spec: Sharding, id: u64) -> Place
    requires { allowed spec ≡ true }
    ensures { (result ≡ place_of spec id) × ((result.shard < shard_count_of spec) × (result.minishard < minishard_count_of spec)) }
{
    let hashed = hashed_id(spec, id);
    Place {
        shard: shard_in(spec, hashed),
        minishard: minishard_in(spec, hashed),
    }
}
