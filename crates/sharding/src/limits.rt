// Tests of a specification and the numbers that it gives.

ghost use Rattle.std.specs.Prelude.{◌≡◌, true, ◌^◌, ◌<◌, ◌≤◌};
ghost use Rattle.sharding.specs.Specification.{most_minishard_bits, most_shard_bits, is_mesh, allowed, minishard_count_of, shard_count_of};

use crate::Sharding;

const MOST_PRESHIFT: u8 = 63;

const MOST_MINISHARD_BITS: u8 = 16;

const MOST_SHARD_BITS: u8 = 32;

const IDENTITY: u8 = 0;

pub const MURMUR: u8 = 1;

const VOLUME: u8 = 0;

const MESH: u8 = 1;

// Whether refusal 1 does not hold.
#[tactic(auto, unfolding(crate::specs::Specification::allowed))]
pub fn is_allowed(spec: Sharding) -> bool
    ensures { result ≡ allowed spec }
{
    let known = (spec.hash == IDENTITY) | (spec.hash == MURMUR);
    let of_kind = (spec.kind == VOLUME) | (spec.kind == MESH);
    let wide = spec.shard_bits > MOST_SHARD_BITS;
    !((spec.preshift > MOST_PRESHIFT)
        | (!known | ((spec.minishard_bits > MOST_MINISHARD_BITS) | (wide | !of_kind))))
}

// Whether the chunks are manifests.
pub fn is_mesh(spec: Sharding) -> bool
    ensures { result ≡ is_mesh spec }
{
    spec.kind == MESH
}

#[tactic(auto, using(crate::proofs::Allowed::minishard_shifts))]
pub fn minishard_count(spec: Sharding) -> u64
    requires { allowed spec ≡ true }
    ensures { (result ≡ minishard_count_of spec) × ((0 < result) × (result ≤ 2 ^ most_minishard_bits)) }
{
    1 << spec.minishard_bits
}

#[tactic(auto, using(crate::proofs::Allowed::shard_shifts))]
pub fn shard_count(spec: Sharding) -> u64
    requires { allowed spec ≡ true }
    ensures { (result ≡ shard_count_of spec) × ((0 < result) × (result ≤ 2 ^ most_shard_bits)) }
{
    1 << spec.shard_bits
}
