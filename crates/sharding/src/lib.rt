// The sharding specification, its limits, and the place that it gives to an id: shard and minishard.
#![tactic(auto)]

pub mod batch;
pub mod limits;
pub mod placement;

pub use batch::places_of;
pub use placement::place_of;

// The numbers as they stand in a card: hash 0 is identity, 1 is murmur; kind 1 is mesh, and 0 is volume, for which a card has
// no field. Any values; the entry points judge them.
#[repr(C)]
#[derive(Clone, Copy)]
pub struct Sharding {
    pub preshift: u8,
    pub hash: u8,
    pub minishard_bits: u8,
    pub shard_bits: u8,
    pub kind: u8,
}
