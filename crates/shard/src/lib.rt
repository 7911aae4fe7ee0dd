// A shard: its layout, the leads of its chunks, the judge of its minishards, the whole-shard check.
#![tactic(auto)]

pub mod checking;
pub mod faults;
pub mod index;
pub mod judge;
pub mod lengths;
pub mod manifests;

pub use checking::check;

// The fault of several minishards: of the first that has one.
#[derive(Clone, Copy)]
pub struct ShardFault {
    pub number: u8,
    pub minishard: u64,
    pub position: u64,
}

// What the whole-shard check answers: 7 to 11, for a mesh also 15 to 17 and 21, come with the first faulty minishard and the byte
// position of what is wrong there, counted from the beginning of the shard.
#[derive(Clone, Copy)]
pub enum CheckAnswer {
    Sound,
    Refused(u8),
    Faulty {
        number: u8,
        minishard: u64,
        position: u64,
    },
}
