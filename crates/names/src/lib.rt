// The names of chunks and of shard files, written into lent buffers.
#![tactic(auto)]

pub mod chunks;
pub mod digits;
pub mod lengths;
pub mod shards;
pub mod writing;

pub use chunks::chunk_name;
pub use shards::{data_name, index_name, shard_name};

// A shard is one file, or in the earlier edition an index file and a data file.
#[derive(Clone, Copy)]
pub enum FileKind {
    Shard,
    Index,
    Data,
}
