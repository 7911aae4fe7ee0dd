// The C interface. Each function hands its arguments to the crates below and carries the whole answer in its contract;
// crates/coronagamba_c exports those whose names begin with coronagamba_.
#![tactic(auto)]

mod answers;
pub mod cards;
pub mod cells;
pub mod file_names;
pub mod infos;
pub mod intakes;
pub mod labels;
pub mod manifests;
mod numbers;
pub mod pairs;
pub mod places;
pub mod shards;
pub mod sheets;
pub mod version;
pub mod word;

pub use numbers::CSharding;
