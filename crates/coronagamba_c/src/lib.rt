// The C interface as C calls it. Each exported function has the contract of the library's function of that name, word
// for word, and calls it.
// Made by ./interface: change crates/coronagamba, then run it.
#![tactic(auto)]

pub mod cards;
pub mod cells;
pub mod file_names;
pub mod infos;
pub mod intakes;
pub mod labels;
pub mod manifests;
pub mod pairs;
pub mod places;
pub mod shards;
pub mod sheets;
pub mod version;
