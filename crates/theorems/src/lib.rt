// The demands and the promises of the orders, as statements about the other crates' definitions: specs/ and proofs/. No code of its own.
#![tactic(auto)]

pub mod cases;
pub mod mesh_cases;
