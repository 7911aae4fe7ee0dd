// The settled form: definitions in specs/, laws in proofs/. No code of its own.
#![tactic(auto)]

pub mod shortest;
