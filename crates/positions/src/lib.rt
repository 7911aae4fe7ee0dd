// What the position of a refusal points at. No function of its own.

#![tactic(auto)]
