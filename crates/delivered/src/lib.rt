// What an intake makes of what is delivered to it: statements, no function.

#![tactic(auto)]
