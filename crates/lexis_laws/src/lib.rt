// The laws of the small pieces of a body; no code.
#![tactic(auto)]
