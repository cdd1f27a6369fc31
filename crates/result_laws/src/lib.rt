// The laws of one result of a body; no code.
#![tactic(auto)]
