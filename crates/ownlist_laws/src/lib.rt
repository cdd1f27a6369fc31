// The laws and theorems of our own list; no code.
#![tactic(auto)]
