// The laws and theorems of the identifier and its equality; no code.
#![tactic(auto)]
