// The laws and theorems of ARC chains; no code.
#![tactic(auto)]
