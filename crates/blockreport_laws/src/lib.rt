// The laws and theorems of the report of a whole header block; no code.
#![tactic(auto)]
