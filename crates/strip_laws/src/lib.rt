// The laws and theorems of stripping; no code.
#![tactic(auto)]
