// The laws and theorems of stripping in two steps. There is no code here.
#![tactic(auto)]
