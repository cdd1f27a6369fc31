// The laws and theorems of bodies, reports and newer versions; no code.
#![tactic(auto)]
