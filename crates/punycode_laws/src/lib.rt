// The laws and theorems of Punycode and of texts with U-labels; no code.
#![tactic(auto)]
