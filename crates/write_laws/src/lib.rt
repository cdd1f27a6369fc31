// The laws of our own field from report lines, and the theorems that it reads back; no code.
#![tactic(auto)]
