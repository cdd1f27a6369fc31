// Our own field in front of a stripped block: definitions with examples. There is no code here.
#![tactic(auto)]
