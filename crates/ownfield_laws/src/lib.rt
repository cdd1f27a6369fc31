// The laws of our own field in front of a stripped block. There is no code here.
#![tactic(auto)]
