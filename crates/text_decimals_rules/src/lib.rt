// Numbers in decimal digits: definitions and laws. There is no code here.
#![tactic(auto)]
