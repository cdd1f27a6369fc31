// A judgement of an ARC chain, as the command writes it: definitions and examples. There is no code.
#![tactic(auto)]
