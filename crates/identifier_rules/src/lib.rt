// The identifier at the front of a field body, its equality, and the header version: definitions and worked examples; no code.
#![tactic(auto)]
