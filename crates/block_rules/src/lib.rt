// Lines, fields and names of a header block: definitions and laws; no code.
#![tactic(auto)]
