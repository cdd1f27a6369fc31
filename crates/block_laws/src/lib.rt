// The laws of lines, fields and names of a header block; no code.
#![tactic(auto)]
