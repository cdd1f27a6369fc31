// One result of a body and the table of methods: definitions and laws; no code.
#![tactic(auto)]
