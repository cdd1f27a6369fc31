// What `strip --log` says of the fields that go: definitions, worked examples, and what holds of the text; no code.
#![tactic(auto)]
