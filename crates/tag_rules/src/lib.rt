// DKIM tag lists (RFC 6376, 3.2), as ARC fields have them: definitions; no code.
#![tactic(auto)]
