// Punycode (RFC 3492), UTF-8 (RFC 3629), and texts with their A-labels as U-labels. There is no code here.
#![tactic(auto)]
