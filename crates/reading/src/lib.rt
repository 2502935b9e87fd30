// What a file says: one reading as an initial part and stations of statements. These are definitions and proofs; there is no code here.
#![tactic(auto)]
