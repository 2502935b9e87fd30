// Theorems about what the lights show. They are proofs, under proofs/; there is no code here.
#![tactic(auto)]
