// Theorems about histories of calls. They are proofs, under proofs/; there is no code here.
#![tactic(auto)]
