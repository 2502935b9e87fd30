// Theorems about the steps that FAIR allows. They are proofs, under proofs/; there is no code here.
#![tactic(auto)]
