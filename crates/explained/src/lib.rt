// Theorems about why a station was not picked. They are proofs, under proofs/; there is no code here.
#![tactic(auto)]
