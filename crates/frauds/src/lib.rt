// The wrong programs that the demands shut out. They are proofs, under proofs/; there is no code here.
#![tactic(auto)]
