// A run that meets the demands' premises, and their bound with equality. It is a proof, under proofs/; there is no code here.
#![tactic(auto)]
