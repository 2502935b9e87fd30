// What a list made from a written sequence is like: its length, its targets, its soundness. These are proofs; there is no code here.
#![tactic(auto)]
