// What SHAPE and DEPTH mean: the grammar of kinds, and what check answers by it. These are definitions and proofs; there is no code here.
#![tactic(auto)]
