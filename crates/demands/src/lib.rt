// The three demands, as claims about the rules and their proofs; there is no code here.
#![tactic(auto)]
