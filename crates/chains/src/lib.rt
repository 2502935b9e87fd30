// What the library's chains answer, in the rules' words. They are proofs, under proofs/; there is no code here.
#![tactic(auto)]
