// What a written sequence means, by document 002, and that the built-in list steps so. Under specs/ and proofs/; there is no code here.
#![tactic(auto)]
