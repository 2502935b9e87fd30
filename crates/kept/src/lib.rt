// What is proved of kept states: what is written to a kept place is read back whole, and the other places stay. There is no code here.
#![tactic(auto)]
