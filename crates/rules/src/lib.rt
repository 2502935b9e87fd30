// Document 01's rules, as docs/AMENDMENTS.md amends them. They are definitions, under specs/, in the document's order; there is no code here.
#![tactic(auto)]
