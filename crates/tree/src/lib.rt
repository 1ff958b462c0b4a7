// The cut tree of document 01 and its two lists, in specs/, and their laws, in proofs/: what every contract above cites. There is no code here.
#![tactic(auto)]
