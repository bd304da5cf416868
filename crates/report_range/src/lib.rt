// What a session's report can hold: the ranges are in specs/, the laws in proofs/. There is no function here.
#![tactic(auto)]
