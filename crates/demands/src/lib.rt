// The demands and the hand numbers of document 01 as theorems: specs/ states them, proofs/ proves them. There is no code here.
#![tactic(auto)]
