// Walks and the cover: demand 3 on the rounds' definitions. specs/ states it, proofs/ proves it. There is no code here.
#![tactic(auto)]
