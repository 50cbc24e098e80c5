// Demands 1 and 2 as theorems about the handler's definitions. It holds no code: see specs/ and proofs/.

#![tactic(auto)]
