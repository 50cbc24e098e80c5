// What C gets back from the exported functions, as theorems about their contracts. It holds no code: see specs/ and proofs/.

#![tactic(auto)]
