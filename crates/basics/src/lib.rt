// Definitions and laws that several crates share. It holds no code: see specs/ and proofs/.

#![tactic(auto)]
