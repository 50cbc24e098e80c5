// A reply read back by our own reader gives the stored set. It holds no code: see specs/ and proofs/.

#![tactic(auto)]
