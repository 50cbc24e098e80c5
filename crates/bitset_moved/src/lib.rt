// A bitset inside a request reads as its contents alone, with every place moved. It holds no code: see specs/ and proofs/.

#![tactic(auto)]
