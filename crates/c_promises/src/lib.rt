// All of it is in specs/ and proofs/.
#![tactic(auto)]
