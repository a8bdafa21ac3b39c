// Worked examples of the definitions: see proofs/.

#![tactic(auto)]
