// What holds of every accepted sheet's value. Definitions and theorems alone: see specs/ and proofs/.

#![tactic(auto)]
