// Demand 3 for every accepted sheet with header bit 0. A theorem alone: see proofs/.

#![tactic(auto)]
