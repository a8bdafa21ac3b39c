// Demand 3 of the bytes that a caller of the write service finds in the buffer. Theorems alone: see proofs/.

#![tactic(auto)]
