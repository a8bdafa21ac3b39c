// Definitions and theorems alone: the C++ grammar of document 01. See specs/, then proofs/.

#![tactic(auto)]
