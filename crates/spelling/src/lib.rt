// The tree of each declaration, layout definition and shim of a sheet's text, and that it is spelled so. Definitions
// and theorems alone: see specs/ and proofs/.

#![tactic(auto)]
