// The text of a sheet as pieces with blocks around them, and the tree of those pieces. Definitions and theorems alone:
// see specs/ and proofs/.

#![tactic(auto)]
