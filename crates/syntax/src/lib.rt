// What syntax/ of the crate tells of a sheet's items: symbols, full names, and which types are passed indirectly.
// Definitions alone: see specs/.

#![tactic(auto)]
