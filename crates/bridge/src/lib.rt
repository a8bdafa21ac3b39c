// The text of a sheet, module by module as in bridge/ of the crate. Definitions alone: see specs/.

#![tactic(auto)]
