// The full names of items, and the symbols of functions and of layouts.
#![tactic(auto)]

mod full;
mod mangle;
mod namespace;
mod pair;
mod symbol;

pub use full::fill_full_names;
pub use mangle::{write_extern_fn, write_operator};
pub use pair::{write_cxx_name, write_full_name};
