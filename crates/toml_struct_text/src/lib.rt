//! Structs that a document can be read as: what `toml_impls --from` writes.
#![tactic(auto)]

mod names;
mod shape;
mod structs;

pub use structs::{NoStructs, structs_of};
