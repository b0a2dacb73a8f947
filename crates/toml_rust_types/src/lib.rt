//! The types of a file of Rust as TOML has them: a struct is a record, an enum a choice of strings or of two forms.
//! Their attributes say so, and the impls that a file has already.
#![tactic(auto)]

pub mod choice;
pub mod cuts;
pub mod forms;
pub mod record;
pub mod wanted;
pub mod written;
