//! Structs of 2, 8 and 40 fields, and enums of names and of two forms, with their impls as `toml_impls` writes them. They
//! are made at random, by `tools/impls/run --keep`, and show that what it writes is proved.
#![tactic(auto)]

pub mod made_0;
pub mod made_1;
pub mod made_2;
