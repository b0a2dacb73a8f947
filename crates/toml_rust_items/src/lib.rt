//! What a file of Rust declares: its tokens, the items of its top level, their fields and variants, and what serde's
//! attributes say of them. `toml_rust_types` tells by it what the types are in TOML, and `toml_impl_text` writes impls.
#![tactic(auto)]

pub mod case;
pub mod cursor;
pub mod declared;
pub mod edits;
pub mod items;
pub mod keys;
pub mod lexer;
pub mod literal;
pub mod refusal;
pub mod rules;
pub mod types;
