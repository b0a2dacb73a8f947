//! A file of Rust with the impls of its types behind them: what `toml_impls` writes.
#![tactic(auto)]

mod choice_templates;
mod file;
mod form_templates;
mod impls;
mod imports;
mod layout;
mod merge;
mod template;
mod templates;
mod uses;

pub use file::with_impls;
