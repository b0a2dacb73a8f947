//! How values are laid out as TOML text: keys and values of a row ([`write_key`], [`Scalar`]), any value in a row
//! ([`inline_text`]), and any table at once ([`document_text`]).
//!
//! The lowest crate of the writer, below `basic_toml_emit`, which writes by calls. It knows nothing of them.
#![tactic(auto)]

mod data;
mod lines;
mod plain;
mod scalar;
mod text;

pub use data::{Style, begins_with_table, document_text, inline_text, is_section};
pub use scalar::Scalar;
pub use text::{is_bare_key, write_key};
