//! A table as JSON (RFC 8259), its keys in order, on one line or on several.
//!
//! `toml_json` writes it, and `toml_case_answers` tells by it what a text means.
//!
//! ```text
//! json_of(alloc, Form::Plain, &table)?; // {"port":80,"names":["a","b"]}
//! json_of(alloc, Form::Tagged, &table)?; // {"port":{"type":"integer","value":"80"},..}
//! json_in(alloc, Form::Plain, Layout::Lines, &table)?; // each element and each member on a line of its own
//! ```
#![tactic(auto)]

mod form;
mod layout;
mod scalar;
mod tree;

pub use form::Form;
pub use layout::Layout;
pub use tree::{json_in, json_of, json_of_value};
