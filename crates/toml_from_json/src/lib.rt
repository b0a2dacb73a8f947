//! JSON as TOML's data: an object is a table with its keys in order, an array an array.
//!
//! It is the way back of `toml_json_text`, in both forms; the program `json_toml` stands on it.
//!
//! ```text
//! let table = table_of(alloc, Form::Plain, &json)?; // of {"port":80,"ratio":1.50}
//! to_string(alloc, &table)?; // port = 80, ratio = 1.50
//! ```
#![tactic(auto)]

mod refusal;
mod scalar;
mod tree;

pub use refusal::{Fault, NoTable, Refusal};
pub use tree::table_of;
