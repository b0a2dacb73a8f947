//! From a text ([`tree_of`]), or from a section list ([`resolve`]), to the tree of its document, or to a clash of rows
//! or sections.
//!
//! It goes on from `basic_toml_read`, whose sections it puts one after another into the table that `basic_toml_grow`
//! makes grow. A [`Tree`] becomes a table, or is read by its [`Node`]s, each a value with where it comes from; the
//! types of `basic_toml` are read from them.
#![tactic(auto)]

mod anchor;
mod below;
mod entries;
mod headers;
pub mod laws;
mod node;
mod plain_value;
mod section_table;
mod spot;
mod text;
mod trail;
mod tree;
mod values;

pub use entries::{Elements, Entries};
pub use node::Node;
pub use text::tree_of;
pub use tree::{Tree, resolve};
