//! From a text to its section list ([`sections`]), or to an error that the text allows. `basic_toml_tree` goes
//! on from there to the tree of the document.
//!
//! It stands on the tokens, and on `basic_toml_explain` for its errors.
#![tactic(auto)]

mod front;
mod header;
mod key_text;
mod reader;
mod scalar;
mod section;
mod values;
mod word;

pub use basic_toml_explain::{ReadError, ReadErrorKind};
pub use key_text::KeyText;
pub use reader::{Place, SectionReader, sections};
pub use section::{Element, Key, Raw, Row, Rows, Section};
