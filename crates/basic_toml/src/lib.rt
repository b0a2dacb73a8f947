//! A TOML reader and writer: text or bytes in, a [`Table`] or a value of a caller's own type out, and back.
//!
//! [`from_str`] reads every text of TOML v0.5.0 without dates and times, [`to_string`] writes every value that has a
//! text, and [`round_trip`] reads that back. This is the crate to depend on: it stands on all the others, passes on
//! their public names, and adds typed reading, and errors with a line and a column.
//!
//! ```text
//! let settings: Table = from_str(alloc, "port = 80\n")?;
//! let port = settings.get("port"); // Some(Value::Integer(80))
//! let text = to_string(alloc, &settings)?; // port = 80
//! ```
//!
//! This is from `toml_vectors`. The programs `load_settings`, `read_manifest`, `check_keys` and `write_rules` are
//! callers with types and checks of their own.
#![tactic(auto)]

mod de;
mod document;
pub mod laws;
mod nesting;
mod origin;
mod read_back;
mod ser;

/// The tokens of a text, with their spans.
pub mod tokens {
    pub use basic_toml_tokens::{Error, Span, Token, Tokenizer};
}

pub use basic_toml_error::{Error, ErrorKind, Message, Origins, line_col};
pub use basic_toml_explain::{KeyPath, ReadErrorKind};
pub use basic_toml_numbers::{Float, float_of, integer_of};
pub use basic_toml_order::{into_rows_first, rows_first};
pub use basic_toml_origin::{Origin, Step};
pub use basic_toml_tree::{Elements, Entries, Node, Tree};
pub use basic_toml_typed::{
    And, Deserialize, Fields, Four, Maybe, Needed, Only, Or, OrEmpty, OrText, Record, only_fields,
    read_elements, read_field, read_optional, read_record, variant,
};
pub use basic_toml_value::{PushRefusal, Table, Text, Value};
pub use basic_toml_write::{Serialize, Serializer, WriteError};
pub use de::{from_slice, from_str, read_tree};
pub use document::{table_to_string, table_to_string_pretty, value_to_string};
pub use origin::{origin_of, origin_of_node};
pub use read_back::round_trip;
pub use ser::to_string;
