//! The values that a TOML text holds, and tables with an index of their keys. The reader gives its values, and the writer
//! takes them; a tree grows in tables of the same kind ([`Pairs`]).
//!
//! ```text
//! let mut table = Table::new(alloc);
//! let first = table.push(String::from_str(alloc, "port")?, Value::Integer(80)); // Ok(())
//! let second = table.push(String::from_str(alloc, "port")?, Value::Integer(81)); // KeyPresent, and the pair
//! let port = table.get("port"); // Some(&Value::Integer(80))
//! ```
//!
//! This is from `toml_vectors`, which makes each call once.
#![tactic(auto)]

mod pairs;
mod text;
mod value;

pub use basic_toml_numbers::Float;
pub use pairs::{Iter, Pair, Pairs, Place, PushRefusal};
pub use text::Text;
pub use value::{NESTING_LIMIT, Table, Value};
