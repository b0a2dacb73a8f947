//! The value at a path of a table: `dependencies.serde.version`, `bin[1].name`.
//!
//! `toml_c` finds by it what a program in C asks for.
//!
//! ```text
//! let path = steps_of(alloc, "bin[1].name")?;
//! let name = value_at(&manifest, path.as_slice()); // that of the second of [[bin]]
//! ```
#![tactic(auto)]

mod find;
mod path;

pub use find::value_at;
pub use path::{PathError, Step, steps_of};
