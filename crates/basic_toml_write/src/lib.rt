//! From the calls that a value makes to TOML text.
//!
//! A type that implements [`Serialize`] tells its value to a [`Serializer`] by calls; the serializer appends to its
//! text as the calls come, by `basic_toml_emit`, and hands the text out where they spell a whole table. `to_string` of
//! `basic_toml` calls it.
//!
//! ```text
//! fn serialize(&self, _alloc: Global, ser: &mut Serializer) -> Result<(), WriteError> {
//!     ser.serialize_struct("Rule", 2)?;
//!     ser.serialize_field("pattern", &self.pattern)?;
//!     ser.serialize_field("limit", &self.limit)?;
//!     ser.end()
//! }
//! ```
//!
//! This is from the program `write_rules`; [`Serialize`] has the ghost line.
#![tactic(auto)]

mod again;
mod error;
mod fits;
mod impls;
pub mod laws;
mod serialize;
mod serializer;
mod write;

pub use error::WriteError;
pub use serialize::Serialize;
pub use serializer::Serializer;
pub use write::written;
