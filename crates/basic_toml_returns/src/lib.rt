//! What a value wrote is what is read back, for a caller's own types.
//!
//! A type that implements [`Serialize`](basic_toml::Serialize) and [`Deserialize`](basic_toml::Deserialize) says by
//! [`Returns`] what its values mean: each is read from its own text, and nothing is that means something else. A record
//! says it by [`RoundTrip`], a line a field; a choice by [`Choice`] or [`Forms`]. [`write_then_read`] then promises
//! that the value it reads means exactly what was written.
#![tactic(auto)]

mod collections;
mod returns;
mod root;
mod scalars;
mod values;
mod variants;
mod write;

pub use returns::{Choice, Forms, Returns, RoundTrip};
pub use root::{Root, write_then_read};
pub use variants::{read_variant, write_variant};
pub use write::{WriteField, WriteFields, write_record};
