//! Types that are read from the nodes of a tree: the trait, the types that have it, and the fields of a record.
//! `basic_toml` passes on all of its names.
//!
//! | Type | Reads (TOML v0.5.0) |
//! |---|---|
//! | `i8` to `i64`, `u8` to `u64` | an integer in their range ("Integer") |
//! | `Float` | a float, and no integer ("Float") |
//! | `bool` | a boolean ("Boolean") |
//! | `String`, `CowStr` | a string ("String"); `CowStr` borrows it from the text where it stands there as it is |
//! | `Vec<T>` | an array ("Array", "Array of Tables"), each element as `T` |
//! | `BTreeMap<String, T>` | a table, each value as `T` |
//! | `Table`, `Value` | a table ("Table", "Inline Table"), in the order of its keys; whatever stands there |
//! | `Option<T>` | what `T` reads; a field that may be missing is read by [`read_optional`] |
//!
//! Where one reads nothing from a node, its error is `invalid type: .., expected ..` at the node, and
//! `invalid value: .., expected ..` where an integer lies outside its range; or that of the first element or value.
#![tactic(auto)]

mod collections;
mod deserialize;
mod fields;
pub mod laws;
mod record;
mod targets;

pub use collections::read_elements;
pub use deserialize::Deserialize;
pub use fields::{only_fields, read_field, read_optional, variant};
pub use record::{
    And, Fields, Four, Maybe, Needed, Only, Or, OrEmpty, OrText, Record, read_record,
};
