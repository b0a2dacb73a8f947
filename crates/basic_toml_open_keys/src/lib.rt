//! The keys of a table that is open while TOML text is written, and those that stood in another before it.
//!
//! [`OpenKeys`] holds the key that is set, and those of the entries so far, in order. It says of a key that is entered
//! whether it is new. `basic_toml_emit` has one for each table that is open.
#![tactic(auto)]

mod keys;
mod names;
mod open_keys;

pub use open_keys::OpenKeys;
