//! What is wrong with the bytes of a text, and where, as programs tell it to people and to their editors.
//!
//! `toml_check` prints it for each file, and `toml_json` and `toml_get` for the one that they read.
//!
//! ```text
//! if let Some(finding) = check(alloc, b"port = 80a\n")? {
//!     eprint!(rt; "settings.toml:{finding}")?;
//! }
//! ```
//!
//! prints
//!
//! ```text
//! settings.toml:1:8: invalid number
//! port = 80a
//!        ^
//! ```
#![tactic(auto)]

mod dates;
mod excerpt;
mod finding;
mod front;
mod other_key;
mod place;

pub use finding::{Finding, Unread, check, read};
pub use other_key::OtherKey;
pub use place::Place;
