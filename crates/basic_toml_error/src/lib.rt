//! What can go wrong: the error of reading and writing, its kind, its text, the keys that lead there, the offset, the
//! line and the column where it stands, where what it is about is written, and the path to it.
//! `basic_toml` passes on its names.
//!
//! ```text
//! match loaded_again(rt.alloc(), text.as_str()) {
//!     Ok(s) => println!(rt; "{}:{} verbose={}", s.host, s.port, s.verbose)?,
//!     Err(e) => return report(&rt, text.as_str(), &e), // stdin:1:1: missing field `host`
//! }
//! ```
//!
//! This is from the program `load_settings`, whose `report` prints the error on standard error.
#![tactic(auto)]

mod error;
mod key_path;
mod kind;
pub mod laws;
mod line_column;
mod message;
mod origins;

pub use error::Error;
pub use kind::{ErrorKind, Message};
pub use line_column::line_col;
pub use origins::Origins;
