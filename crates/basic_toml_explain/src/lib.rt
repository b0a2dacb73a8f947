//! Which error a text gets where reading stopped.
//!
//! `basic_toml_read` says where reading stopped and what it wanted there. [`error_at`] reads the text anew from there,
//! by tokens, and answers the [`ReadError`]: what it is, its byte offset, the keys that lead to it, and its text.
#![tactic(auto)]

mod cursor;
mod error;
mod explain;
mod key;
mod key_path;
mod number;
mod stop;
mod text;

pub use error::{ReadError, ReadErrorKind};
pub use explain::explain as error_at;
pub use key_path::KeyPath;
pub use stop::{End, Stop, Why};
