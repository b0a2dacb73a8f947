//! TOML text, emitted as its items come.
//!
//! An [`Emitter`] takes the items that calls record, one after another, and appends to its text: keys, values,
//! headers, brackets. It refuses an item that the text has no form for where it stands. It knows nothing of the types
//! that are written: `basic_toml_write` makes items of their calls.
#![tactic(auto)]

mod call;
mod emitter;
mod error;
mod frames;
mod headers;

pub use basic_toml_layout::Scalar;
pub use call::Call;
pub use emitter::Emitter;
pub use error::EmitError;
