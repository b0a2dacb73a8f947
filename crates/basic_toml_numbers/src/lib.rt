//! The texts of numbers: which text is an integer or a float, what an integer's text means, and floats, each held as its
//! canonical text. It stands on no other crate.
//!
//! ```text
//! let float = Float::parse(alloc, "+1.50e3")?; // 1.50E3, as text
//! let integer = integer_of("0x1F"); // Some(31)
//! ```
//!
//! This is from `toml_vectors`, which makes each call once.
#![tactic(auto)]

mod float;
mod numbers;

pub use float::{Float, float_of};
pub use numbers::{first_digits, integer_of, is_digits, is_whole, split_part};
