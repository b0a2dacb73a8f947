//! The tokens of a TOML text (v0.5.0, without dates and times). The lowest crate: it stands on no other, and the reader
//! takes its tokens from here.
//!
//! A [`Tokenizer`] stands at an offset of a text and takes one [`Token`] after another, with the [`Span`]
//! where it stands, or answers the [`Error`] that stands there. Values of strings borrow the text
//! where they can.
//!
//! ```text
//! let mut tokens = Tokenizer::new("a = 'b'");
//! let next = tokens.next(alloc)?; // 0..1 Keylike("a"); then 1..2 Whitespace(" "), 2..3 Equals, 3..4 Whitespace(" "),
//! // 4..7 String { val: "b", .. }, and None
//! ```
//!
//! This is from `toml_vectors`; the program `check_keys` goes through a text by `while let`.
#![tactic(auto)]

mod class;
mod error;
mod lanes;
pub mod laws;
mod line;
mod punctuation;
mod quote;
mod scan;
mod span;
mod step;
mod string;
mod token;
mod tokenizer;

pub use class::{Class, end_of_run};
pub use error::Error;
pub use punctuation::{after_feed, after_punctuation};
pub use scan::scan as token_at;
pub use span::Span;
pub use step::start as start_of_text;
pub use string::{Quoted, TokenStop, simple_string as simple_string_at, string as string_at};
pub use token::Token;
pub use tokenizer::Tokenizer;
