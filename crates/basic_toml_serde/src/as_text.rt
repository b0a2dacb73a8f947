//! A field that is a text, by what its value prints and what parses it: `with` for types that have no `serde` of their
//! own, as `IpAddr` and `SocketAddr`. A `PathBuf` and a `Duration` are not parsed from a text.
//!
//! ```text
//! #[serde(with = "basic_toml_serde::as_text")]
//! pub address: IpAddr,
//! ```
//!
//! This is from `tools/derived`.
ghost use Rattle.std.specs.Prelude.{ℕ, List, Ok, IfOk};
ghost use Rattle.serde.specs.Event.{text};
ghost use Rattle.serde.specs.Steps.{Gives};

use serde::{Deserializer, Format, Serializer};
use std::alloc::Global;
use std::fmt::Display;
use std::str::FromStr;

/// Sends the text that `{}` prints.
pub fn serialize<T: Display, S: Serializer>(value: &T, out: &mut S) -> Result<(), S::Error> {
    out.collect_str(value)
}

/// Takes the text that comes next, and answers what it is parsed as.
///
/// # Errors
///
/// That of a value that is no text; and that of the parser, as it prints.
pub fn deserialize<T: FromStr, F: Format>(
    alloc: Global,
    from: &mut Deserializer<'_, '_, F>,
) -> Result<T, F::Error>
where
    T::Err: Display + Drop,
    ensures { IfOk result
        (λ value. (s : List ℕ) × Gives F.gives from.old (text s) from.new × T.from_str_gives s (Ok value)) }
{
    let read = from.string(alloc)?;
    match T::from_str(read.as_str()) {
        Ok(value) => Ok(value),
        Err(e) => match e.to_string(alloc) {
            Ok(message) => Err(from.custom(message.as_str())),
            Err(_) => Err(from.no_memory()),
        },
    }
}
