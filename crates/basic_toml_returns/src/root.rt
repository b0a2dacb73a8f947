//! A value that is written, and then read as its own type.
ghost use Rattle.basic_toml.specs.Reading.{ReadsText};
ghost use Rattle.basic_toml_returns.specs.Returned.{ReturnsIt};

use crate::Returns;
use basic_toml::{Error, Table, from_str, to_string};
use std::alloc::Global;

/// A type that returns and that a whole text can hold.
///
/// ```text
/// impl<'de> Root<'de> for Settings {
///     fn from_text(alloc: Global, text: &str) -> Result<Settings, Error> {
///         from_str(alloc, text)
///     }
/// }
/// ```
///
/// This is from the program `load_settings`.
pub trait Root<'de>: Returns<'de> {
    /// Reads a value from a text, however long the text lives, by [`from_str`].
    ///
    /// # Errors
    ///
    /// Those of [`from_str`].
    fn from_text(alloc: Global, text: &str) -> Result<Self, Error>
        ensures { ReadsText Self.takes Self.reads Self.faults text.now result };
}

impl<'de> Root<'de> for Table {
    fn from_text(alloc: Global, text: &str) -> Result<Table, Error> {
        from_str(alloc, text)
    }
}

/// Writes a value and reads its text as the value's own type: what is read means exactly what was written.
///
/// ```text
/// let saved = write_then_read(alloc, &settings)?;
/// ```
///
/// This is from the program `load_settings`.
///
/// # Errors
///
/// Those of [`to_string`]. Reading back meets none but want of memory.
#[tactic(auto, using(crate::proofs::WrittenReturns::written_returns))]
pub fn write_then_read<'de, T: Root<'de>>(alloc: Global, value: &T) -> Result<T, Error>
    ensures { ReturnsIt T.calls T.gives_up T.reads T.read_back.meant value.now result }
{
    let text = to_string(alloc, value)?;
    T::from_text(alloc, text.as_str())
}
