//! Writing a value and reading it back.
ghost use Rattle.std.specs.Prelude.{IfErr};
ghost use Rattle.basic_toml.specs.ReadBack.{RoundTrips};
ghost use Rattle.basic_toml.specs.Ser.{CallsGrow};

use crate::{Error, from_str, to_string};
use basic_toml_value::Table;
use basic_toml_write::Serialize;
use std::alloc::Global;

/// Writes a value and reads its text back into a [`Table`]: exactly what was written, absent options left out. The
/// program `write_rules` calls it.
///
/// # Errors
///
/// Those of [`to_string`]. Reading back meets none but want of memory, which comes where that of writing may: only
/// where one of the calls grows something, or the type asks for memory of its own.
#[tactic(auto, using(crate::proofs::TextIsReadBack::round_trips))]
pub fn round_trip<T: Serialize>(alloc: Global, value: &T) -> Result<Table, Error>
    ensures round_trips { RoundTrips (T.calls value.now) (T.gives_up value.now) result }
    ensures memory { T.asks_no_memory value.now → IfErr result (CallsGrow (T.calls value.now)) }
{
    let text = to_string(alloc, value)?;
    from_str(alloc, text.as_str())
}
