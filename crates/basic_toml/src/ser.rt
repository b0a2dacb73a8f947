//! Writing values.
ghost use Rattle.std.specs.Prelude.{IfOk, IfErr, string_bytes};
ghost use Rattle.basic_toml_write.specs.Statements.{SpellsAtMostOne, KeptHasSameText, KeptHasSameDepth};
ghost use Rattle.basic_toml.specs.Ser.{Writes, HoldsData, MeansKept, CallsGrow};

use crate::Error;
use basic_toml_write::{Serialize, written};
use std::alloc::Global;

/// The TOML text of a value.
///
/// A scalar entry of a table, and an array that holds no table, is a row `key = value`; a table is a section with its
/// header, and an array of tables one section for each element. (TOML v0.5.0, "Table" and "Array of Tables")
///
/// ```text
/// let text = to_string(alloc, &settings)?;
/// ```
///
/// This is from `toml_vectors`; the program `write_rules` writes types of its own.
///
/// # Errors
///
/// The first error that the value's calls meet, as [`Serializer`](crate::Serializer) says of each, even where the
/// type passes over it or answers one of its own; else the type's own error, where it gives up; and `out of memory`
/// where a growth was refused. That comes only where one of the calls grows something, or the type asks for memory of
/// its own: so a number, which is no table, never wants memory.
#[tactic(auto, using(crate::proofs::TextOf::promised))]
pub fn to_string<T: Serialize>(alloc: Global, value: &T) -> Result<String, Error>
    ensures written { Writes (T.calls value.now) (T.gives_up value.now) result }
    ensures of_data { IfOk result (λ s. HoldsData (T.calls value.now) (string_bytes s)) }
    ensures means { IfOk result (λ s. MeansKept (T.calls value.now) (string_bytes s)) }

    // The calls spell at most one value, and what is kept of a value has its text and its depth.
    ensures unique { SpellsAtMostOne (T.calls value.now) }
    ensures same_text { KeptHasSameText }
    ensures same_depth { KeptHasSameDepth }

    // What is known of a value that was written.
    ensures holds { IfOk result (λ _. T.holds value.now) }

    // Where `asks_no_memory` says so, want of memory comes only where one of the calls grows something.
    ensures memory { T.asks_no_memory value.now → IfErr result (CallsGrow (T.calls value.now)) }
{
    write_out(alloc, value)
}

// What the calls of a value come to, with the error named.
#[tactic(auto, using(crate::proofs::MemoryIsGrown::named_cause))]
fn write_out<T: Serialize>(alloc: Global, value: &T) -> Result<String, Error>
    ensures written { Writes (T.calls value.now) (T.gives_up value.now) result }
    ensures holds { IfOk result (λ _. T.holds value.now) }
    ensures memory { T.asks_no_memory value.now → IfErr result (CallsGrow (T.calls value.now)) }
{
    Ok(written(alloc, value)?)
}
