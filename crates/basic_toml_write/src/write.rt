//! The text of a value.
ghost use Rattle.std.specs.Prelude.{IfOk, IfErr, IsOk};
ghost use Rattle.basic_toml_write.specs.Serializer.{Settles};
ghost use Rattle.basic_toml_write.specs.Write.{WritesOut, IsLayout, Succeeds, HasCause};

use crate::{Serialize, Serializer, WriteError};
use std::alloc::Global;

/// The text of a value: the layout of what its calls spell. `to_string` of `basic_toml` calls it.
///
/// # Errors
///
/// An error of the serializer is answered even where the type passed over it, or answered one of its own. Else the
/// type's own error is, so that it gave up after calls of which none was refused; else what [`Serializer::finish`]
/// answers. `OutOfMemory` comes only where one of the calls grows something, or the type asks for memory of its own.
pub fn written<T: Serialize>(alloc: Global, value: &T) -> Result<String, WriteError>
    ensures due { WritesOut (T.calls value.now) (T.gives_up value.now) result }
    ensures text { IsLayout (T.calls value.now) result }
    ensures succeeds { Succeeds (T.calls value.now) (T.gives_up value.now) result }
    ensures holds { IfOk result (λ _. T.holds value.now) }
    ensures memory { T.asks_no_memory value.now → IfErr result (HasCause (T.calls value.now)) }
{
    write_out(alloc, value)
}

// Makes the calls of a value, and settles what they come to.
#[tactic(auto, using(crate::proofs::CallsAreWrittenOut::settled_out, crate::proofs::CallsAreWrittenOut::settled_memory))]
fn write_out<T: Serialize>(alloc: Global, value: &T) -> Result<String, WriteError>
    ensures due { WritesOut (T.calls value.now) (T.gives_up value.now) result }
    ensures holds { IfOk result (λ _. T.holds value.now) }
    ensures memory { T.asks_no_memory value.now → IfErr result (HasCause (T.calls value.now)) }
{
    let mut ser = Serializer::new(alloc);
    let answer = value.serialize(alloc, &mut ser);
    settle(ser, answer)
}

// The error that was met, whatever the type answered; else the type's own error; else what is handed out.
fn settle(ser: Serializer, answer: Result<(), WriteError>) -> Result<String, WriteError>
    ensures settles { Settles ser answer result }
    ensures ok { IfOk result (λ _. IsOk answer) }
{
    match answer {
        Err(error) if !ser.has_refused() => Err(error),
        _ => ser.finish(),
    }
}
