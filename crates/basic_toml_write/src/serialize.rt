//! What can be written.
ghost use Rattle.std.specs.Prelude.{IfOk, List, ⊤};

use crate::{Serializer, WriteError};
use std::alloc::Global;

/// A value that tells itself to a [`Serializer`].
///
/// The ghost member `calls` names the items that the value sends. A type that may give up with an error of its own
/// names in `gives_up` after which of them, and with which error: an error of the serializer goes before it. What is known
/// of a value that was written stands in `holds`, as that an integer is in the range of its type. A type that asks for
/// no memory of its own, or only where a call of its value grows something too, says so in `asks_no_memory`: then want
/// of memory comes only where a call grows something.
///
/// ```text
/// impl Serialize for Rule {
///     ghost calls = { λ r. a_record
///         (a_field (codes "pattern") (⟦<String as Serialize>⟧.calls r.pattern)
///         (a_field (codes "limit") (⟦<u32 as Serialize>⟧.calls r.limit) the_end)) };
///
///     fn serialize(&self, _alloc: Global, ser: &mut Serializer) -> Result<(), WriteError> {
///         ser.serialize_struct("Rule", 2)?;
///         ser.serialize_field("pattern", &self.pattern)?;
///         ser.serialize_field("limit", &self.limit)?;
///         ser.end()
///     }
/// }
/// ```
///
/// This is from the program `write_rules`. It takes no proof: each call says what it leaves for the calls after it. So
/// do arrays by `an_array` and `an_element`, maps by fields or by `a_key` and `a_value`, and an enum by the calls of its
/// variants.
pub trait Serialize {
    ghost use Rattle.basic_toml_write.specs.declared.error.WriteError.{WriteError};
    ghost use Rattle.basic_toml_emit.specs.Items.{Item};
    ghost use Rattle.basic_toml_write.specs.Serializer.{Sends, NoFault, MemoryHasCause};

    // The items that a value spells.
    ghost calls: { Self → List Item };

    // After which of its items, a beginning of what it sends, a value may give up, and with which errors of its own.
    ghost gives_up: { Self → List Item → WriteError → Type 0 } = { λ _. NoFault };

    // What holds of a value that was written, besides its calls: an integer is in the range of its type.
    ghost holds: { Self → Type 0 } = { λ _. ⊤ };

    // Which values are known to ask for no memory of their own, unless a call of theirs grows something too.
    ghost asks_no_memory: { Self → Type 0 } = { λ _. ⊥ };

    /// Makes the calls of the value on `ser`. An error of the type's own is made by [`WriteError::custom`].
    ///
    /// # Errors
    ///
    /// The first that a call answers, or the type's own; and `OutOfMemory` where the type is refused memory that it
    /// asks for itself.
    fn serialize(&self, alloc: Global, ser: &mut Serializer) -> Result<(), WriteError>
        ensures sends { Sends (calls self.now) (gives_up self.now) ser.old ser.new result }
        ensures holds { IfOk result (λ _. holds self.now) }
        ensures memory { asks_no_memory self.now → MemoryHasCause (calls self.now) ser.old ser.new result };
}
