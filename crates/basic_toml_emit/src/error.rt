//! Why an item is not taken.
ghost use Rattle.std.specs.Prelude.{◌≡◌};
ghost use Rattle.basic_toml_emit.specs.declared.error.EmitError.TheVariants.{OutOfMemory};

use std::alloc::AllocError;

/// Why an item is not taken. It owns no text, so that answers stay small on their way: a repeated key is the one that
/// is set, [`Emitter::key_set`](crate::Emitter::key_set).
#[derive(Clone, Copy)]
pub enum EmitError {
    /// A kind of value that the text has no form for where it stands.
    UnsupportedType,
    /// A key that is not a text.
    KeyNotString,
    /// A value after a table or a non-empty array of tables of the same table.
    ValueAfterTable,
    /// An absent option at the root or in an array.
    UnsupportedNone,
    /// A second present entry under the key that is set.
    DuplicateKey,
    /// An item that may not stand where it came.
    CallOrder,
    /// An array or a table within [`NESTING_LIMIT`](basic_toml_value::NESTING_LIMIT) others.
    NestedTooDeeply,
    /// Memory that was refused.
    OutOfMemory,
}

impl From<AllocError> for EmitError {
    ghost from_gives = { λ _ e. e ≡ OutOfMemory };

    fn from(_error: AllocError) -> EmitError {
        EmitError::OutOfMemory
    }
}
