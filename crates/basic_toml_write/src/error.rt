//! Why a value is not written.
ghost use Rattle.std.specs.Prelude.{◌≡◌, ◌⊎◌, Result};
ghost use Rattle.basic_toml_emit.specs.Open.{State};
ghost use Rattle.basic_toml_emit.specs.Rules.{CallFault, key_of};
ghost use Rattle.basic_toml_emit.specs.Error.{Meets};
ghost use Rattle.basic_toml_emit.specs.Emitter.{state_of};
ghost use Rattle.basic_toml_emit.specs.declared.error.EmitError.TheVariants as emit;
ghost use Rattle.basic_toml_write.specs.Error.{Names};
ghost use Rattle.basic_toml_write.specs.declared.error.WriteError.TheVariants as write;

use basic_toml_emit::{EmitError, Emitter};
use std::alloc::{AllocError, Global};
use std::fmt;

/// Why a value was not written. No error has an offset.
///
/// Its text is the message of the `Error` that it becomes: ``duplicate key: `a` `` for `DuplicateKey("a")`.
#[derive(Debug, Drop)]
pub enum WriteError {
    /// A kind of value that the text has no form for where it stands: a root that is no table, a table and a non-table
    /// in one array, a table in an array of an array, a unit, a variant that holds data, an integer above
    /// 9223372036854775807.
    UnsupportedType,
    /// A key that is not a text.
    KeyNotString,
    /// A value after a table or a non-empty array of tables of the same table.
    ValueAfterTable,
    /// An absent option at the root or in an array.
    UnsupportedNone,
    /// A type's own error, with its message.
    Custom(String),
    /// A second present entry under this key of one table.
    DuplicateKey(String),
    /// A call that may not stand where it came.
    CallOrder,
    /// An array or a table within [`NESTING_LIMIT`](basic_toml_value::NESTING_LIMIT) others.
    NestedTooDeeply,
    /// Memory that was refused.
    OutOfMemory,
}

impl std::error::Error for WriteError {}

impl fmt::Display for WriteError {
    ghost use Rattle.std.specs.Prelude.{Some};
    ghost use Rattle.basic_toml_write.specs.ErrorText.{error_text};

    ghost output = { λ error. Some (error_text error) };

    fn fmt<W: fmt::Write>(&self, f: &mut fmt::Formatter<W>) -> fmt::Result {
        match self {
            WriteError::UnsupportedType => write!(f, "unsupported Rust type"),
            WriteError::KeyNotString => write!(f, "map key was not a string"),
            WriteError::ValueAfterTable => write!(f, "values must be emitted before tables"),
            WriteError::UnsupportedNone => write!(f, "unsupported None value"),
            WriteError::Custom(message) => write!(f, "{message}"),
            WriteError::DuplicateKey(key) => write!(f, "duplicate key: `{key}`"),
            WriteError::CallOrder => write!(f, "serializer calls out of order"),
            WriteError::NestedTooDeeply => write!(f, "nested too deeply"),
            WriteError::OutOfMemory => write!(f, "out of memory"),
        }
    }
}

impl From<AllocError> for WriteError {
    ghost use Rattle.std.specs.Prelude.{◌≡◌};
    ghost use Rattle.basic_toml_write.specs.declared.error.WriteError.TheVariants.{OutOfMemory};

    ghost from_gives = { λ _ e. e ≡ OutOfMemory };

    fn from(_error: AllocError) -> WriteError {
        WriteError::OutOfMemory
    }
}

impl WriteError {
    ghost use Rattle.basic_toml_write.specs.Error.{IsCustom};

    /// A type's own error. `OutOfMemory` where the message finds no memory.
    pub fn custom(alloc: Global, message: &str) -> WriteError
        ensures { IsCustom message.now result }
    {
        match String::from_str(alloc, message) {
            Ok(copy) => WriteError::Custom(copy),
            Err(_) => WriteError::OutOfMemory,
        }
    }
}

// What the emitter answered, with the key where it is repeated. `OutOfMemory` where the key finds no memory.
pub fn named(error: EmitError, emitter: &Emitter, alloc: Global) -> WriteError
    ensures names { (x : Result State CallFault) → Meets error (key_of (state_of emitter.now).open_frames) x
        → Names result x }
    ensures memory { result ≡ write.OutOfMemory → (error ≡ emit.OutOfMemory) ⊎ (error ≡ emit.DuplicateKey) }
{
    match error {
        EmitError::UnsupportedType => WriteError::UnsupportedType,
        EmitError::KeyNotString => WriteError::KeyNotString,
        EmitError::ValueAfterTable => WriteError::ValueAfterTable,
        EmitError::UnsupportedNone => WriteError::UnsupportedNone,
        EmitError::DuplicateKey => match String::from_str(alloc, emitter.key_set()) {
            Ok(key) => WriteError::DuplicateKey(key),
            Err(_) => WriteError::OutOfMemory,
        },
        EmitError::CallOrder => WriteError::CallOrder,
        EmitError::NestedTooDeeply => WriteError::NestedTooDeeply,
        EmitError::OutOfMemory => WriteError::OutOfMemory,
    }
}
