//! An error that is answered once more.
ghost use Rattle.basic_toml_write.specs.Again.{IsSame, IsAgain};

use crate::WriteError;
use std::alloc::Global;

// The same error once more. `OutOfMemory` where the key finds no memory, and for a type's own, which is never kept.
pub fn again(error: &WriteError, alloc: Global) -> WriteError
    ensures { IsAgain error.now result }
{
    match error {
        WriteError::UnsupportedType => WriteError::UnsupportedType,
        WriteError::KeyNotString => WriteError::KeyNotString,
        WriteError::ValueAfterTable => WriteError::ValueAfterTable,
        WriteError::UnsupportedNone => WriteError::UnsupportedNone,
        WriteError::Custom(_) => WriteError::OutOfMemory,
        WriteError::DuplicateKey(key) => match String::from_str(alloc, key.as_str()) {
            Ok(copy) => WriteError::DuplicateKey(copy),
            Err(_) => WriteError::OutOfMemory,
        },
        WriteError::CallOrder => WriteError::CallOrder,
        WriteError::NestedTooDeeply => WriteError::NestedTooDeeply,
        WriteError::OutOfMemory => WriteError::OutOfMemory,
    }
}

// An error to keep, and the same to answer. Both are `OutOfMemory` where the key finds no memory.
pub fn twice(error: WriteError, alloc: Global) -> (WriteError, WriteError)
    ensures kept { IsAgain error result.0 }
    ensures same { IsSame result.0 result.1 }
{
    match again(&error, alloc) {
        WriteError::OutOfMemory => (WriteError::OutOfMemory, WriteError::OutOfMemory),
        answer => (error, answer),
    }
}
