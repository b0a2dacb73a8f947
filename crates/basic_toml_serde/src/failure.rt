//! Why an event failed, in a word.
use std::alloc::AllocError;

/// An answer of an event is small: the error itself is kept where it was met.
#[derive(Clone, Copy, Drop)]
pub(crate) enum Failure {
    OutOfMemory,
    /// A value stands where the members of a map would come.
    Unsupported,
    /// The serializer keeps the error.
    Refused,
    /// The writer keeps the error, which is a type's own.
    Custom,
}

impl From<AllocError> for Failure {
    fn from(_error: AllocError) -> Failure {
        Failure::OutOfMemory
    }
}
