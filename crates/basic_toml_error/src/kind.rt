//! What an error is, and its message.
ghost use Rattle.std.specs.Prelude.{◌≡◌, Some, IfOk};
ghost use Rattle.basic_toml_error.specs.Fault.{reading};
ghost use Rattle.basic_toml_error.specs.FaultText.{message};
ghost use Rattle.basic_toml_error.specs.KindView.{kind_of};
ghost use Rattle.basic_toml_error.specs.Origins.{clash_of};
ghost use Rattle.basic_toml_explain.specs.Error as read;

use basic_toml_explain::ReadErrorKind;
use basic_toml_origin::ClashKind;
use basic_toml_write::WriteError;
use std::alloc::{AllocError, Global};
use std::fmt;
use std::marker::Model;

/// What is wrong, for a caller to match on. It prints as the error's message.
///
/// A repeated key, a level too deep, a type's own message and refused memory are kinds of reading and of writing.
///
/// ```text
/// match error.kind() {
///     ErrorKind::Reading(ReadErrorKind::DuplicateKey(key)) => format!(in alloc; "{key} stands twice"),
///     ErrorKind::Writing(WriteError::ValueAfterTable) => format!(in alloc; "rows go first"),
///     ErrorKind::UnknownField { key, .. } => format!(in alloc; "{key} is no setting"),
///     _ => format!(in alloc; "{}", error.message()),
/// }
/// ```
///
/// This is from `toml_vectors`.
#[derive(Debug, Drop)]
#[non_exhaustive]
pub enum ErrorKind {
    /// A text that is not read: an error of the grammar, a clash, or a type's own error. It owns its words.
    Reading(ReadErrorKind<String>),
    /// A table has a key that is none of the fields of its type.
    UnknownField {
        /// The key.
        key: String,
        /// It, and the fields: what is printed.
        message: String,
    },
    /// A value that is not written.
    Writing(WriteError),
    /// Bytes that are not UTF-8.
    NotUtf8,
}

impl ErrorKind {
    /// What clashes, if something does. A repeated key is one kind, read or written.
    pub(crate) fn clash(&self) -> Option<ClashKind>
        ensures { result ≡ clash_of (kind_of self.now) }
    {
        match self {
            ErrorKind::Reading(kind) => ClashKind::of(kind),
            ErrorKind::Writing(WriteError::DuplicateKey(_)) => Some(ClashKind::Key),
            _ => None,
        }
    }

    /// The kind of an error of reading, its words copied.
    pub(crate) fn of_reading(alloc: Global, kind: &ReadErrorKind) -> Result<ErrorKind, AllocError>
        ensures { IfOk result (λ copy. kind_of copy ≡ reading (read.kind_of kind.now)) }
    {
        Ok(ErrorKind::Reading(match kind {
            ReadErrorKind::InvalidCharInString(c) => ReadErrorKind::InvalidCharInString(*c),
            ReadErrorKind::InvalidEscape(c) => ReadErrorKind::InvalidEscape(*c),
            ReadErrorKind::InvalidHexEscape(c) => ReadErrorKind::InvalidHexEscape(*c),
            ReadErrorKind::InvalidEscapeValue(n) => ReadErrorKind::InvalidEscapeValue(*n),
            ReadErrorKind::NewlineInString => ReadErrorKind::NewlineInString,
            ReadErrorKind::Unexpected(c) => ReadErrorKind::Unexpected(*c),
            ReadErrorKind::UnterminatedString => ReadErrorKind::UnterminatedString,
            ReadErrorKind::NewlineInTableKey => ReadErrorKind::NewlineInTableKey,
            ReadErrorKind::MultilineStringKey => ReadErrorKind::MultilineStringKey,
            ReadErrorKind::Wanted { expected, found } => ReadErrorKind::Wanted {
                expected: String::from_str(alloc, expected)?,
                found: String::from_str(alloc, found)?,
            },
            ReadErrorKind::UnexpectedEof => ReadErrorKind::UnexpectedEof,
            ReadErrorKind::NumberInvalid => ReadErrorKind::NumberInvalid,
            ReadErrorKind::UnquotedString => ReadErrorKind::UnquotedString,
            ReadErrorKind::DottedKeyInvalidType => ReadErrorKind::DottedKeyInvalidType,
            ReadErrorKind::DuplicateKey(key) => {
                ReadErrorKind::DuplicateKey(String::from_str(alloc, key.as_str())?)
            }
            ReadErrorKind::DuplicateTable(name) => {
                ReadErrorKind::DuplicateTable(String::from_str(alloc, name.as_str())?)
            }
            ReadErrorKind::RedefineAsArray => ReadErrorKind::RedefineAsArray,
            ReadErrorKind::NestedTooDeeply => ReadErrorKind::NestedTooDeeply,
            ReadErrorKind::Custom(message) => {
                ReadErrorKind::Custom(String::from_str(alloc, message.as_str())?)
            }
            ReadErrorKind::OutOfMemory => ReadErrorKind::OutOfMemory,
        }))
    }
}

impl fmt::Display for ErrorKind {
    ghost output = { λ kind. Some (message (kind_of kind)) };

    #[tactic(auto, using(crate::proofs::WrittenTexts::written_message))]
    fn fmt<W: fmt::Write>(&self, f: &mut fmt::Formatter<W>) -> fmt::Result {
        match self {
            ErrorKind::Reading(kind) => write!(f, "{kind}"),
            ErrorKind::Writing(error) => write!(f, "{error}"),
            ErrorKind::NotUtf8 => write!(f, "input is not valid UTF-8"),
            ErrorKind::UnknownField { message, .. } => write!(f, "{message}"),
        }
    }
}

/// The message of an error: its text without the keys and the place. It takes no memory.
#[derive(Drop)]
pub struct Message<'a>(pub(crate) &'a ErrorKind);

impl<'a> Model for Message<'a> {
    ghost use Rattle.std.specs.Prelude.{ℕ, List};
    ghost use Rattle.basic_toml_error.specs.FaultText.{message};
    ghost use Rattle.basic_toml_error.specs.KindView.{kind_of};

    ghost Value = { List ℕ };

    ghost view = { λ m. message (kind_of m.0.now) };
}

impl<'a> fmt::Display for Message<'a> {
    ghost output = { λ text. Some text };

    fn fmt<W: fmt::Write>(&self, f: &mut fmt::Formatter<W>) -> fmt::Result {
        write!(f, "{}", self.0)
    }
}
