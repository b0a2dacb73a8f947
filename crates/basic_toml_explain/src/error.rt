//! The error of a text that is not read: what it is, its offset, and the keys that lead to it.
ghost use Rattle.std.specs.Prelude.{◌≡◌, map, string_bytes};
ghost use Rattle.basic_toml_explain.specs.Error.{kind_of, fault_within};

use crate::key_path::KeyPath;
use std::alloc::AllocError;
use std::fmt;
use std::marker::Model;

/// The kind of an error of reading: what is wrong.
///
/// Its words are constants, but in a copy that owns them, a `ReadErrorKind<String>`. It prints as what is wrong:
/// `DuplicateKey("a")` as ``duplicate key: `a` ``.
#[derive(Debug, Drop)]
pub enum ReadErrorKind<Word = &'static str> {
    /// A control character in a string.
    InvalidCharInString(char),
    /// A character after a backslash that begins no escape.
    InvalidEscape(char),
    /// A character of `\u` or `\U` that is no hexadecimal digit.
    InvalidHexEscape(char),
    /// The number of `\u` or `\U` that is no character.
    InvalidEscapeValue(u32),
    /// A line feed in a one-line string.
    NewlineInString,
    /// A character that begins no token.
    Unexpected(char),
    /// A string that the text ends in.
    UnterminatedString,
    /// A line feed in a key. No call answers it, since no one-line string holds one.
    NewlineInTableKey,
    /// A multiline string where a key is wanted.
    MultilineStringKey,
    /// Another thing than what is wanted.
    Wanted {
        /// What was wanted.
        expected: Word,
        /// What was found, `eof` for the end of the text.
        found: Word,
    },
    /// The text ends where a value is wanted.
    UnexpectedEof,
    /// A number that is none, or that lies outside `i64`.
    NumberInvalid,
    /// A bare word where a value is wanted.
    UnquotedString,
    /// A dotted key that goes on from a row of the same section or inline table.
    DottedKeyInvalidType,
    /// The second occurrence of this key.
    DuplicateKey(String),
    /// The second header of this path, its keys joined by periods.
    DuplicateTable(String),
    /// An array of tables at a table.
    RedefineAsArray,
    /// A key or a bracket within [`NESTING_LIMIT`](basic_toml_value::NESTING_LIMIT) others.
    NestedTooDeeply,
    /// A type's own error, with its message. An `Error` of `basic_toml_error` holds it. No call that reads a text
    /// alone answers it.
    Custom(String),
    /// Memory that was refused.
    OutOfMemory,
}

/// Why a text was not read: the error, its offset, and the keys that lead there.
///
/// Its text says what is wrong, and then the keys, if there are any. It has no line and no column, which only the text
/// that was read can tell: `Error::in_text` of `basic_toml_error` makes an error whose text goes on with them.
///
/// ```text
/// let Err(error) = resolve(alloc, sections(alloc, "[a]\nb = 1\nb = 2\n")?) else { .. };
/// format!(in alloc; "{error}")?; // duplicate key: `b` for key `a`
/// ```
#[derive(Debug, Drop)]
pub struct ReadError {
    kind: ReadErrorKind,
    offset: Option<usize>,
    // `None`, or a list without keys, where no key leads there
    key_path: Option<Vec<String>>,
}

impl Model for ReadError {
    ghost use Rattle.basic_toml_grammar.specs.Faults.{Fault};
    ghost use Rattle.basic_toml_explain.specs.Error.{fault_of};

    ghost Value = { Fault };

    ghost view = { fault_of };
}

impl std::error::Error for ReadError {}

impl fmt::Display for ReadError {
    ghost use Rattle.std.specs.Prelude.{Some};
    ghost use Rattle.basic_toml_explain.specs.ReadErrorText.{read_text};

    ghost output = { λ error. Some (read_text error) };

    fn fmt<W: fmt::Write>(&self, f: &mut fmt::Formatter<W>) -> fmt::Result {
        let kind = &self.kind;
        write!(f, "{kind}{}", KeyPath(self.key_path()))
    }
}

impl ReadError {
    ghost use Rattle.std.specs.Prelude.{Some, []};
    ghost use Rattle.basic_toml_grammar.specs.Faults.{wanted};
    ghost use Rattle.basic_toml_grammar.specs.GrammarFaults.{fault_at};

    /// What it is.
    pub fn kind(&self) -> &ReadErrorKind
        ensures { kind_of result.now ≡ self.now.kind }
    {
        &self.kind
    }

    /// The byte offset where it stands, if it has an offset.
    pub fn place(&self) -> Option<usize>
        ensures { result ≡ self.now.offset }
    {
        self.offset
    }

    /// The keys that lead to it: those of the section, and the first key of the row. Errors of clashes alone have any.
    pub fn key_path(&self) -> &[String]
        ensures { map string_bytes result.now ≡ self.now.key_path }
    {
        match &self.key_path {
            Some(keys) => keys.as_slice(),
            None => &[],
        }
    }

    /// An error that stands at an offset, without a key path.
    pub fn at(offset: usize, kind: ReadErrorKind) -> ReadError
        ensures { result ≡ fault_at (kind_of kind.entry) offset }
    {
        ReadError {
            kind,
            offset: Some(offset),
            key_path: None,
        }
    }

    // Another thing stands at an offset than what is wanted there.
    pub(crate) fn wanted_at(offset: usize, expected: &'static str, found: &'static str) -> ReadError
        ensures { result ≡ fault_at (wanted expected.now found.now) offset }
    {
        ReadError::at(offset, ReadErrorKind::Wanted { expected, found })
    }

    /// An error that stands at an offset, within these keys.
    pub fn within(offset: usize, kind: ReadErrorKind, keys: Vec<String>) -> ReadError
        ensures { result ≡ fault_within (kind_of kind.entry) offset (map string_bytes keys.items) }
    {
        let mut error = ReadError::at(offset, kind);
        error.key_path = Some(keys);
        error
    }
}

impl From<AllocError> for ReadError {
    ghost use Rattle.basic_toml_explain.specs.Error.{want_of_memory};

    ghost from_gives = { λ _ error. error ≡ want_of_memory };

    fn from(_error: AllocError) -> ReadError {
        ReadError {
            kind: ReadErrorKind::OutOfMemory,
            offset: None,
            key_path: None,
        }
    }
}

impl From<basic_toml_tokens::Error> for ReadError {
    ghost use Rattle.basic_toml_explain.specs.Error.{token_fault};

    ghost from_gives = { λ fault error. error ≡ token_fault fault };

    fn from(fault: basic_toml_tokens::Error) -> ReadError {
        use basic_toml_tokens::Error;
        match fault {
            Error::InvalidCharInString(at, c) => {
                ReadError::at(at, ReadErrorKind::InvalidCharInString(c))
            }
            Error::InvalidEscape(at, c) => ReadError::at(at, ReadErrorKind::InvalidEscape(c)),
            Error::InvalidHexEscape(at, c) => ReadError::at(at, ReadErrorKind::InvalidHexEscape(c)),
            Error::InvalidEscapeValue(at, n) => {
                ReadError::at(at, ReadErrorKind::InvalidEscapeValue(n))
            }
            Error::NewlineInString(at) => ReadError::at(at, ReadErrorKind::NewlineInString),
            Error::Unexpected(at, c) => ReadError::at(at, ReadErrorKind::Unexpected(c)),
            Error::UnterminatedString(at) => ReadError::at(at, ReadErrorKind::UnterminatedString),
            Error::NewlineInTableKey(at) => ReadError::at(at, ReadErrorKind::NewlineInTableKey),
            Error::MultilineStringKey(at) => ReadError::at(at, ReadErrorKind::MultilineStringKey),
            Error::Wanted {
                at,
                expected,
                found,
            } => ReadError::at(at, ReadErrorKind::Wanted { expected, found }),
            Error::OutOfMemory => ReadError {
                kind: ReadErrorKind::OutOfMemory,
                offset: None,
                key_path: None,
            },
        }
    }
}
