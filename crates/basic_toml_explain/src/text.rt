//! How an error of reading prints: the text of each kind.
ghost use Rattle.std.specs.Prelude.{Some};
ghost use Rattle.basic_toml_explain.specs.Error.{kind_by};
ghost use Rattle.basic_toml_explain.specs.ReadErrorText.{escaped, message};

use crate::error::ReadErrorKind;
use std::convert::AsStr;
use std::fmt;

// A character, escaped where it does not print.
#[derive(Clone, Copy)]
struct Escaped(char);

impl fmt::Display for Escaped {
    ghost output = { λ c. Some (escaped c.0) };

    fn fmt<W: fmt::Write>(&self, f: &mut fmt::Formatter<W>) -> fmt::Result {
        match self.0 {
            '\t' => f.write_str("\\t"),
            '\r' => f.write_str("\\r"),
            '\n' => f.write_str("\\n"),
            '\'' => f.write_str("\\'"),
            '"' => f.write_str("\\\""),
            '\\' => f.write_str("\\\\"),
            ' '..='~' => f.write_char(self.0),
            c => write!(f, "\\u{{{:x}}}", c as u32),
        }
    }
}

impl<Word: AsStr> fmt::Display for ReadErrorKind<Word> {
    ghost output = { λ kind. Some (message (kind_by Word.AsStr.text kind)) };

    fn fmt<W: fmt::Write>(&self, f: &mut fmt::Formatter<W>) -> fmt::Result {
        match self {
            ReadErrorKind::InvalidCharInString(c) => {
                write!(f, "invalid character in string: `{}`", Escaped(*c))
            }
            ReadErrorKind::InvalidEscape(c) => {
                write!(f, "invalid escape character in string: `{}`", Escaped(*c))
            }
            ReadErrorKind::InvalidHexEscape(c) => {
                write!(
                    f,
                    "invalid hex escape character in string: `{}`",
                    Escaped(*c)
                )
            }
            ReadErrorKind::InvalidEscapeValue(n) => write!(f, "invalid escape value: `{n}`"),
            ReadErrorKind::NewlineInString => write!(f, "newline in string found"),
            ReadErrorKind::Unexpected(c) => {
                write!(f, "unexpected character found: `{}`", Escaped(*c))
            }
            ReadErrorKind::UnterminatedString => write!(f, "unterminated string"),
            ReadErrorKind::NewlineInTableKey => write!(f, "found newline in table key"),
            ReadErrorKind::MultilineStringKey => {
                write!(f, "multiline strings are not allowed for key")
            }
            ReadErrorKind::Wanted { expected, found } => {
                write!(
                    f,
                    "expected {}, found {}",
                    expected.as_str(),
                    found.as_str()
                )
            }
            ReadErrorKind::UnexpectedEof => write!(f, "unexpected eof encountered"),
            ReadErrorKind::NumberInvalid => write!(f, "invalid number"),
            ReadErrorKind::UnquotedString => {
                write!(
                    f,
                    "invalid TOML value, did you mean to use a quoted string?"
                )
            }
            ReadErrorKind::DottedKeyInvalidType => {
                write!(f, "dotted key attempted to extend non-table type")
            }
            ReadErrorKind::DuplicateKey(key) => write!(f, "duplicate key: `{key}`"),
            ReadErrorKind::DuplicateTable(name) => write!(f, "redefinition of table `{name}`"),
            ReadErrorKind::RedefineAsArray => write!(f, "table redefined as array"),
            ReadErrorKind::NestedTooDeeply => write!(f, "nested too deeply"),
            ReadErrorKind::Custom(message) => write!(f, "{message}"),
            ReadErrorKind::OutOfMemory => write!(f, "out of memory"),
        }
    }
}
