//! Values without parts.
ghost use Rattle.std.specs.Prelude.{◌≡◌, ℕ, ◌++◌, IfOk, string_bytes};
ghost use Rattle.basic_toml_layout.specs.Written as w;
ghost use Rattle.basic_toml_layout.specs.Texts.{written_scalar};

use crate::text::{write_numbers, write_quoted, write_signed, write_unsigned};
use std::alloc::AllocError;

/// A value without parts of its own, as a call brings it.
#[derive(Clone, Copy)]
pub enum Scalar<'a> {
    /// An integer.
    Signed(i64),
    /// An integer; refused above 9223372036854775807.
    Unsigned(u64),
    /// A boolean.
    Boolean(bool),
    /// A float by its canonical text.
    Float(&'a str),
    /// A text, which may be a key.
    Text(&'a str),
    /// A text that may not be a key.
    OtherText(&'a str),
    /// An array of integers.
    Bytes(&'a [u8]),
    /// What the text has no form for.
    Refused,
}

impl<'a> Scalar<'a> {
    ghost use Rattle.basic_toml_layout.specs.Scalar.{scalar_of};

    /// Whether the text has no form for it.
    pub fn is_refused(self) -> bool
        ensures { result ≡ w.is_refused (scalar_of self.entry) }
    {
        match self {
            Scalar::Unsigned(n) => n >= 1 << 63,
            Scalar::Refused => true,
            _ => false,
        }
    }

    /// Whether it is an array of integers.
    pub fn is_bytes(self) -> bool
        ensures { result ≡ w.is_bytes (scalar_of self.entry) }
    {
        match self {
            Scalar::Bytes(_) => true,
            _ => false,
        }
    }

    /// Appends the text of a value in a row; of a refused one, nothing.
    #[inline(always)]
    pub fn write(self, text: &mut String) -> Result<(), AllocError>
        ensures { IfOk result (λ _. string_bytes text.new ≡ string_bytes text.old
            ++ written_scalar (scalar_of self.entry)) }
    {
        match self {
            Scalar::Signed(n) => write_signed(text, n),
            Scalar::Unsigned(n) => write_unsigned(text, n),
            Scalar::Boolean(true) => text.push_str("true"),
            Scalar::Boolean(false) => text.push_str("false"),
            Scalar::Float(float) => text.push_str(float),
            Scalar::Text(value) => write_quoted(text, value),
            Scalar::OtherText(value) => write_quoted(text, value),
            Scalar::Bytes(bytes) => {
                text.push_str("[")?;
                write_numbers(text, bytes)?;
                text.push_str("]")
            }
            Scalar::Refused => Ok(()),
        }
    }
}
