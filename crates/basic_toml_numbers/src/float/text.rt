//! The text of a float in canonical form. A short one stands in place, so that most take no memory of their own.
ghost use Rattle.std.specs.Prelude.{◌≡◌, ◌≤◌, IfOk, length, take, string_bytes};
ghost use Rattle.std.specs.List.{list_all};
ghost use Rattle.std.specs.Str.{IsAscii, IsUtf8};
ghost use Rattle.basic_toml_numbers.specs.Numbers as spec;

use std::alloc::{AllocError, Global};
use std::{fmt, str};

// How many bytes a text has at most that stands in place: with these it is as large as a `String`.
const ROOM: usize = 22;

// A text of at most `ROOM` bytes.
#[derive(Clone, Copy)]
pub(crate) struct Short {
    len: u8,
    bytes: [u8; 22],
    ghost fits: { len ≤ 22 },
    ghost text: { ∥ IsUtf8 (take len bytes) ∥₁ },
}

impl Short {
    ghost use Rattle.basic_toml_numbers.specs.FloatText.{short_bytes};

    // The canonical form of a text.
    #[inline]
    fn canonical(text: &str) -> Short
        requires ascii { IsAscii text.now }
        requires fits { length text.now ≤ 22 }
        ensures { short_bytes result ≡ spec.canonical text.now }
    {
        let mut bytes = [0; ROOM];
        let mut len = 0;
        for byte in text.as_bytes() {
            if *byte != b'+' && *byte != b'_' {
                bytes[len] = if *byte == b'e' { b'E' } else { *byte };
                len += 1;
            }
        }
        Short {
            len: len as u8,
            bytes,
        }
    }

    #[inline]
    fn as_str(&self) -> &str
        ensures { result.now ≡ short_bytes self.now }
    {
        unsafe { str::from_utf8_unchecked(&self.bytes[..self.len as usize]) }
    }
}

/// The text of a float. Few are longer than a short one, so these are boxed: a float is as large as a `String`, and
/// nothing that holds either is larger for it.
#[derive(Drop)]
pub(crate) enum FloatText {
    /// In place.
    Short(Short),
    /// In memory of its own.
    Long(Box<String>),
}

impl FloatText {
    ghost use Rattle.basic_toml_numbers.specs.FloatText.{text_bytes};

    /// The canonical form of a text: without plus signs and underscores, with `E` for `e`.
    ///
    /// # Errors
    ///
    /// `AllocError` where memory for a text of more than 22 bytes was refused.
    pub(crate) fn canonical(alloc: Global, text: &str) -> Result<FloatText, AllocError>
        requires { IsAscii text.now }
        ensures { IfOk result (λ kept. text_bytes kept ≡ spec.canonical text.now) }
    {
        if text.len() <= ROOM {
            return Ok(FloatText::Short(Short::canonical(text)));
        }
        let text = canonical_string(alloc, text)?;
        Ok(FloatText::Long(Box::new(alloc, text)?))
    }

    /// The text.
    #[inline]
    pub(crate) fn as_str(&self) -> &str
        ensures { result.now ≡ text_bytes self.now }
    {
        match self {
            FloatText::Short(text) => text.as_str(),
            FloatText::Long(text) => text.as_str(),
        }
    }

    /// A copy.
    ///
    /// # Errors
    ///
    /// `AllocError` where memory for a text that is not in place was refused.
    pub(crate) fn clone(&self) -> Result<FloatText, AllocError>
        ensures { IfOk result (λ copy. text_bytes copy ≡ text_bytes self.now) }
    {
        match self {
            FloatText::Short(text) => Ok(FloatText::Short(*text)),
            FloatText::Long(text) => {
                let alloc = *text.allocator();
                let copy = String::from_str(alloc, text.as_str())?;
                Ok(FloatText::Long(Box::new(alloc, copy)?))
            }
        }
    }
}

impl fmt::Debug for FloatText {
    fn fmt<W: fmt::Write>(&self, f: &mut fmt::Formatter<W>) -> fmt::Result {
        fmt::Debug::fmt(&self.as_str(), f)
    }
}

// Whether a byte is neither left out of the canonical text nor changed in it.
fn stays(byte: u8) -> bool
    ensures { result ≡ spec.stays byte }
{
    byte != b'+' && byte != b'_' && byte != b'e'
}

fn all_stay(text: &[u8]) -> bool
    ensures { result ≡ list_all spec.stays text.now }
{
    text.iter().all(|byte| stays(*byte))
}

// The canonical form of a text of any length.
#[tactic(auto, using(crate::proofs::Canonical::canonical_of_staying))]
fn canonical_string(alloc: Global, text: &str) -> Result<String, AllocError>
    requires { IsAscii text.now }
    ensures { IfOk result (λ kept. string_bytes kept ≡ spec.canonical text.now) }
{
    if all_stay(text.as_bytes()) {
        return String::from_str(alloc, text);
    }
    let mut kept = String::with_capacity(alloc, text.len())?;
    for byte in text.as_bytes() {
        if *byte != b'+' && *byte != b'_' {
            kept.push(if *byte == b'e' { 'E' } else { *byte as char })?;
        }
    }
    Ok(kept)
}
