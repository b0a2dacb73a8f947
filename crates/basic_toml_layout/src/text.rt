//! Keys, strings and numbers as the text has them.
//!
//! A string without an escape is one copy, and another one is copied in the runs of bytes that stand for themselves.
ghost use Rattle.std.specs.Prelude.{◌≡◌, ℕ, ◌<◌, ◌/◌, ◌%◌, true, false, List, [], ◌∷◌, ◌++◌, IfOk, string_bytes, length, take, slice_index, decimal};
ghost use Rattle.std.specs.Fmt.{signed_decimal};
ghost use Rattle.std.specs.List.{list_all};
ghost use Rattle.basic_toml_layout.specs.Texts as texts;
ghost use Rattle.basic_toml_layout.specs.Texts.{quoted_byte, quoted_bytes, quoted, written_key, is_bare_key, written_numbers};

use crate::plain::are_plain;
use std::alloc::AllocError;

// What each byte is: `b` where it may stand in a bare key, `e` where it stands for something else than itself between
// quotes.
static CLASSES: [u8; 256] = *b"\
    eeeeeeeeeeeeeeeeeeeeeeeeeeeeeeee\
    ..e..........b..bbbbbbbbbb......\
    .bbbbbbbbbbbbbbbbbbbbbbbbbb.e..b\
    .bbbbbbbbbbbbbbbbbbbbbbbbbb....e\
    ................................\
    ................................\
    ................................\
    ................................";

// Whether a byte stands for something else than itself between quotes.
pub fn needs_escape(byte: u8) -> bool
    ensures { result ≡ texts.needs_escape byte }
{
    CLASSES[byte as usize] == b'e'
}

fn upper_digit(n: u8) -> char
    requires { n < 16 }
    ensures code { result ≡ texts.upper_digit n }
    ensures ascii { result < 128 }
{
    if n <= 9 {
        char::from(b'0' + n)
    } else {
        char::from(b'A' - 10 + n)
    }
}

/// Appends a byte that does not stand for itself.
#[inline(always)]
pub fn write_escape(text: &mut String, byte: u8) -> Result<(), AllocError>
    requires { texts.needs_escape byte ≡ true }
    ensures { IfOk result (λ _. string_bytes text.new ≡ string_bytes text.old ++ quoted_byte byte) }
{
    if byte == 0x08 {
        text.push_str("\\b")?;
    } else if byte == b'\t' {
        text.push_str("\\t")?;
    } else if byte == b'\n' {
        text.push_str("\\n")?;
    } else if byte == 0x0c {
        text.push_str("\\f")?;
    } else if byte == b'\r' {
        text.push_str("\\r")?;
    } else if byte == b'"' {
        text.push_str("\\\"")?;
    } else if byte == b'\\' {
        text.push_str("\\\\")?;
    } else {
        text.push_str("\\u00")?;
        text.push(upper_digit(byte / 16))?;
        text.push(upper_digit(byte % 16))?;
    }
    Ok(())
}

// A string between quotes.
#[inline(always)]
#[tactic(auto, using(crate::proofs::QuotedUpToEscape::quoted_whole))]
pub fn write_quoted(text: &mut String, value: &str) -> Result<(), AllocError>
    ensures { IfOk result (λ _. string_bytes text.new ≡ string_bytes text.old ++ quoted value.now) }
{
    text.push('"')?;
    write_bytes(text, value)?;
    text.push('"')
}

// What stands between the quotes.
#[inline(always)]
#[tactic(auto, using(crate::proofs::PlainBytes::plain_is))]
fn write_bytes(text: &mut String, value: &str) -> Result<(), AllocError>
    ensures { IfOk result (λ _. string_bytes text.new ≡ string_bytes text.old ++ quoted_bytes value.now) }
{
    if are_plain(value.as_bytes()) {
        text.push_str(value)
    } else {
        write_escaped(text, value)
    }
}

// The same, a run of bytes that stand for themselves after another.
#[inline(never)]
fn write_escaped(text: &mut String, value: &str) -> Result<(), AllocError>
    ensures { IfOk result (λ _. string_bytes text.new ≡ string_bytes text.old ++ quoted_bytes value.now) }
{
    let bytes = value.as_bytes();
    let mut written = 0;
    for (i, byte) in bytes.iter().enumerate() {
        if needs_escape(*byte) {
            text.push_str(&value[written..i])?;
            write_escape(text, *byte)?;
            written = i + 1;
        }
    }
    text.push_str(&value[written..])?;
    Ok(())
}

fn is_bare(byte: u8) -> bool
    ensures { result ≡ texts.is_bare byte }
{
    CLASSES[byte as usize] == b'b'
}

fn are_bare(bytes: &[u8]) -> bool
    ensures { result ≡ list_all texts.is_bare bytes.now }
{
    bytes.iter().all(|byte| is_bare(*byte))
}

/// Whether a key needs no quotes: it is not empty, and all of `A-Z a-z 0-9 - _` (TOML v0.5.0, "Keys").
#[tactic(auto, using(crate::proofs::QuotedUpToEscape::is_bare_key_some))]
pub fn is_bare_key(key: &str) -> bool
    ensures { result ≡ is_bare_key key.now }
{
    !key.is_empty() && are_bare(key.as_bytes())
}

/// Appends a key: bare where it can be, else between quotes.
pub fn write_key(text: &mut String, key: &str) -> Result<(), AllocError>
    ensures { IfOk result (λ _. string_bytes text.new ≡ string_bytes text.old ++ written_key key.now) }
{
    if is_bare_key(key) {
        text.push_str(key)
    } else {
        write_quoted(text, key)
    }
}

pub fn write_signed(text: &mut String, n: i64) -> Result<(), AllocError>
    ensures { IfOk result (λ _. string_bytes text.new ≡ string_bytes text.old ++ signed_decimal n) }
{
    if n < 0 {
        write!(text, "{n}")
    } else {
        write_unsigned(text, n.unsigned_abs())
    }
}

#[tactic(auto, using(std::proofs::lemmas::Fmt::decimal_digit))]
pub fn write_unsigned(text: &mut String, n: u64) -> Result<(), AllocError>
    ensures { IfOk result (λ _. string_bytes text.new ≡ string_bytes text.old ++ decimal n) }
{
    if n < 10 {
        text.push(char::from(b'0' + n as u8))
    } else {
        write!(text, "{n}")
    }
}

// The elements of an array of bytes.
pub fn write_numbers(text: &mut String, numbers: &[u8]) -> Result<(), AllocError>
    ensures { IfOk result (λ _. string_bytes text.new ≡ string_bytes text.old ++ written_numbers numbers.now) }
{
    for (i, number) in numbers.iter().enumerate() {
        if i > 0 {
            text.push_str(", ")?;
        }
        let n = *number;
        write!(text, "{n}")?;
    }
    Ok(())
}
