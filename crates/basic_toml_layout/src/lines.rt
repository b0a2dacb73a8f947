//! Strings of several lines.
ghost use Rattle.std.specs.Prelude.{◌≡◌, ◌<◌, ◌++◌, IfOk, string_bytes, drop, length};
ghost use Rattle.basic_toml_layout.specs.Pretty as p;
ghost use Rattle.basic_toml_layout.specs.Parts.{needs_line_escape};

use crate::text::{needs_escape, write_escape};
use std::alloc::AllocError;

/// Whether a line feed stands in it.
pub fn has_line_feed(value: &str) -> bool
    ensures { result ≡ p.has_line_feed value.now }
{
    value.as_bytes().iter().any(|byte| *byte == b'\n')
}

// Whether the byte at an offset stands for something else than itself.
fn needs_line_escape(bytes: &[u8], at: usize) -> bool
    requires { at < length bytes.now }
    ensures { result ≡ needs_line_escape (drop at bytes.now) }
{
    needs_escape(bytes[at]) && !stands_in_lines(bytes[at], &bytes[at + 1..])
}

// Whether a byte stands for itself before others.
fn stands_in_lines(byte: u8, rest: &[u8]) -> bool
    ensures { result ≡ p.stands_in_lines byte rest.now }
{
    byte == b'\n' || (byte == b'"' && is_apart(rest))
}

// Whether a byte follows that is no quotation mark.
fn is_apart(rest: &[u8]) -> bool
    ensures { result ≡ p.is_apart rest.now }
{
    match rest.first() {
        Some(byte) => *byte != b'"',
        None => false,
    }
}

/// A string between three quotation marks, after a line feed that is not part of it.
pub fn write_lines(text: &mut String, value: &str) -> Result<(), AllocError>
    ensures { IfOk result (λ _. string_bytes text.new ≡ string_bytes text.old ++ p.quoted_lines value.now) }
{
    text.push_str("\"\"\"\n")?;
    write_line_bytes(text, value)?;
    text.push_str("\"\"\"")
}

// What stands between the quotation marks, a run of bytes that stand for themselves after another.
fn write_line_bytes(text: &mut String, value: &str) -> Result<(), AllocError>
    ensures { IfOk result (λ _. string_bytes text.new ≡ string_bytes text.old ++ p.line_bytes value.now) }
{
    let bytes = value.as_bytes();
    let mut written = 0;
    for i in 0..bytes.len() {
        if needs_line_escape(bytes, i) {
            text.push_str(&value[written..i])?;
            write_escape(text, bytes[i])?;
            written = i + 1;
        }
    }
    text.push_str(&value[written..])?;
    Ok(())
}
