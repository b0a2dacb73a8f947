//! What stands for a text in a case file: escapes, and pieces that stand many times.
use std::alloc::{AllocError, Global};

// `\*TIMES(BODY)`, what stands before it and what follows.
#[derive(Clone, Copy)]
struct Repetition<'t> {
    before: &'t str,
    times: usize,
    body: &'t str,
    rest: &'t str,
}

// Where the bracket stands that closes a body; brackets in it stand in pairs.
fn end_of_body(text: &str) -> Option<usize> {
    let mut open = 0usize;
    for (at, c) in text.char_indices() {
        if c == '(' {
            open = open.saturating_add(1);
        } else if c == ')' {
            if open == 0 {
                return Some(at);
            }
            open -= 1;
        }
    }
    None
}

fn first_repetition(text: &str) -> Option<Repetition<'_>> {
    let (before, after) = text.split_once("\\*")?;
    let (times, after) = after.split_once('(')?;
    let times = times.parse::<usize>().ok()?;
    let end = end_of_body(after)?;
    Some(Repetition {
        before,
        times,
        body: after.get(..end)?,
        rest: after.get(end.saturating_add(1)..)?,
    })
}

// A body, with the number of its repetition for each `#`.
fn push_body(out: &mut String, body: &str, number: usize) -> Result<(), AllocError> {
    for (at, piece) in body.split('#').enumerate() {
        if at > 0 {
            write!(out, "{number}")?;
        }
        out.push_str(piece)?;
    }
    Ok(())
}

// The text with each outermost repetition written out.
fn repeat(alloc: Global, text: &str) -> Result<String, AllocError> {
    let mut out = String::new(alloc);
    let mut left = text;
    for _ in 0..text.len() {
        let Some(part) = first_repetition(left) else {
            break;
        };
        out.push_str(part.before)?;
        for number in 0..part.times {
            push_body(&mut out, part.body, number)?;
        }
        left = part.rest;
    }
    out.push_str(left)?;
    Ok(out)
}

/// The text with its repetitions written out, those in others too, and its escapes as they stand.
pub(crate) fn spread(alloc: Global, text: &str) -> Result<String, AllocError> {
    let outer = repeat(alloc, text)?;
    repeat(alloc, outer.as_str())
}

fn number_in_hex(digits: &str) -> Option<u32> {
    let mut number = 0u32;
    for c in digits.chars() {
        number = number.checked_mul(16)?.checked_add(c.to_digit(16)?)?;
    }
    Some(number)
}

fn push_char(alloc: Global, out: &mut Vec<u8>, c: char) -> Result<(), AllocError> {
    let text = format!(in alloc; "{c}")?;
    out.extend_from_slice(text.as_bytes())
}

// `u{..}`: a character, and what follows it.
fn char_of(part: &str) -> Option<(char, &str)> {
    let (digits, rest) = part.strip_prefix("u{")?.split_once('}')?;
    Some((char::from_u32(number_in_hex(digits)?)?, rest))
}

// `x..`: a byte of two digits, and what follows it.
fn byte_of(part: &str) -> Option<(u8, &str)> {
    let digits = part.strip_prefix("x")?;
    let number = number_in_hex(digits.get(..2)?)?;
    let byte = u8::try_from(number).ok()?;
    Some((byte, digits.get(2..)?))
}

// What stands after a backslash: its escape, and then what is no part of it. What is no escape stands as it is.
fn push_escape(alloc: Global, out: &mut Vec<u8>, part: &str) -> Result<(), AllocError> {
    for (letter, byte) in [("n", b'\n'), ("r", b'\r'), ("t", b'\t')] {
        if let Some(rest) = part.strip_prefix(letter) {
            out.push(byte)?;
            return out.extend_from_slice(rest.as_bytes());
        }
    }
    if let Some((c, rest)) = char_of(part) {
        push_char(alloc, out, c)?;
        return out.extend_from_slice(rest.as_bytes());
    }
    if let Some((byte, rest)) = byte_of(part) {
        out.push(byte)?;
        return out.extend_from_slice(rest.as_bytes());
    }
    out.push(b'\\')?;
    out.extend_from_slice(part.as_bytes())
}

/// The bytes that stand for themselves once their escapes are read.
pub(crate) fn unescape(alloc: Global, text: &str) -> Result<Vec<u8>, AllocError> {
    let mut out = Vec::new(alloc);
    let mut is_plain = true;
    for part in text.split('\\') {
        if is_plain {
            out.extend_from_slice(part.as_bytes())?;
            is_plain = false;
        } else if part.is_empty() {
            out.push(b'\\')?;
            is_plain = true;
        } else {
            push_escape(alloc, &mut out, part)?;
        }
    }
    Ok(out)
}

/// The bytes of a text of a case file.
pub fn bytes_of(alloc: Global, text: &str) -> Result<Vec<u8>, AllocError> {
    let long = spread(alloc, text)?;
    unescape(alloc, long.as_str())
}

/// Appends a text on one line, as a case file has it.
pub(crate) fn push_escaped(out: &mut String, text: &str) -> Result<(), AllocError> {
    for c in text.chars() {
        match c {
            '\\' => out.push_str("\\\\")?,
            '\n' => out.push_str("\\n")?,
            '\r' => out.push_str("\\r")?,
            '\t' => out.push_str("\\t")?,
            c if c.is_control() || c == '\u{feff}' => {
                let number = u32::from(c);
                write!(out, "\\u{{{number:x}}}")?;
            }
            c => out.push(c)?,
        }
    }
    Ok(())
}
