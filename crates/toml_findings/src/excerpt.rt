//! A line of a text, and what stands below it.
ghost use Rattle.std.specs.Prelude.{◌≡◌, ◌≤◌, ◌++◌, IfOk, map, length, take, drop, string_bytes, encode_utf8_all};
ghost use Rattle.std.specs.Str.{chars};
ghost use Rattle.toml_findings.specs.Excerpt as spec;

use std::alloc::{AllocError, Global};

// How many characters of a line are shown before the place, and from it on.
const SHOWN_BEFORE: usize = 60;

const SHOWN_AFTER: usize = 40;

/// A line, cut around a place where it is long, and what stands below it: a caret below the place.
#[derive(Drop)]
pub struct Excerpt {
    pub source: String,
    pub caret: String,
}

/// The line of that number, counted from 0; an empty one behind the last line feed.
pub fn line_of(text: &str, number: usize) -> &str
    ensures { result.now ≡ spec.line_of text.now number }
{
    text.lines().nth(number).unwrap_or("")
}

// A character as it is shown: a control character other than a tab as the replacement character.
fn shown(c: char) -> char
    ensures { result ≡ spec.shown c }
{
    if c.is_control() && c != '\t' {
        char::REPLACEMENT_CHARACTER
    } else {
        c
    }
}

// What stands below a character: a tab below a tab.
fn blank(c: char) -> char
    ensures { result ≡ spec.blank c }
{
    if c == '\t' { '\t' } else { ' ' }
}

// Whether a byte of UTF-8 is the first of its character.
fn begins_char(byte: u8) -> bool
    ensures { result ≡ spec.begins_char byte }
{
    byte < 0x80 || byte >= 0xc0
}

// How many characters of a line begin before a column, which counts bytes.
fn chars_before(line: &str, column: usize) -> usize
    ensures value { result ≡ spec.chars_before line.now column }
    ensures bound { result ≤ length line.now }
{
    line.as_bytes()
        .iter()
        .take(column)
        .filter(|b| begins_char(**b))
        .count()
}

// So many characters of a line, from one on, as they are shown.
fn shown_chars(alloc: Global, line: &str, from: usize, count: usize) -> Result<String, AllocError>
    ensures { IfOk result (λ text. string_bytes text
        ≡ encode_utf8_all (map spec.shown (take count (drop from (chars line.now))))) }
{
    line.chars()
        .skip(from)
        .take(count)
        .map(|c| shown(c))
        .collect(alloc)
}

// What stands below so many characters of a line, from one on.
fn blanks(alloc: Global, line: &str, from: usize, count: usize) -> Result<String, AllocError>
    ensures { IfOk result (λ text. string_bytes text
        ≡ encode_utf8_all (map spec.blank (take count (drop from (chars line.now))))) }
{
    line.chars()
        .skip(from)
        .take(count)
        .map(|c| blank(c))
        .collect(alloc)
}

/// A line around a column of it, which counts bytes.
pub fn excerpt_of(alloc: Global, line: &str, column: usize) -> Result<Excerpt, AllocError>
    ensures source { IfOk result (λ e. string_bytes e.source
        ≡ spec.source line.now (spec.chars_before line.now column)) }
    ensures caret { IfOk result (λ e. string_bytes e.caret
        ≡ spec.caret line.now (spec.chars_before line.now column)) }
{
    let before = chars_before(line, column);
    Ok(Excerpt {
        source: source(alloc, line, before)?,
        caret: caret(alloc, line, before)?,
    })
}

// Appends three periods where characters are left out.
fn push_dots(text: &mut String, is_cut: bool) -> Result<(), AllocError>
    ensures { IfOk result (λ _. string_bytes text.new ≡ string_bytes text.old ++ spec.dots is_cut) }
{
    if is_cut {
        text.push_str("...")?;
    }
    Ok(())
}

// Appends three spaces, which stand below those.
fn push_spaces(text: &mut String, is_cut: bool) -> Result<(), AllocError>
    ensures { IfOk result (λ _. string_bytes text.new ≡ string_bytes text.old ++ spec.spaces is_cut) }
{
    if is_cut {
        text.push_str("   ")?;
    }
    Ok(())
}

// How many characters a line has.
fn char_count(line: &str) -> usize
    ensures { result ≡ length (chars line.now) }
{
    line.chars().count()
}

// The line, of which so many characters stand before the place.
fn source(alloc: Global, line: &str, before: usize) -> Result<String, AllocError>
    requires { before ≤ length line.now }
    ensures { IfOk result (λ text. string_bytes text ≡ spec.source line.now before) }
{
    let left_out = before.saturating_sub(SHOWN_BEFORE);
    let end = before + SHOWN_AFTER;
    let shown = shown_chars(alloc, line, left_out, end - left_out)?;
    let is_longer = end < char_count(line);
    let mut text = String::new(alloc);
    push_dots(&mut text, left_out > 0)?;
    text.push_str(shown.as_str())?;
    push_dots(&mut text, is_longer)?;
    Ok(text)
}

// What stands below it: a caret behind blanks.
fn caret(alloc: Global, line: &str, before: usize) -> Result<String, AllocError>
    ensures { IfOk result (λ text. string_bytes text ≡ spec.caret line.now before) }
{
    let left_out = before.saturating_sub(SHOWN_BEFORE);
    let blanks = blanks(alloc, line, left_out, before - left_out)?;
    let mut text = String::new(alloc);
    push_spaces(&mut text, left_out > 0)?;
    text.push_str(blanks.as_str())?;
    text.push('^')?;
    Ok(text)
}
