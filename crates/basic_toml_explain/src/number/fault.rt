//! Where a number is at fault, by its words and the tokens between them.
//!
//! The cursor stands after the number's first word. Each fault is a byte offset, or `None` where nothing is wrong.
ghost use Rattle.std.specs.Prelude.{◌≡◌, ◌+◌, ◌-◌, ◌<◌, ◌^◌, true, false, [], ◌∷◌, None, length};
ghost use Rattle.std.specs.Str.{IsCharBoundary};
ghost use Rattle.std.specs.List.{list_any};
ghost use Rattle.basic_toml_numbers.specs.Numbers as numbers;
ghost use Rattle.basic_toml_numbers.specs.Numbers.{after_part};
ghost use Rattle.basic_toml_tokens.specs.Text.{run, after_run, is_keylike};
ghost use Rattle.basic_toml_tokens.specs.Reading.{text_of};
ghost use Rattle.basic_toml_grammar.specs.NumberTokens.{plus_rest, mark_rest, word_rest};
ghost use Rattle.basic_toml_grammar.specs.Reader.{char_at};
ghost use Rattle.basic_toml_grammar.specs.NumberFaults as spec;
ghost use Rattle.basic_toml_grammar.specs.NumberTokens.{behind_sign, behind_letter, behind_word};
ghost use Rattle.basic_toml_explain.specs.NumberFault.{behind_left, behind_fraction};
ghost use Rattle.basic_toml_explain.specs.NumberFault.{Finds, Looks};
ghost use Rattle.basic_toml_explain.specs.Cursor.{IsAfterWord};

use super::part::{part_fault, signed_part_fault};
use crate::ReadError;
use crate::cursor::Cursor;
use basic_toml_numbers::{integer_of, split_part};
use basic_toml_tokens::Token;
use std::alloc::Global;

/// Whether a word begins a number: with a digit or a minus, or `inf` or `nan`.
pub(crate) fn begins_number(word: &str) -> bool
    ensures { result ≡ spec.begins_number word.now }
{
    let text = word.as_bytes();
    match text {
        [] => false,
        [b'0'..=b'9' | b'-', ..] => true,
        _ => is_special(text),
    }
}

// Whether a word begins with `0x`, `0o` or `0b`.
fn is_prefixed(word: &[u8]) -> bool
    ensures { result ≡ spec.is_prefixed word.now }
{
    matches!(word, [b'0', b'x' | b'o' | b'b', ..])
}

/// Whether no plus may stand before a word.
pub(crate) fn takes_no_plus(word: &[u8]) -> bool
    ensures { result ≡ spec.takes_no_plus word.now }
{
    match word {
        [] | [b'-', ..] => true,
        _ => is_prefixed(word),
    }
}

// Whether a word is `inf` or `nan`.
fn is_special(word: &[u8]) -> bool
    ensures { result ≡ numbers.is_special word.now }
{
    word == b"inf".as_slice() || word == b"nan".as_slice()
}

// Whether an exponent letter stands in a word.
fn has_mark(word: &[u8]) -> bool
    ensures { result ≡ list_any numbers.is_exponent_letter word.now }
{
    word.iter().any(|byte| is_exponent_letter(*byte))
}

// A word without the minus that it may begin with.
fn without_minus(word: &[u8]) -> &[u8]
    ensures { result.now ≡ spec.without_minus word.now }
{
    match word {
        [b'-', rest @ ..] => rest,
        _ => word,
    }
}

// The fault of a number in which characters are left over.
fn left_fault(start: usize, left: &[u8]) -> Option<usize>
    ensures { result ≡ spec.left_fault start left.now }
{
    if left.is_empty() { None } else { Some(start) }
}

// The fault of an integer that is none, or that lies outside `i64`.
fn outside(start: usize, word: &str) -> Option<usize>
    ensures { result ≡ spec.outside start word.now }
{
    if integer_of(word).is_none() {
        Some(start)
    } else {
        None
    }
}

// The fault of a number with neither a fraction nor an exponent.
fn whole_fault(start: usize, word: &str) -> Option<usize>
    requires { start + length word.now < 2 ^ 64 }
    ensures { result ≡ spec.whole_fault start word.now }
{
    let text = word.as_bytes();
    if is_special(without_minus(text)) {
        return None;
    }
    let fault = signed_part_fault(false, start, text);
    if fault.is_some() {
        return fault;
    }
    outside(start, word)
}

// The fault of an exponent after a plus, whose word begins at `at`.
fn plus_word_fault(at: usize, start: usize, word: &[u8]) -> Option<usize>
    requires { at + length word.now < 2 ^ 64 }
    ensures { result ≡ spec.plus_word_fault at start word.now }
{
    if word.is_empty() {
        return Some(start);
    }
    let fault = part_fault(true, at, at, word);
    if fault.is_some() {
        return fault;
    }
    let (_, left) = split_part(word);
    left_fault(start, left)
}

// The fault of an exponent in the word of its exponent letter, which begins at `at`.
fn near_power_fault(at: usize, start: usize, power: &[u8]) -> Option<usize>
    requires { at + length power.now < 2 ^ 64 }
    ensures { result ≡ spec.near_power_fault at start power.now }
{
    let fault = signed_part_fault(true, at, power);
    if fault.is_some() {
        return fault;
    }
    let (_, left) = split_part(without_minus(power));
    left_fault(start, left)
}

// The fault of what stands before an exponent: a whole part, and a fraction that begins at `at`.
fn fraction_parts_fault(start: usize, word: &[u8], at: usize, fraction: &[u8]) -> Option<usize>
    requires word_fits { start + length word.now < 2 ^ 64 }
    requires fraction_fits { at + length fraction.now < 2 ^ 64 }
    ensures { result ≡ spec.fraction_parts_fault start word.now at fraction.now }
{
    let fault = signed_part_fault(false, start, word);
    if fault.is_some() {
        return fault;
    }
    let (_, left) = split_part(without_minus(word));
    let fault = left_fault(start, left);
    if fault.is_some() {
        return fault;
    }
    part_fault(true, at, at, fraction)
}

/// The fault of a number that begins with this word, or `None` where it has none and is taken.
pub(crate) fn word_fault(
    cursor: &mut Cursor<'_>,
    alloc: Global,
    word: &str,
) -> Result<Option<usize>, ReadError>
    requires { IsAfterWord (cursor.old.offset - length word.now) word.now cursor.old }
    ensures { Finds
        (spec.word_fault (length cursor.old.text) (cursor.old.offset - length word.now) word.now (text_of cursor.old))
        (behind_word word.now (spec.without_minus word.now) (text_of cursor.old))
        (word_rest word.now (text_of cursor.old)) cursor.old cursor.new result }
{
    let start = cursor.current() - word.len();
    let text = word.as_bytes();
    if is_prefixed(text) {
        return Ok(outside(start + 2, word));
    }
    if has_mark(text) {
        return float_fault(cursor, alloc, start, text);
    }
    if cursor.eat(alloc, Token::Period)? {
        return fraction_fault(cursor, alloc, start, text);
    }
    Ok(whole_fault(start, word))
}

/// Looks at the tokens behind a word that no plus may stand before. One that is refused is the error: the token behind
/// a word with a minus and without an exponent, and the one behind a period there.
pub(crate) fn look_behind(
    cursor: &mut Cursor<'_>,
    alloc: Global,
    word: &str,
) -> Result<(), ReadError>
    requires takes { spec.takes_no_plus word.now ≡ true }
    requires some { word.now ≡ [] → ⊥ }
    ensures { Looks (behind_word word.now word.now (text_of cursor.old)) result }
{
    let text = word.as_bytes();
    if is_prefixed(text) {
        return Ok(());
    }
    if has_mark(text) {
        return Ok(());
    }
    if !cursor.eat(alloc, Token::Period)? {
        return Ok(());
    }
    cursor.keylike(alloc)?;
    Ok(())
}

// The fault of a number whose exponent begins in its first word.
fn float_fault(
    cursor: &mut Cursor<'_>,
    alloc: Global,
    start: usize,
    word: &[u8],
) -> Result<Option<usize>, ReadError>
    requires { start + length word.now < 2 ^ 64 }
    ensures { Finds (spec.float_fault (length cursor.old.text) start word.now (text_of cursor.old))
        (behind_letter false (spec.without_minus word.now) (text_of cursor.old))
        (mark_rest (after_part (spec.without_minus word.now)) (text_of cursor.old)) cursor.old cursor.new result }
{
    let fault = signed_part_fault(false, start, word);
    if fault.is_some() {
        return Ok(fault);
    }
    let (_, left) = split_part(without_minus(word));
    exponent_fault(
        cursor,
        alloc,
        start,
        start + (word.len() - left.len()),
        left,
    )
}

// The fault of a number with a fraction. The cursor stands after its period.
fn fraction_fault(
    cursor: &mut Cursor<'_>,
    alloc: Global,
    start: usize,
    word: &[u8],
) -> Result<Option<usize>, ReadError>
    requires fits { start + length word.now < 2 ^ 64 }
    requires boundary { IsCharBoundary cursor.old.text cursor.old.offset }
    ensures { Finds (spec.after_period_fault (length cursor.old.text) start word.now
        (run is_keylike (text_of cursor.old)) (text_of cursor.old))
        (behind_fraction (spec.without_minus word.now) (text_of cursor.old))
        (mark_rest (after_part (run is_keylike (text_of cursor.old))) (after_run is_keylike (text_of cursor.old)))
        cursor.old cursor.new result }
{
    let at = cursor.current();
    let Some(fraction) = cursor.keylike(alloc)? else {
        return Ok(Some(at));
    };
    let fraction = fraction.as_bytes();
    let end = cursor.current();
    let fault = fraction_parts_fault(start, word, at, fraction);
    if fault.is_some() {
        return Ok(fault);
    }
    let (_, left) = split_part(fraction);
    exponent_fault(cursor, alloc, start, end - left.len(), left)
}

// The fault of the characters that are left of a word after its digits, at `at`: an exponent, or nothing.
fn exponent_fault(
    cursor: &mut Cursor<'_>,
    alloc: Global,
    start: usize,
    at: usize,
    left: &[u8],
) -> Result<Option<usize>, ReadError>
    requires { at + length left.now < 2 ^ 64 }
    ensures { Finds (spec.exponent_fault (length cursor.old.text) start at left.now (text_of cursor.old))
        (behind_left left.now (text_of cursor.old)) (mark_rest left.now (text_of cursor.old)) cursor.old cursor.new
        result }
{
    let Some((letter, power)) = left.split_first() else {
        return Ok(None);
    };
    if !is_exponent_letter(*letter) {
        return Ok(Some(start));
    }
    if power.is_empty() {
        return plus_power_fault(cursor, alloc, start);
    }
    Ok(near_power_fault(at + 1, start, power))
}

// Whether a byte is `e` or `E`.
fn is_exponent_letter(byte: u8) -> bool
    ensures { result ≡ numbers.is_exponent_letter byte }
{
    byte == b'e' || byte == b'E'
}

// The fault of an exponent whose letter ends its word, so that a plus has to come.
fn plus_power_fault(
    cursor: &mut Cursor<'_>,
    alloc: Global,
    start: usize,
) -> Result<Option<usize>, ReadError>
    ensures { Finds
        (spec.plus_power_fault (length cursor.old.text) start (char_at numbers.plus (text_of cursor.old)))
        (text_of cursor.old ∷ behind_sign (char_at numbers.plus (text_of cursor.old)))
        (plus_rest (char_at numbers.plus (text_of cursor.old)) (text_of cursor.old)) cursor.old cursor.new result }
{
    if !cursor.eat(alloc, Token::Plus)? {
        return Ok(Some(start));
    }
    let Some(word) = cursor.keylike(alloc)? else {
        return Ok(Some(start));
    };
    let at = cursor.current() - word.len();
    Ok(plus_word_fault(at, start, word.as_bytes()))
}
