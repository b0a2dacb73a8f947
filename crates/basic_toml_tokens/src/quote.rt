//! What stands at the front of a string's body.
ghost use Rattle.std.specs.Prelude.{◌≡◌, ◌≤◌, ◌<◌, ◌+◌, ◌^◌, ◌∷◌, [], ℕ, true, false, length, drop, min, IsSome, IfSome, IfNone, slice_index, MatchOption};
ghost use Rattle.std.specs.Str.{IsCharBoundary};
ghost use Rattle.basic_toml_tokens.specs.Text.{text_at, after_run, is_blank};
ghost use Rattle.basic_toml_tokens.specs.Strings.{is_quote, letter_value, is_space, is_plain, count_of};
ghost use Rattle.basic_toml_tokens.specs.BodyFront.{hex_front, blanks_front, escape_front, front_of};
ghost use Rattle.basic_toml_tokens.specs.Reading.{IsStep};
ghost use Rattle.basic_toml_tokens.specs.Quote.{kind_of, IsReplaced, IsAhead, IsSpaceEnd, AreDelimiters};

use crate::Error;
use crate::class::{Class, end_of_run};
use crate::punctuation::after_feed;
use crate::step::step;

/// What a string stands between.
#[derive(Clone, Copy, Drop)]
pub(crate) struct Quote {
    /// `'` or `"`.
    pub(crate) delimiter: u8,
    /// Whether three of them stand there.
    pub(crate) multiline: bool,
}

/// What stands at an offset of a body. All offsets are byte offsets.
#[derive(Drop)]
pub(crate) enum Piece {
    /// Bytes that stand for themselves, up to the offset.
    Verbatim(usize),
    /// Bytes up to the offset that stand for a character or for nothing.
    Replaced(Option<char>, usize),
    /// The end of the string: what is content ends at the first offset, the string at the second.
    Closed(usize, usize),
    /// None of these, and where the text goes on.
    Broken(Error, usize),
}

/// The character that a letter after a backslash stands for.
fn letter(c: char) -> Option<char>
    ensures { result ≡ letter_value c }
{
    match c {
        '"' => Some('"'),
        '\\' => Some('\\'),
        'b' => Some('\u{8}'),
        'f' => Some('\u{c}'),
        'n' => Some('\n'),
        'r' => Some('\r'),
        't' => Some('\t'),
        _ => None,
    }
}

/// Where the blanks and line feeds from the offset on end.
fn end_of_space(text: &str, at: usize) -> usize
    requires { IsCharBoundary text.now at }
    ensures { IsSpaceEnd text.now at result }
{
    let mut end = end_of_run(text, at, Class::Blank);
    while let Some(next) = after_feed(text, end) {
        end = end_of_run(text, next, Class::Blank);
    }
    end
}

/// What `digits` hexadecimal digits at the offset stand for. Their letter stands at `letter`.
fn hex(text: &str, at: usize, digits: u32, letter: usize, start: usize) -> Piece
    requires boundary { IsCharBoundary text.now at }
    requires few { digits ≤ 8 }
    ensures { IsReplaced (hex_front start letter 0 digits (text_at text.now at)) text.now at result }
{
    let mut number: u32 = 0;
    let mut next = at;
    for _ in 0..digits {
        let Some((c, after)) = step(text, next) else {
            return Piece::Broken(Error::UnterminatedString(start), next);
        };
        let Some(digit) = c.to_digit(16) else {
            return Piece::Broken(Error::InvalidHexEscape(next, c), after);
        };
        number = number * 16 + digit;
        next = after;
    }
    match char::from_u32(number) {
        Some(c) => Piece::Replaced(Some(c), next),
        None => Piece::Broken(Error::InvalidEscapeValue(letter, number), next),
    }
}

/// A continuation, from the offset after its backslash on, where `first` stands.
fn continuation(text: &str, at: usize, first: char, start: usize) -> Piece
    requires boundary { IsCharBoundary text.now at }
    ensures { IsReplaced (blanks_front start (at, first) (after_run is_blank (text_at text.now at))) text.now at
        result }
{
    let end = end_of_run(text, at, Class::Blank);
    match step(text, end) {
        Some(('\n', next)) => Piece::Replaced(None, end_of_space(text, next)),
        Some(_) => Piece::Broken(Error::InvalidEscape(at, first), end),
        None => Piece::Broken(Error::UnterminatedString(start), end),
    }
}

/// An escape or a continuation, from the offset after its backslash on.
fn escape(text: &str, at: usize, quote: Quote, start: usize) -> Piece
    requires boundary { IsCharBoundary text.now at }
    ensures { IsReplaced (escape_front (kind_of quote) start (text_at text.now at)) text.now at result }
{
    let Some((c, next)) = step(text, at) else {
        return Piece::Broken(Error::UnterminatedString(start), at);
    };
    if let Some(value) = letter(c) {
        return Piece::Replaced(Some(value), next);
    }
    match c {
        'u' => hex(text, next, 4, at, start),
        'U' => hex(text, next, 8, at, start),
        ' ' | '\t' | '\n' if quote.multiline => continuation(text, at, c, start),
        _ => Piece::Broken(Error::InvalidEscape(at, c), next),
    }
}

/// How many delimiters stand from the offset on, up to five.
pub(crate) fn delimiters(text: &str, at: usize, delimiter: u8) -> usize
    requires boundary { IsCharBoundary text.now at }
    requires quote { is_quote delimiter ≡ true }
    ensures { AreDelimiters delimiter text.now at 5 result }
{
    let bytes = text.as_bytes();
    let mut n = 0;
    while n < 5 && n < bytes.len() - at && bytes[at + n] == delimiter {
        n += 1;
    }
    n
}

/// What stands at an offset of the body of the string from `start` on, where no plain character does.
#[inline(always)]
pub(crate) fn piece_at(text: &str, at: usize, quote: Quote, start: usize) -> Piece
    requires boundary { IsCharBoundary text.now at }
    requires quote { is_quote quote.delimiter ≡ true }
    requires not_plain { at < length text.now → is_plain quote.delimiter (slice_index text.now at) ≡ false }
    ensures { IsAhead (kind_of quote) start text.now at result }
{
    let bytes = text.as_bytes();
    if at == bytes.len() {
        return Piece::Broken(Error::UnterminatedString(start), at);
    }
    let byte = bytes[at];
    if byte == quote.delimiter {
        if !quote.multiline {
            return Piece::Closed(at, at + 1);
        }
        let n = delimiters(text, at, quote.delimiter);
        return if n < 3 {
            Piece::Verbatim(at + n)
        } else {
            Piece::Closed(at + n - 3, at + n)
        };
    }
    if byte == b'\\' {
        return escape(text, at + 1, quote, start);
    }
    match after_feed(text, at) {
        Some(next) if !quote.multiline => Piece::Broken(Error::NewlineInString(at), next),
        Some(next) if byte == b'\r' => Piece::Replaced(Some('\n'), next),
        Some(next) => Piece::Verbatim(next),
        None => Piece::Broken(Error::InvalidCharInString(at, char::from(byte)), at + 1),
    }
}
