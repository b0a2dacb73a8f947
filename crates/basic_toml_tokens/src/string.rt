//! Strings.
ghost use Rattle.std.specs.Prelude.{◌≡◌, ◌<◌, ◌≤◌, ◌++◌, true, false, length, slice_index, is_some, IsOk, IfOk, IfSome, IfNone, MatchResult, string_bytes, encode_utf8_all};
ghost use Rattle.std.specs.Str.{IsCharBoundary};
ghost use Rattle.std.specs.Cow.{cow_str_bytes};
ghost use Rattle.basic_toml_tokens.specs.Strings.{is_quote, is_plain};
ghost use Rattle.basic_toml_tokens.specs.Text.{Text, text_at};
ghost use Rattle.basic_toml_tokens.specs.Reading.{IsRun};
ghost use Rattle.basic_toml_tokens.specs.Quote.{chars_of};
ghost use Rattle.basic_toml_tokens.specs.String.{IsOpen, copied_of, is_owned, IsSimple, IsVerbatim, IsQuoted, IsRefused};

use crate::Error;
use crate::class::{Class, end_of_run, end_of_short_run};
use crate::lanes::Wide;
use crate::punctuation::after_feed;
use crate::quote::{Piece, Quote, delimiters, piece_at};
use std::alloc::{AllocError, Global};
use std::borrow::CowStr;

/// A string.
#[derive(Drop)]
pub struct Quoted<'a> {
    /// Its bytes in the text.
    pub src: &'a str,
    /// What it stands for.
    pub val: CowStr<'a>,
    /// Whether it stands between three delimiters.
    pub multiline: bool,
    /// The byte offset after it.
    pub end: usize,
}

/// Why nothing was taken, and where the text goes on.
#[derive(Drop)]
pub struct TokenStop {
    /// What is wrong there.
    pub error: Error,
    /// The byte offset where the text goes on; that of the string where memory was refused.
    pub at: usize,
}

/// What the string at an offset stands between, and where its body begins.
fn open(text: &str, start: usize) -> (Quote, usize)
    requires boundary { IsCharBoundary text.now start }
    requires within { start < length text.now }
    requires quote { is_quote (slice_index text.now start) ≡ true }
    ensures { IsOpen text.now start result.0 result.1 }
{
    let delimiter = text.as_bytes()[start];
    if delimiters(text, start, delimiter) < 3 {
        let quote = Quote {
            delimiter,
            multiline: false,
        };
        return (quote, start + 1);
    }
    let quote = Quote {
        delimiter,
        multiline: true,
    };
    match after_feed(text, start + 3) {
        Some(body) => (quote, body),
        None => (quote, start + 3),
    }
}

/// A copy with some bytes and a character more.
fn extended(
    alloc: Global,
    copy: Option<String>,
    plain: &str,
    c: Option<char>,
) -> Result<String, AllocError>
    ensures { IfOk result (λ longer. string_bytes longer
        ≡ (copied_of copy ++ plain.now) ++ encode_utf8_all (chars_of c)) }
{
    let mut longer = match copy {
        Some(copy) => copy,
        None => String::new(alloc),
    };
    longer.push_str(plain)?;
    if let Some(c) = c {
        longer.push(c)?;
    }
    Ok(longer)
}

/// The value of a string whose copy lacks some last bytes. It borrows them where there is no copy.
fn finished<'a>(copy: Option<String>, plain: &'a str) -> Result<CowStr<'a>, AllocError>
    ensures bytes { IfOk result (λ val. cow_str_bytes val ≡ copied_of copy ++ plain.now) }
    ensures copied { IfOk result (λ val. is_owned val ≡ is_some copy) }
    ensures memory { is_some copy ≡ false → IsOk result }
{
    match copy {
        None => Ok(CowStr::Borrowed(plain)),
        Some(mut copy) => {
            copy.push_str(plain)?;
            Ok(CowStr::Owned(copy))
        }
    }
}

/// Where the characters from an offset on end that stand for themselves.
#[inline(always)]
fn end_of_plain(text: &str, at: usize, quote: Quote) -> usize
    requires boundary { IsCharBoundary text.now at }
    requires quote { is_quote quote.delimiter ≡ true }
    ensures run { IsRun (is_plain quote.delimiter) text.now at result }
    ensures stopped { result < length text.now → is_plain quote.delimiter (slice_index text.now result) ≡ false }
{
    if quote.delimiter == b'"' {
        end_of_run(text, at, Class::Basic)
    } else {
        end_of_run(text, at, Class::Literal)
    }
}

/// The same after a line feed or a delimiter, where often few characters stand for themselves.
#[inline(always)]
fn end_of_few_plain(text: &str, at: usize, quote: Quote) -> usize
    requires boundary { IsCharBoundary text.now at }
    requires quote { is_quote quote.delimiter ≡ true }
    ensures run { IsRun (is_plain quote.delimiter) text.now at result }
    ensures stopped { result < length text.now → is_plain quote.delimiter (slice_index text.now result) ≡ false }
{
    if quote.delimiter == b'"' {
        end_of_short_run(text, at, Wide::Basic)
    } else {
        end_of_short_run(text, at, Wide::Literal)
    }
}

/// The value of the string whose first delimiter stands at the byte offset `start`, and the byte offset after it, where
/// the string stands on one line and each of its characters stands for itself. It answers `None` exactly where no such
/// string stands, and `string_at` tells what stands there.
#[inline]
pub fn simple_string(text: &str, start: usize) -> Option<(&str, usize)>
    requires boundary { IsCharBoundary text.now start }
    requires within { start < length text.now }
    requires quote { is_quote (slice_index text.now start) ≡ true }
    ensures found { IfSome result (λ found. IsSimple text.now start found.0.now found.1) }
    ensures none { IfNone result ((rest : Text) → IsVerbatim (text_at text.now start) start rest → ⊥) }
{
    let (quote, body) = open(text, start);
    if quote.multiline {
        return None;
    }
    let last = end_of_plain(text, body, quote);
    if last < text.len() && text.as_bytes()[last] == quote.delimiter {
        Some((&text[body..last], last + 1))
    } else {
        None
    }
}

/// The string whose first delimiter stands at the byte offset `start`. The errors are those of its body, and want of
/// memory.
#[inline(never)]
pub fn string<'a>(alloc: Global, text: &'a str, start: usize) -> Result<Quoted<'a>, TokenStop>
    requires boundary { IsCharBoundary text.now start }
    requires within { start < length text.now }
    requires quote { is_quote (slice_index text.now start) ≡ true }
    ensures { MatchResult result (λ quoted. IsQuoted text.now start quoted)
        (λ stop. IsRefused text.now start stop) }
{
    let (quote, body) = open(text, start);
    let mut copy = None;
    let mut kept = body;
    let mut at = end_of_plain(text, body, quote);
    loop {
        match piece_at(text, at, quote, start) {
            Piece::Verbatim(next) => at = end_of_few_plain(text, next, quote),
            Piece::Replaced(c, next) => {
                match extended(alloc, copy, &text[kept..at], c) {
                    Ok(longer) => copy = Some(longer),
                    Err(_) => {
                        return Err(TokenStop {
                            error: Error::OutOfMemory,
                            at: start,
                        });
                    }
                }
                kept = next;
                at = end_of_plain(text, next, quote);
            }
            Piece::Closed(last, end) => {
                return match finished(copy, &text[kept..last]) {
                    Ok(val) => Ok(Quoted {
                        src: &text[start..end],
                        val,
                        multiline: quote.multiline,
                        end,
                    }),
                    Err(_) => Err(TokenStop {
                        error: Error::OutOfMemory,
                        at: start,
                    }),
                };
            }
            Piece::Broken(error, next) => return Err(TokenStop { error, at: next }),
        }
    }
}
