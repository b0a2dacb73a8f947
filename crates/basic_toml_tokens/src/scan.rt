//! The token at an offset.
ghost use Rattle.std.specs.Prelude.{◌≡◌, false, slice_index};
ghost use Rattle.std.specs.Str.{IsCharBoundary, IsUtf8};
ghost use Rattle.basic_toml_tokens.specs.Scan.{IsPunctuation, tells_unquoted, IsUnquoted, IsFound};

use crate::class::{Class, end_of_run, is_in};
use crate::step::step;
use crate::string::{TokenStop, string};
use crate::{Error, Token};
use std::alloc::Global;

/// The token of one character.
fn punctuation(byte: u8) -> Option<Token<'static>>
    ensures { IsPunctuation byte result }
{
    match byte {
        b'\n' => Some(Token::Newline),
        b'=' => Some(Token::Equals),
        b'.' => Some(Token::Period),
        b',' => Some(Token::Comma),
        b':' => Some(Token::Colon),
        b'+' => Some(Token::Plus),
        b'{' => Some(Token::LeftBrace),
        b'}' => Some(Token::RightBrace),
        b'[' => Some(Token::LeftBracket),
        b']' => Some(Token::RightBracket),
        _ => None,
    }
}

/// The token at an offset and where it ends, or `None` where the first byte does not tell that it is no string.
#[inline]
pub(crate) fn unquoted(text: &str, at: usize) -> Option<(Token<'_>, usize)>
    requires { IsCharBoundary text.now at }
    ensures found { IsUnquoted text.now at result }
    ensures utf8 { IsUtf8 text.now }
{
    let bytes = text.as_bytes();
    if at == bytes.len() {
        return None;
    }
    let byte = bytes[at];
    if is_in(Class::Keylike, byte) {
        let end = end_of_run(text, at, Class::Keylike);
        return Some((Token::Keylike(&text[at..end]), end));
    }
    if is_in(Class::Blank, byte) {
        let end = end_of_run(text, at, Class::Blank);
        return Some((Token::Whitespace(&text[at..end]), end));
    }
    if byte == b'#' {
        let end = end_of_run(text, at + 1, Class::Comment);
        return Some((Token::Comment(&text[at..end]), end));
    }
    match punctuation(byte) {
        Some(token) => Some((token, at + 1)),
        None => None,
    }
}

/// What stands at an offset where `unquoted` finds nothing: a string, a carriage return and a line feed, the end, or
/// no token.
#[inline(always)]
pub(crate) fn rest<'a>(
    alloc: Global,
    text: &'a str,
    at: usize,
) -> Result<Option<(Token<'a>, usize)>, TokenStop>
    requires boundary { IsCharBoundary text.now at }
    requires untold { tells_unquoted (slice_index text.now at) ≡ false }
    ensures found { IsFound text.now at result }
    ensures utf8 { IsUtf8 text.now }
{
    let bytes = text.as_bytes();
    if at == bytes.len() {
        return Ok(None);
    }
    let byte = bytes[at];
    if byte == b'"' || byte == b'\'' {
        return match string(alloc, text, at) {
            Ok(quoted) => {
                let token = Token::String {
                    src: quoted.src,
                    val: quoted.val,
                    multiline: quoted.multiline,
                };
                Ok(Some((token, quoted.end)))
            }
            Err(stop) => Err(stop),
        };
    }
    match step(text, at) {
        Some(('\n', next)) => Ok(Some((Token::Newline, next))),
        Some((c, next)) => Err(TokenStop {
            error: Error::Unexpected(at, c),
            at: next,
        }),
        None => Ok(None),
    }
}

/// The token at a byte offset and where it ends, or `None` at the end of the text. The errors are those of
/// `Tokenizer::next`.
pub fn scan<'a>(
    alloc: Global,
    text: &'a str,
    at: usize,
) -> Result<Option<(Token<'a>, usize)>, TokenStop>
    requires { IsCharBoundary text.now at }
    ensures found { IsFound text.now at result }
    ensures utf8 { IsUtf8 text.now }
{
    if let Some(found) = unquoted(text, at) {
        return Ok(Some(found));
    }
    rest(alloc, text, at)
}
