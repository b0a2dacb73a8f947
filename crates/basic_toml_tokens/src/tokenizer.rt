//! The tokenizer.
ghost use Rattle.std.specs.Prelude.{◌≡◌, ℕ, ⊤};
ghost use Rattle.std.specs.Str.{IsCharBoundary};
ghost use Rattle.basic_toml_tokens.specs.Text.{start_of, after_blanks};
ghost use Rattle.basic_toml_tokens.specs.TokenAt.{Lexeme};
ghost use Rattle.basic_toml_tokens.specs.Token.{TokenAt, lexeme_of};
ghost use Rattle.basic_toml_tokens.specs.Reading.{Reading, text_of};
ghost use Rattle.basic_toml_tokens.specs.Tokenizer.{moved, NextAnswers, AnswersOnly, TakesOne, Skips, after_line, EatsComment, EatsSpanned, Eats, ExpectsSpanned, Expects, EndsLine, TakesKey};

use crate::class::{Class, end_of_run};
use crate::line::{after_comment, after_line};
use crate::scan::{rest, unquoted};
use crate::step::{start, step};
use crate::{Error, Span, Token};
use std::alloc::{AllocError, Global};
use std::borrow::CowStr;
use std::marker::Model;

/// Stands at an offset of a text (TOML v0.5.0), and takes tokens from there on. The program `check_keys` goes through a
/// text by `next`, and the tests of `toml_vectors` make each call once.
///
/// Offsets count bytes, from 0. It stands on a character boundary of the text, or at its end, so
/// that the text can be cut there. A carriage return directly followed by a line feed counts as
/// one line feed, and stands where the carriage return does. Of `a = "\n"`, the tokens are a
/// keylike `a`, a whitespace, an equals, a whitespace and a string that holds one line feed.
///
/// A call takes memory only where a string opens whose value has to be copied: before its end, or
/// before the offset where it breaks, it holds an escape, a continuation, or a carriage return and a
/// line feed other than directly after a multiline opener. Without memory it answers
/// `Error::OutOfMemory`, and nothing moved.
#[derive(Drop)]
pub struct Tokenizer<'a> {
    text: &'a str,
    at: usize,
}

impl<'a> Model for Tokenizer<'a> {
    ghost use Rattle.std.specs.Str.{IsCharBoundary};
    ghost use Rattle.basic_toml_tokens.specs.Reading.{Reading};

    ghost Value = { Reading };

    ghost view = { λ t. record { text = t.text.now; offset = t.at } };

    ghost invariant = { λ t. IsCharBoundary t.text.now t.at };
}

impl<'a> Clone for Tokenizer<'a> {
    ghost is_clone = { λ source copy. copy ≡ source };

    ghost is_infallible = { λ _. ⊤ };

    fn clone(&self) -> Result<Tokenizer<'a>, AllocError> {
        Ok(Tokenizer {
            text: self.text,
            at: self.at,
        })
    }
}

impl<'a> Tokenizer<'a> {
    /// Stands at the start of a text, after a U+FEFF.
    pub fn new(input: &'a str) -> Tokenizer<'a>
        ensures text { result.text ≡ input.now }
        ensures offset { result.offset ≡ start_of input.now }
        ensures boundary { IsCharBoundary result.text result.offset }
    {
        Tokenizer {
            text: input,
            at: start(input),
        }
    }

    /// Stands at a byte offset of a text, which has to be the start of a character, or the end.
    pub fn at(input: &'a str, at: usize) -> Tokenizer<'a>
        requires { IsCharBoundary input.now at }
        ensures text { result.text ≡ input.now }
        ensures offset { result.offset ≡ at }
    {
        Tokenizer { text: input, at }
    }

    /// Takes the next token, and answers where it stood; `None` at the end of the text.
    ///
    /// Where no token stands, it answers the error that does. It then stands after the character
    /// that the error names, after the last digit for `InvalidEscapeValue`, before the first
    /// character that is no blank for the `InvalidEscape` of a blank, and at the end of the text for
    /// `UnterminatedString`. Without memory for the value of a string it answers `OutOfMemory`, and stays.
    pub fn next(&mut self, alloc: Global) -> Result<Option<(Span, Token<'a>)>, Error>
        ensures answers { NextAnswers self.old self.new result }
        // the token that stands there is answered, unless memory runs out
        ensures only { (l : Lexeme) (end : ℕ) → TokenAt self.old.text self.old.offset l end
            → AnswersOnly self.old.offset l end result }
        ensures boundary { IsCharBoundary self.new.text self.new.offset }
    {
        if let Some((token, end)) = unquoted(self.text, self.at) {
            return Ok(Some((self.pass(end), token)));
        }
        match rest(alloc, self.text, self.at) {
            Ok(Some((token, end))) => Ok(Some((self.pass(end), token))),
            Ok(None) => Ok(None),
            Err(stop) => {
                self.at = stop.at;
                Err(stop.error)
            }
        }
    }

    /// Moves to where a token ends, and answers where it stood.
    #[inline(always)]
    fn pass(&mut self, end: usize) -> Span
        requires { IsCharBoundary self.old.text end }
        ensures span { result ≡ record { start = self.old.offset; end = end } }
        ensures after { self.new ≡ moved self.old end }
    {
        let start = self.at;
        self.at = end;
        Span { start, end }
    }

    /// What `next` answers, without moving.
    pub fn peek(&mut self, alloc: Global) -> Result<Option<(Span, Token<'a>)>, Error>
        ensures answers { (ahead : Reading) × NextAnswers self.old ahead result }
        ensures only { (l : Lexeme) (end : ℕ) → TokenAt self.old.text self.old.offset l end
            → AnswersOnly self.old.offset l end result }
        ensures same { self.new ≡ self.old }
        ensures boundary { IsCharBoundary self.new.text self.new.offset }
    {
        let mut ahead = Tokenizer {
            text: self.text,
            at: self.at,
        };
        ahead.next(alloc)
    }

    /// Takes the next token where it equals `expected`, with the same texts. Where it does not, and
    /// after an error of `peek`, nothing moved.
    pub fn eat(&mut self, alloc: Global, expected: Token<'a>) -> Result<bool, Error>
        ensures answers { Eats (lexeme_of expected.entry) self.old self.new result }
        ensures boundary { IsCharBoundary self.new.text self.new.offset }
    {
        let taken = self.eat_spanned(alloc, expected)?;
        Ok(taken.is_some())
    }

    /// As `eat`, and answers where the token stood, `None` where nothing was taken.
    pub fn eat_spanned(&mut self, alloc: Global, expected: Token<'a>) -> Result<Option<Span>, Error>
        ensures answers { EatsSpanned (lexeme_of expected.entry) self.old self.new result }
        ensures boundary { IsCharBoundary self.new.text self.new.offset }
    {
        match self.peek(alloc)? {
            Some((span, found)) if found.is(&expected) => {
                self.at = span.end;
                Ok(Some(span))
            }
            _ => Ok(None),
        }
    }

    /// Takes the next token, which is to equal `expected`.
    ///
    /// Another token is taken too, and refused with `Error::Wanted` at its offset. At the
    /// end of the text what was found is called `eof`. An error of `next` is answered as it is.
    pub fn expect(&mut self, alloc: Global, expected: Token<'a>) -> Result<(), Error>
        ensures answers { Expects (lexeme_of expected.entry) self.old self.new result }
        ensures boundary { IsCharBoundary self.new.text self.new.offset }
    {
        self.expect_spanned(alloc, expected)?;
        Ok(())
    }

    /// As `expect`, and answers where the token stood.
    pub fn expect_spanned(&mut self, alloc: Global, expected: Token<'a>) -> Result<Span, Error>
        ensures answers { ExpectsSpanned (lexeme_of expected.entry) self.old self.new result }
        ensures boundary { IsCharBoundary self.new.text self.new.offset }
    {
        let at = self.at;
        let Some((span, found)) = self.next(alloc)? else {
            return Err(Error::Wanted {
                at: self.text.len(),
                expected: expected.describe(),
                found: "eof",
            });
        };
        if !found.is(&expected) {
            return Err(Error::Wanted {
                at,
                expected: expected.describe(),
                found: found.describe(),
            });
        }
        Ok(span)
    }

    /// Takes a key (TOML v0.5.0, "Keys"): a keylike token or a one-line string, with its text.
    ///
    /// Another token is taken too: a multiline string is refused with `Error::MultilineStringKey`,
    /// any other, and the end of the text, with `Error::Wanted`. An error of `next` is answered as it is.
    pub fn table_key(&mut self, alloc: Global) -> Result<(Span, CowStr<'a>), Error>
        ensures answers { TakesKey self.old self.new result }
        ensures boundary { IsCharBoundary self.new.text self.new.offset }
    {
        let at = self.at;
        match self.next(alloc)? {
            Some((span, Token::Keylike(key))) => Ok((span, CowStr::Borrowed(key))),
            Some((span, Token::String { val, multiline, .. })) => {
                if multiline {
                    return Err(Error::MultilineStringKey(at));
                }
                Ok((span, val))
            }
            Some((_, other)) => Err(Error::Wanted {
                at,
                expected: "a table key",
                found: other.describe(),
            }),
            None => Err(Error::Wanted {
                at: self.text.len(),
                expected: "a table key",
                found: "eof",
            }),
        }
    }

    /// Takes spaces and tabs.
    pub fn eat_whitespace(&mut self)
        ensures skips { Skips self.old self.new (after_blanks (text_of self.old)) }
        ensures boundary { IsCharBoundary self.new.text self.new.offset }
    {
        self.at = end_of_run(self.text, self.at, Class::Blank);
    }

    /// Takes a comment (TOML v0.5.0, "Comment") and the line feed or the end after it; `false` where
    /// none stands. Another character that ends it is taken, and refused with `Error::Unexpected`.
    pub fn eat_comment(&mut self) -> Result<bool, Error>
        ensures answers { EatsComment self.old self.new result }
        ensures boundary { IsCharBoundary self.new.text self.new.offset }
    {
        match after_comment(self.text, self.at) {
            Ok(Some(next)) => {
                self.at = next;
                Ok(true)
            }
            Ok(None) => Ok(false),
            Err(stop) => {
                self.at = stop.at;
                Err(stop.error)
            }
        }
    }

    /// Takes a line feed, or meets the end of the text. Another token is taken too, and refused with
    /// `Error::Wanted`. An error of `next` is answered as it is.
    pub fn eat_newline_or_eof(&mut self, alloc: Global) -> Result<(), Error>
        ensures answers { EndsLine self.old self.new result }
        ensures boundary { IsCharBoundary self.new.text self.new.offset }
    {
        let at = self.at;
        match self.next(alloc)? {
            None | Some((_, Token::Newline)) => Ok(()),
            Some((_, other)) => Err(Error::Wanted {
                at,
                expected: "newline",
                found: other.describe(),
            }),
        }
    }

    /// Takes all up to the next line feed, and that; all where none follows.
    pub fn skip_to_newline(&mut self)
        ensures skips { Skips self.old self.new (after_line (text_of self.old)) }
        ensures boundary { IsCharBoundary self.new.text self.new.offset }
    {
        self.at = after_line(self.text, self.at);
    }

    /// The byte offset of the next character, or the length of the text.
    pub fn current(&mut self) -> usize
        ensures offset { result ≡ self.old.offset }
        ensures boundary { IsCharBoundary self.old.text result }
        ensures same { self.new ≡ self.old }
    {
        self.at
    }

    /// Takes one character, a carriage return and a line feed as one line feed, and answers it with its byte offset;
    /// `None` at the end of the text.
    pub fn one(&mut self) -> Option<(usize, char)>
        ensures answers { TakesOne self.old self.new result }
        ensures boundary { IsCharBoundary self.new.text self.new.offset }
    {
        let at = self.at;
        match step(self.text, at) {
            Some((c, next)) => {
                self.at = next;
                Some((at, c))
            }
            None => None,
        }
    }
}
