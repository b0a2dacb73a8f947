//! The cursor that reads a text anew from where reading stopped, token by token, to find its error.
ghost use Rattle.std.specs.Prelude.{◌≡◌, Some};
ghost use Rattle.std.specs.Str.{IsUtf8, IsCharBoundary};
ghost use Rattle.basic_toml_tokens.specs.TokenAt.{punctuation_of};
ghost use Rattle.basic_toml_tokens.specs.Token.{lexeme_of};
ghost use Rattle.basic_toml_explain.specs.Key.{ReadsKey};
ghost use Rattle.basic_toml_explain.specs.Cursor.{code_of, TakesToken, EatsPunctuation, IsWordOf, TakesWord};

use crate::ReadError;
use crate::key::Key;
use basic_toml_tokens::{Span, Token, Tokenizer};
use std::alloc::Global;
use std::marker::Model;

/// Stands at an offset of a text, and takes tokens from there on.
#[derive(Drop)]
pub(crate) struct Cursor<'a> {
    text: &'a str,
    tokens: Tokenizer<'a>,
}

impl<'a> Model for Cursor<'a> {
    ghost use Rattle.std.specs.Prelude.{◌≡◌};
    ghost use Rattle.std.specs.Str.{IsUtf8};
    ghost use Rattle.basic_toml_tokens.specs.Reading.{Reading};

    ghost Value = { Reading };

    ghost view = { λ c. c.tokens };

    ghost invariant = { λ c. (c.text.now ≡ c.tokens.text) × IsUtf8 c.tokens.text };
}

impl<'a> Cursor<'a> {
    /// Stands at an offset.
    pub fn at(text: &'a str, at: usize) -> Cursor<'a>
        requires { IsCharBoundary text.now at }
        ensures { result ≡ record { text = text.now; offset = at } }
    {
        Cursor {
            text,
            tokens: Tokenizer::at(text, at),
        }
    }

    /// The byte offset where it stands.
    pub fn current(&mut self) -> usize
        ensures offset { result ≡ self.old.offset }
        ensures same { self.new ≡ self.old }
        ensures utf8 { IsUtf8 self.old.text }
    {
        self.tokens.current()
    }

    /// Takes the next token, and answers where it stood; `None` at the end of the text.
    pub fn next(&mut self, alloc: Global) -> Result<Option<(Span, Token<'a>)>, ReadError>
        ensures { TakesToken self.old self.new result }
    {
        Ok(self.tokens.next(alloc)?)
    }

    /// Takes punctuation, a token of one character, if it stands there.
    pub fn eat(&mut self, alloc: Global, sign: Token<'a>) -> Result<bool, ReadError>
        requires { punctuation_of (code_of (lexeme_of sign)) ≡ Some (lexeme_of sign) }
        ensures { EatsPunctuation (code_of (lexeme_of sign.entry)) self.old self.new result }
    {
        Ok(self.tokens.eat(alloc, sign)?)
    }

    /// Takes a word, if one stands there. Another token may be taken, too.
    pub fn keylike(&mut self, alloc: Global) -> Result<Option<&'a str>, ReadError>
        ensures { TakesWord self.old self.new result }
    {
        match self.next(alloc)? {
            Some((_, token)) => Ok(word_of(token)),
            None => Ok(None),
        }
    }

    /// Takes a key. Another token is taken, too.
    pub fn key(&mut self, alloc: Global) -> Result<Key<'a>, ReadError>
        ensures { ReadsKey self.old self.new result }
    {
        let (span, text) = self.tokens.table_key(alloc)?;
        Ok(Key {
            offset: span.start,
            text,
        })
    }
}

// The text of a word, or `None` for another token.
fn word_of<'a>(token: Token<'a>) -> Option<&'a str>
    ensures { IsWordOf (lexeme_of token.entry) result }
{
    match token {
        Token::Keylike(word) => Some(word),
        _ => None,
    }
}
