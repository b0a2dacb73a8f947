//! Tokens, one after another.

ghost use Rattle.std.specs.Prelude.{◌≡◌, ◌==◌, ◌++◌, ◌<◌, ◌↔◌, IsSome, drop, length};
ghost use Rattle.std.specs.Iterator.{at_most};

use crate::lexer::{Kind, Token};
use crate::refusal::{NoImpls, Reason};

/// Tokens that are still to be read.
#[derive(Clone, Copy)]
pub struct Cursor<'c, 't> {
    pub rest: &'c [Token<'t>],
    /// The offset of what stands behind them.
    pub end: usize,
}

impl<'c, 't> Cursor<'c, 't> {
    /// How many tokens are left.
    pub fn len(&self) -> usize
        ensures { result ≡ length self.now.rest.now }
    {
        self.rest.len()
    }

    /// Whether none is left.
    pub fn is_empty(&self) -> bool
        ensures { result ≡ (length self.now.rest.now == 0) }
    {
        self.rest.is_empty()
    }

    /// The offset of the next token, or of what stands behind the last.
    pub fn at(&self) -> usize {
        match self.rest.first() {
            Some(token) => token.at,
            None => self.end,
        }
    }

    /// The offset behind the last token.
    pub fn last_end(&self) -> usize {
        match self.rest.last() {
            Some(token) => token.end(),
            None => self.end,
        }
    }

    /// Whether the next token is this one.
    pub fn sees(&self, text: &str) -> bool {
        match self.rest.first() {
            Some(token) => token.text == text,
            None => false,
        }
    }

    /// Takes the next token.
    pub fn next(&mut self) -> Option<Token<'t>>
        ensures some { IsSome result ↔ (0 < length self.old.rest.now) }
        ensures rest { self.new.rest.now ≡ drop 1 self.old.rest.now }
    {
        let (first, rest) = self.rest.split_first()?;
        *self = Cursor { rest, ..*self };
        Some(*first)
    }

    /// Takes the next token if it is this one, and says whether it is.
    pub fn takes(&mut self, text: &str) -> bool {
        let is_next = self.sees(text);
        if is_next {
            self.next();
        }
        is_next
    }

    /// Whether these are the next tokens.
    pub fn begins(mut self, texts: &[&str]) -> bool {
        for text in texts {
            if !self.takes(text) {
                return false;
            }
        }
        true
    }

    /// Takes the next token, which has to be this one.
    pub fn expect(&mut self, text: &'static str) -> Result<(), NoImpls<'t>> {
        if self.takes(text) {
            Ok(())
        } else {
            Err(NoImpls::At(self.at(), Reason::Expected(text)))
        }
    }

    /// Takes the next token, which has to be of this kind.
    pub fn take(&mut self, kind: Kind, what: &'static str) -> Result<Token<'t>, NoImpls<'t>> {
        let at = self.at();
        match self.next() {
            Some(token) if token.kind == kind => Ok(token),
            _ => Err(NoImpls::At(at, Reason::Expected(what))),
        }
    }

    /// Takes what stands up to the bracket that closes the one before, and that bracket, too.
    pub fn group(&mut self) -> Result<Cursor<'c, 't>, NoImpls<'t>> {
        let Some(length) = closing(self.rest) else {
            return Err(NoImpls::At(self.at(), Reason::Unclosed));
        };
        let inside = self.front(length);
        self.next();
        Ok(inside)
    }

    /// Takes an item: up to a semicolon, or to the brace that closes its block where it `has_block`.
    pub fn item(&mut self, has_block: bool) -> Result<Cursor<'c, 't>, NoImpls<'t>> {
        let Some(length) = item_len(self.rest, has_block) else {
            return Err(NoImpls::At(self.at(), Reason::Unclosed));
        };
        Ok(self.front(length))
    }

    /// The parts between commas, but for empty ones; what stands in brackets, also in angle brackets, is not parted.
    pub fn parts(self) -> Parts<'c, 't> {
        Parts { tokens: self }
    }

    /// No tokens, where these stand.
    pub fn nothing(self) -> Cursor<'c, 't> {
        Cursor {
            rest: &[],
            end: self.at(),
        }
    }

    /// Goes to the next token that is this one, or behind the last.
    pub fn skip_to(&mut self, text: &str) {
        for _ in 0..self.len() {
            if self.sees(text) {
                break;
            }
            self.next();
        }
    }

    // Takes so many tokens, or all that are left.
    fn front(&mut self, count: usize) -> Cursor<'c, 't>
        ensures { result.rest.now ++ self.new.rest.now ≡ self.old.rest.now }
    {
        let (front, rest) = self.rest.split_at(count.min(self.rest.len()));
        *self = Cursor { rest, ..*self };
        Cursor {
            rest: front,
            end: self.at(),
        }
    }
}

/// Tokens, part for part.
#[derive(Drop)]
pub struct Parts<'c, 't> {
    tokens: Cursor<'c, 't>,
}

impl<'c, 't> Iterator for Parts<'c, 't> {
    type Item = Cursor<'c, 't>;

    ghost remaining = { λ s. at_most (length s.tokens.rest.now) };

    fn next(&mut self) -> Option<Cursor<'c, 't>> {
        let commas = self.tokens.rest.iter().position(|token| token.text != ",")?;
        self.tokens.front(commas);
        let length = comma(self.tokens.rest);
        let part = self.tokens.front(length);
        if part.is_empty() {
            return None;
        }
        Some(part)
    }
}

// How many tokens stand before the bracket that closes one before them.
fn closing(rest: &[Token<'_>]) -> Option<usize> {
    let mut depth = 0usize;
    for (index, token) in rest.iter().enumerate() {
        if token.opens() {
            depth = depth.saturating_add(1);
        } else if token.closes() {
            if depth == 0 {
                return Some(index);
            }
            depth -= 1;
        }
    }
    None
}

// How many tokens an item has.
fn item_len(rest: &[Token<'_>], has_block: bool) -> Option<usize> {
    let mut depth = 0usize;
    for (index, token) in rest.iter().enumerate() {
        if token.opens() {
            depth = depth.saturating_add(1);
        } else if token.closes() {
            depth = depth.saturating_sub(1);
        }
        if depth == 0 && (token.text == ";" || (has_block && token.text == "}")) {
            return Some(index + 1);
        }
    }
    None
}

// How many tokens stand before the next comma that parts them, or how many there are.
fn comma(rest: &[Token<'_>]) -> usize {
    let mut depth = 0usize;
    for (index, token) in rest.iter().enumerate() {
        if token.opens() || token.text == "<" {
            depth = depth.saturating_add(1);
        } else if token.closes() || token.text == ">" {
            depth = depth.saturating_sub(1);
        } else if token.text == "," && depth == 0 {
            return index;
        }
    }
    rest.len()
}
