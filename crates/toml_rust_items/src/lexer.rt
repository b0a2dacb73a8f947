//! The tokens of a file: of Rust, and of the clauses and ghost items in it.
ghost use Rattle.std.specs.Prelude.{◌≡◌, ◌+◌, ◌<◌, ◌^◌, length};
ghost use Rattle.std.specs.Iterator.{at_most};

use std::alloc::{AllocError, Global};

/// What a token is.
#[derive(Clone, Copy, PartialEq, Eq)]
pub enum Kind {
    /// A name or a keyword.
    Word,
    /// A number.
    Number,
    /// A string, with its quotes.
    Text,
    /// A lifetime or a character.
    Quoted,
    /// Any other character.
    Sign,
    /// Blanks or a comment.
    Blank,
}

/// A token and where it stands.
#[derive(Clone, Copy)]
pub struct Token<'t> {
    pub kind: Kind,
    pub text: &'t str,
    /// The offset of its first byte.
    pub at: usize,
    ghost inside: { at + length text.now < 2 ^ 64 },
}

impl<'t> Token<'t> {
    /// The offset behind its last byte.
    pub fn end(&self) -> usize
        ensures { result ≡ self.now.at + length self.now.text.now }
    {
        self.at + self.text.len()
    }

    /// Whether it is an opening bracket.
    pub fn opens(&self) -> bool {
        matches!(self.text, "(" | "[" | "{")
    }

    /// Whether it is a closing bracket.
    pub fn closes(&self) -> bool {
        matches!(self.text, ")" | "]" | "}")
    }
}

/// The tokens of a text but for its blanks, in order.
pub fn tokens_of<'t>(alloc: Global, text: &'t str) -> Result<Vec<Token<'t>>, AllocError> {
    let mut tokens = Vec::new(alloc);
    for token in (Lexer { rest: text, at: 0 }) {
        if token.kind != Kind::Blank {
            tokens.push(token)?;
        }
    }
    Ok(tokens)
}

// Takes a text apart.
#[derive(Drop)]
struct Lexer<'t> {
    rest: &'t str,
    at: usize,
    ghost inside: { at + length rest.now < 2 ^ 64 },
}

impl<'t> Iterator for Lexer<'t> {
    type Item = Token<'t>;

    ghost remaining = { λ s. at_most (length s.rest.now) };

    fn next(&mut self) -> Option<Token<'t>> {
        let (kind, length) = first_token(self.rest)?;
        let (text, rest) = self.rest.split_at_checked(length)?;
        if text.is_empty() {
            return None;
        }
        let at = self.at;
        *self = Lexer {
            rest,
            at: at + text.len(),
        };
        Some(Token { kind, text, at })
    }
}

// What the first token is, and how many bytes it has.
fn first_token(rest: &str) -> Option<(Kind, usize)> {
    let first = rest.chars().next()?;
    if rest.starts_with("//") {
        return Some((Kind::Blank, rest.find('\n').unwrap_or(rest.len())));
    }
    if rest.starts_with("/*") {
        return Some((Kind::Blank, comment_len(rest)));
    }
    if let Some(literal) = prefixed_literal(rest) {
        return Some(literal);
    }
    Some(match first {
        '\'' => (Kind::Quoted, quoted_len(rest)),
        '0'..='9' => (Kind::Number, word_len(rest)),
        _ if first.is_whitespace() => (Kind::Blank, blank_len(rest)),
        _ if is_word(first) => (Kind::Word, name_len(rest)),
        _ => (Kind::Sign, first.len_utf8()),
    })
}

fn is_word(c: char) -> bool {
    c.is_alphanumeric() || c == '_'
}

fn word_len(rest: &str) -> usize {
    rest.find(|c: char| !is_word(c)).unwrap_or(rest.len())
}

fn blank_len(rest: &str) -> usize {
    rest.find(|c: char| !c.is_whitespace())
        .unwrap_or(rest.len())
}

// A name of a clause may have primes.
fn name_len(rest: &str) -> usize {
    rest.find(|c: char| !is_word(c) && c != '\'')
        .unwrap_or(rest.len())
}

// A comment between `/*` and `*/`, with those in it.
fn comment_len(rest: &str) -> usize {
    let mut depth = 0usize;
    let mut before = 0;
    for (at, byte) in rest.as_bytes().iter().enumerate() {
        match (before, *byte) {
            (b'/', b'*') => {
                depth = depth.saturating_add(1);
                before = 0;
            }
            (b'*', b'/') => {
                if depth <= 1 {
                    return at + 1;
                }
                depth -= 1;
                before = 0;
            }
            (_, byte) => before = byte,
        }
    }
    rest.len()
}

// A string or a byte, which may begin with letters; `None` where there is none.
fn prefixed_literal(rest: &str) -> Option<(Kind, usize)> {
    let (prefix, literal) = rest.split_at_checked(word_len(rest))?;
    match prefix {
        "" | "b" | "c" if literal.starts_with('"') => Some((Kind::Text, escaped_len(rest, b'"'))),
        "b" if literal.starts_with('\'') => Some((Kind::Quoted, escaped_len(rest, b'\''))),
        "r" | "br" | "cr" => {
            let hashes = literal.find(|c: char| c != '#')?;
            let (_, text) = literal.split_at_checked(hashes)?;
            text.starts_with('"')
                .then_some((Kind::Text, raw_len(rest, hashes)))
        }
        _ => None,
    }
}

// What stands between two quotes, with both and with what stands before the first; a backslash takes what follows it.
fn escaped_len(rest: &str, quote: u8) -> usize {
    let mut is_open = false;
    let mut is_escaped = false;
    for (at, byte) in rest.as_bytes().iter().enumerate() {
        if is_escaped {
            is_escaped = false;
        } else if *byte == b'\\' {
            is_escaped = true;
        } else if *byte == quote {
            if is_open {
                return at + 1;
            }
            is_open = true;
        }
    }
    rest.len()
}

// A raw string: it ends with a quote and so many hashes behind it.
fn raw_len(rest: &str, hashes: usize) -> usize {
    let mut is_open = false;
    let mut missing = None;
    for (at, byte) in rest.as_bytes().iter().enumerate() {
        missing = match (missing, *byte) {
            (_, b'"') if is_open => Some(hashes),
            (_, b'"') => None,
            (Some(left), b'#') if left > 0 => Some(left - 1),
            _ => None,
        };
        is_open |= *byte == b'"';
        if missing == Some(0) {
            return at + 1;
        }
    }
    rest.len()
}

// A character with its quotes, or a lifetime.
fn quoted_len(rest: &str) -> usize {
    let mut chars = rest.chars();
    let (_, first, second) = (chars.next(), chars.next(), chars.next());
    if first == Some('\\') || second == Some('\'') {
        escaped_len(rest, b'\'')
    } else {
        name_len(rest)
    }
}
