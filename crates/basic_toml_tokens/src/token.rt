//! Tokens.
ghost use Rattle.std.specs.Prelude.{◌≡◌, ◌↔◌, IsTrue};

use std::borrow::CowStr;

/// A piece of a text (TOML v0.5.0: "Spec", "Comment", "Keys", "String"). `Whitespace`, `Comment` and `Keylike` hold
/// their bytes in the text.
#[derive(Debug, Drop, PartialEq, Eq)]
pub enum Token<'a> {
    /// Spaces and tabs.
    Whitespace(&'a str),
    /// A line feed, or a carriage return and a line feed.
    Newline,
    /// `#` and what follows on its line.
    Comment(&'a str),
    /// `=`
    Equals,
    /// `.`
    Period,
    /// `,`
    Comma,
    /// `:`
    Colon,
    /// `+`
    Plus,
    /// `{`
    LeftBrace,
    /// `}`
    RightBrace,
    /// `[`
    LeftBracket,
    /// `]`
    RightBracket,
    /// Letters, digits, `-` and `_`, as in a bare key or a number.
    Keylike(&'a str),
    /// A string, with its delimiters in `src`.
    String {
        /// Its bytes in the text.
        src: &'a str,
        /// What it stands for.
        val: CowStr<'a>,
        /// Whether it stands between three delimiters.
        multiline: bool,
    },
}

impl Token<'_> {
    ghost use Rattle.basic_toml_tokens.specs.Token.{lexeme_of};
    ghost use Rattle.basic_toml_tokens.specs.Descriptions.{description_of};

    /// What an error calls it, as `an equals`.
    pub fn describe(&self) -> &'static str
        ensures { result.now ≡ description_of (lexeme_of self.now) }
    {
        match self {
            Token::Whitespace(_) => "whitespace",
            Token::Newline => "a newline",
            Token::Comment(_) => "a comment",
            Token::Equals => "an equals",
            Token::Period => "a period",
            Token::Comma => "a comma",
            Token::Colon => "a colon",
            Token::Plus => "a plus",
            Token::LeftBrace => "a left brace",
            Token::RightBrace => "a right brace",
            Token::LeftBracket => "a left bracket",
            Token::RightBracket => "a right bracket",
            Token::Keylike(_) => "an identifier",
            Token::String {
                multiline: false,
                ..
            } => "a string",
            Token::String {
                multiline: true,
                ..
            } => "a multiline string",
        }
    }

    /// Whether it is the other token, with the same texts.
    pub(crate) fn is(&self, other: &Token<'_>) -> bool
        ensures { IsTrue result ↔ (lexeme_of self.now ≡ lexeme_of other.now) }
    {
        self == other
    }
}
