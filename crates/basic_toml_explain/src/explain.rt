//! From where reading stopped to the error of the text: `explain`, public as `error_at`.
ghost use Rattle.std.specs.Prelude.{◌≡◌, None, []};
ghost use Rattle.std.specs.Str.{IsCharBoundary};
ghost use Rattle.basic_toml_tokens.specs.Text.{text_at, folded, run};
ghost use Rattle.basic_toml_grammar.specs.Grammar.{is_wordlike};
ghost use Rattle.basic_toml_grammar.specs.Holes.{Hole, HoleInText, behind_in_text};
ghost use Rattle.basic_toml_grammar.specs.Reader.{key_at, word_at};
ghost use Rattle.basic_toml_explain.specs.Stop.{StopsInside};
ghost use Rattle.basic_toml_explain.specs.StopHoles.{MissesWord, NoValue};
ghost use Rattle.basic_toml_explain.specs.Explain.{end_word, IsWanting, IsDue, Explains, Stops};

use crate::cursor::Cursor;
use crate::number::number;
use crate::stop::{End, Stop, Why};
use crate::{ReadError, ReadErrorKind};
use basic_toml_tokens::{Error, token_at};
use std::alloc::Global;

// What is wanted after a value.
fn after_value(end: End) -> &'static str
    ensures { result.now ≡ end_word end }
{
    match end {
        End::Newline => "newline",
        End::Bracket => "a right bracket",
        End::Comma => "a comma",
    }
}

// Another thing stands at an offset than what is wanted there.
fn wanted(alloc: Global, text: &str, at: usize, expected: &'static str) -> ReadError
    requires { IsCharBoundary text.now at }
    ensures { IsWanting text.now at expected.now result }
{
    match token_at(alloc, text, at) {
        Ok(Some((token, _))) => ReadError::wanted_at(at, expected, token.describe()),
        Ok(None) => ReadError::wanted_at(at, expected, "eof"),
        Err(refusal) => ReadError::from(refusal.error),
    }
}

// A key has to come at an offset, and none stands there.
fn no_key(alloc: Global, text: &str, at: usize) -> ReadError
    requires boundary { IsCharBoundary text.now at }
    requires hole { HoleInText (folded text.now) Hole.key (text_at text.now at) }
    requires none { key_at (text_at text.now at) ≡ None }
    ensures { IsDue text.now result }
{
    match Cursor::at(text, at).key(alloc) {
        Ok(_) => wanted(alloc, text, at, "a table key"),
        Err(error) => error,
    }
}

// A value has to come at an offset, and none begins there.
fn no_value(alloc: Global, text: &str, at: usize) -> ReadError
    requires boundary { IsCharBoundary text.now at }
    requires hole { HoleInText (folded text.now) Hole.value (text_at text.now at) }
    requires none { NoValue (text_at text.now at) }
    ensures { IsDue text.now result }
{
    if at == text.len() {
        return ReadError::at(at, ReadErrorKind::UnexpectedEof);
    }
    wanted(alloc, text, at, "a value")
}

// A value has to come at an offset. The word there is none, and `end` would be wanted after one.
fn no_word(alloc: Global, text: &str, at: usize, end: End) -> ReadError
    requires boundary { IsCharBoundary text.now at }
    requires stops { MissesWord (HoleInText (folded text.now)) (λ t d. behind_in_text d) end (text_at text.now at) }
    ensures { IsDue text.now result }
{
    let mut cursor = Cursor::at(text, at);
    match number(&mut cursor, alloc, after_value(end)) {
        Ok(()) => wanted(alloc, text, at, "a value"),
        Err(error) => error,
    }
}

/// The error of a text where reading stopped. It tells what is wanted there and what is found, or what is wrong with
/// the token or the word there, that the text is nested too deeply, or that memory was refused. It reads the text anew
/// from there.
#[cold]
pub fn explain(alloc: Global, text: &str, stop: Stop) -> ReadError
    requires inside { StopsInside text.now stop }
    requires stands { Stops text.now stop }
    ensures { Explains text.now stop result }
{
    let at = stop.at;
    match stop.why {
        Why::Memory => ReadError::from(Error::OutOfMemory),
        Why::Deep => ReadError::at(at, ReadErrorKind::NestedTooDeeply),
        Why::Key => no_key(alloc, text, at),
        Why::Equals => wanted(alloc, text, at, "an equals"),
        Why::Bracket => wanted(alloc, text, at, "a right bracket"),
        Why::Comma => wanted(alloc, text, at, "a comma"),
        Why::Newline => wanted(alloc, text, at, "newline"),
        Why::Value => no_value(alloc, text, at),
        Why::Word(end) => no_word(alloc, text, at, end),
    }
}
