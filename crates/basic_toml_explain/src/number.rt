//! The error of a word or a plus that begins no value, where a value has to come.
ghost use Rattle.std.specs.Prelude.{◌≡◌, ◌-◌, codes, ◌||◌, ◌∷◌, [], None, length};
ghost use Rattle.std.specs.Str.{IsCharBoundary, bytes_eq};
ghost use Rattle.basic_toml_tokens.specs.Text.{text_at, run, is_keylike};
ghost use Rattle.basic_toml_tokens.specs.Token.{lexeme_of};
ghost use Rattle.basic_toml_tokens.specs.Reading.{text_of};
ghost use Rattle.basic_toml_numbers.specs.Numbers as numbers;
ghost use Rattle.basic_toml_grammar.specs.Grammar as grammar;
ghost use Rattle.basic_toml_grammar.specs.Grammar.{is_wordlike};
ghost use Rattle.basic_toml_grammar.specs.NumberFaults as faults;
ghost use Rattle.basic_toml_grammar.specs.NumberTokens.{behind_word, behind_number, word_rest, number_rest};
ghost use Rattle.basic_toml_grammar.specs.Reader.{word_at};
ghost use Rattle.basic_toml_explain.specs.Cursor.{IsAfterWord};
ghost use Rattle.basic_toml_explain.specs.Number.{IsFirst, LacksValue, IsJointNext, IsNumberStop, IsWordStop};

mod fault;
mod part;

use self::fault::{begins_number, look_behind, takes_no_plus, word_fault};
use crate::cursor::Cursor;
use crate::{ReadError, ReadErrorKind};
use basic_toml_tokens::Token;
use std::alloc::Global;

// What a token is where a value has to come: a word, a plus, or another one.
#[derive(Drop)]
enum First<'a> {
    Word(&'a str),
    Plus,
    Other,
}

fn first_of<'a>(token: Token<'a>) -> First<'a>
    ensures { IsFirst (lexeme_of token.entry) result }
{
    match token {
        Token::Keylike(word) => First::Word(word),
        Token::Plus => First::Plus,
        _ => First::Other,
    }
}

fn is_boolean(word: &str) -> bool
    ensures { result ≡ (bytes_eq word.now (codes "true") || bytes_eq word.now (codes "false")) }
{
    word == "true" || word == "false"
}

/// The error of the word or the plus that stands there, with which no value begins. `Ok` where another
/// token stands, which is taken, or the text is over.
///
/// A word goes on over periods and pluses. Where only a beginning of it is a value, the error says what
/// is found where `wanted` should stand.
pub(crate) fn number(
    cursor: &mut Cursor<'_>,
    alloc: Global,
    wanted: &'static str,
) -> Result<(), ReadError>
    requires none { word_at (text_of cursor.old) ≡ None }
    requires some { run is_wordlike (text_of cursor.old) ≡ [] → ⊥ }
    ensures { LacksValue wanted.now cursor.old result }
{
    let start = cursor.current();
    let Some((_, token)) = cursor.next(alloc)? else {
        return Ok(());
    };
    match first_of(token) {
        First::Word(word) => Err(word_error(cursor, alloc, word, wanted)),
        First::Plus => Err(plus_error(cursor, alloc, start, wanted)),
        First::Other => Ok(()),
    }
}

// Why a plus at `start`, after which the cursor stands, and what goes on with it are no value.
fn plus_error(
    cursor: &mut Cursor<'_>,
    alloc: Global,
    start: usize,
    wanted: &'static str,
) -> ReadError
    requires boundary { IsCharBoundary cursor.old.text cursor.old.offset }
    requires sign { text_at cursor.old.text start ≡ (start, 43) ∷ text_of cursor.old }
    requires no_value { word_at (text_at cursor.old.text start) ≡ None }
    ensures { let front = text_at cursor.old.text start in
        IsNumberStop (length cursor.old.text) wanted.now (faults.number_fault (length cursor.old.text) front)
        (behind_number front) (number_rest front) result }
{
    let at = cursor.current();
    match cursor.keylike(alloc) {
        Ok(Some(word)) => {
            if takes_no_plus(word.as_bytes()) {
                return match look_behind(cursor, alloc, word) {
                    Ok(()) => ReadError::at(at, ReadErrorKind::NumberInvalid),
                    Err(error) => error,
                };
            }
            number_error(cursor, alloc, word, wanted)
        }
        Ok(None) => ReadError::at(at, ReadErrorKind::NumberInvalid),
        Err(error) => error,
    }
}

// Why a word and what goes on with it are no value.
fn word_error(cursor: &mut Cursor<'_>, alloc: Global, word: &str, wanted: &'static str) -> ReadError
    requires after { IsAfterWord (cursor.old.offset - length word.now) word.now cursor.old }
    requires no_value { grammar.word_value
        (run is_wordlike (text_at cursor.old.text (cursor.old.offset - length word.now))) ≡ None }
    ensures { IsWordStop (length cursor.old.text) wanted.now
        (text_at cursor.old.text (cursor.old.offset - length word.now)) result }
{
    if is_boolean(word) {
        return joint_error(cursor, alloc, wanted);
    }
    if !begins_number(word) {
        let start = cursor.current() - word.len();
        return ReadError::at(start, ReadErrorKind::UnquotedString);
    }
    number_error(cursor, alloc, word, wanted)
}

// Why a number and what goes on with it are no value.
fn number_error(
    cursor: &mut Cursor<'_>,
    alloc: Global,
    word: &str,
    wanted: &'static str,
) -> ReadError
    requires after { IsAfterWord (cursor.old.offset - length word.now) word.now cursor.old }
    requires no_value { let text = run is_wordlike (text_at cursor.old.text (cursor.old.offset - length word.now)) in
        grammar.number_value (numbers.integer_of text) (numbers.float_of text) ≡ None }
    ensures { let start = cursor.old.offset - length word.now in
        IsNumberStop (length cursor.old.text) wanted.now
        (faults.word_fault (length cursor.old.text) start word.now (text_of cursor.old))
        (behind_word word.now (faults.without_minus word.now) (text_of cursor.old))
        (word_rest word.now (text_of cursor.old)) result }
{
    match word_fault(cursor, alloc, word) {
        Ok(Some(offset)) => ReadError::at(offset, ReadErrorKind::NumberInvalid),
        Ok(None) => joint_error(cursor, alloc, wanted),
        Err(error) => error,
    }
}

// The error after a word that is over: what stands there, where another thing is wanted.
fn joint_error(cursor: &mut Cursor<'_>, alloc: Global, wanted: &'static str) -> ReadError
    requires some { run is_wordlike (text_of cursor.old) ≡ [] → ⊥ }
    requires no_word { run is_keylike (text_of cursor.old) ≡ [] }
    ensures { IsJointNext wanted.now cursor.old result }
{
    let at = cursor.current();
    match cursor.next(alloc) {
        Ok(Some((_, token))) => ReadError::wanted_at(at, wanted, token.describe()),
        Ok(None) => ReadError::wanted_at(at, wanted, "eof"),
        Err(error) => error,
    }
}
