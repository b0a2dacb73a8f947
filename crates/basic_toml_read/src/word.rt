//! Words that are values: numbers, `true` and `false`.
ghost use Rattle.std.specs.Prelude.{◌≡◌, ◌+◌, ◌<◌, ◌^◌, ◌==◌, position, length, IfOk};
ghost use Rattle.std.specs.Option.{option_map};
ghost use Rattle.basic_toml_numbers.specs.Numbers as numbers;
ghost use Rattle.basic_toml_grammar.specs.Grammar as grammar;
ghost use Rattle.basic_toml_read.specs.Word as spec;
ghost use Rattle.basic_toml_read.specs.Word.{raw_of};

use basic_toml_numbers::{float_of, integer_of};
use basic_toml_value::Float;
use std::alloc::{AllocError, Global};

/// The value that a word writes.
#[derive(Drop)]
pub(crate) enum Word {
    Boolean(bool),
    Integer(i64),
    Float(Float),
}

pub(crate) fn word_value(alloc: Global, word: &str) -> Result<Option<Word>, AllocError>
    ensures { IfOk result (λ found. option_map raw_of found ≡ grammar.word_value word.now) }
{
    match word {
        "true" => Ok(Some(Word::Boolean(true))),
        "false" => Ok(Some(Word::Boolean(false))),
        _ => number_value(alloc, word),
    }
}

fn number_value(alloc: Global, word: &str) -> Result<Option<Word>, AllocError>
    ensures { IfOk result (λ found. option_map raw_of found
        ≡ grammar.number_value (numbers.integer_of word.now) (numbers.float_of word.now)) }
{
    if let Some(number) = integer_of(word) {
        return Ok(Some(Word::Integer(number)));
    }
    match float_of(alloc, word)? {
        Some(float) => Ok(Some(Word::Float(float))),
        None => Ok(None),
    }
}

fn period_in(word: &[u8]) -> Option<usize>
    ensures { result ≡ position (λ c. c == 46) word.now }
{
    word.iter().position(|byte| *byte == b'.')
}

// The offset of a value that begins at `start`, with its word at `at`: a float with a fraction has the offset after
// the period.
pub(crate) fn value_offset(start: usize, at: usize, word: &str, value: &Word) -> usize
    requires { at + length word.now < 2 ^ 64 }
    ensures { result ≡ spec.value_offset start at word.now (raw_of value.now) }
{
    match value {
        Word::Float(_) => match period_in(word.as_bytes()) {
            Some(index) => at + index + 1,
            None => start,
        },
        _ => start,
    }
}
