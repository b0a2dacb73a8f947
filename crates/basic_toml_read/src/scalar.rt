//! Reads keys, strings and words at an offset of a text.
ghost use Rattle.std.specs.Prelude.{IfErr, IfOk, ◌≡◌, ◌<◌, [], true, length, slice_index};
ghost use Rattle.std.specs.Str.{IsCharBoundary};
ghost use Rattle.std.specs.Cow.{cow_str_bytes};
ghost use Rattle.basic_toml_tokens.specs.Text.{text_at, run, is_keylike};
ghost use Rattle.basic_toml_tokens.specs.Strings.{is_quote};
ghost use Rattle.basic_toml_tokens.specs.String.{is_owned};
ghost use Rattle.basic_toml_grammar.specs.Sections as sections;
ghost use Rattle.basic_toml_read.specs.Word as words;
ghost use Rattle.basic_toml_read.specs.SectionView.{raw_of};
ghost use Rattle.basic_toml_explain.specs.Stop.{StopsInside};
ghost use Rattle.basic_toml_read.specs.StopsAt.{stop_of, is_copy, IsKept, IsKeyOf, ReadsKeyAt, ReadsStringAt, ReadsWordAt, WantsEnd};

use crate::front::{begins_string, end_of_word, ends_word};
use crate::key_text::KeyText;
use crate::section::Raw;
use crate::word::{Word, value_offset, word_value};
use basic_toml_explain::{End, Stop, Why};
use basic_toml_numbers::first_digits;
use basic_toml_tokens::{Class, Error, Quoted, TokenStop, end_of_run, simple_string_at, string_at};
use std::alloc::Global;
use std::borrow::CowStr;

/// A value with its offset, and where it ends.
#[derive(Drop)]
pub(crate) struct Valued<'de> {
    pub offset: usize,
    pub value: Raw<'de>,
    pub end: usize,
}

/// A key, and where it ends.
#[derive(Drop)]
pub(crate) struct Keyed<'de> {
    pub end: usize,
    pub key: KeyText<'de>,
}

// The stop at an offset where no string was taken.
fn refused(refusal: TokenStop, at: usize, why: Why) -> Stop
    ensures { result ≡ stop_of refusal.error at why }
{
    match refusal.error {
        Error::OutOfMemory => Stop {
            at,
            why: Why::Memory,
        },
        _ => Stop { at, why },
    }
}

/// The key at an offset.
#[inline(always)]
pub(crate) fn key_at<'de>(alloc: Global, text: &'de str, at: usize) -> Result<Keyed<'de>, Stop>
    requires { IsCharBoundary text.now at }
    ensures read { ReadsKeyAt text.now at result }
    ensures inside { IfErr result (λ stop. StopsInside text.now stop) }
{
    let end = end_of_run(text, at, Class::Keylike);
    if at == end {
        return quoted_key_at(alloc, text, at);
    }
    Ok(Keyed {
        key: KeyText::Borrowed(&text[at..end]),
        end,
    })
}

// The key at an offset where no bare one stands.
fn quoted_key_at<'de>(alloc: Global, text: &'de str, at: usize) -> Result<Keyed<'de>, Stop>
    requires boundary { IsCharBoundary text.now at }
    requires none { run is_keylike (text_at text.now at) ≡ [] }
    ensures read { ReadsKeyAt text.now at result }
    ensures inside { IfErr result (λ stop. StopsInside text.now stop) }
{
    if !begins_string(text, at) {
        return Err(Stop { at, why: Why::Key });
    }
    match string_at(alloc, text, at) {
        Ok(quoted) => key_of(alloc, quoted, at),
        Err(refusal) => Err(refused(refusal, at, Why::Key)),
    }
}

// A one-line string as a key.
fn key_of<'de>(alloc: Global, quoted: Quoted<'de>, at: usize) -> Result<Keyed<'de>, Stop>
    ensures { IsKeyOf quoted.entry at result }
{
    if quoted.multiline {
        return Err(Stop { at, why: Why::Key });
    }
    Ok(Keyed {
        key: KeyText::from_cow(alloc, quoted.val)?,
        end: quoted.end,
    })
}

// The value of a string.
fn string_of<'de>(text: CowStr<'de>) -> Raw<'de>
    ensures value { raw_of result ≡ sections.Raw.string (cow_str_bytes text.entry) (is_owned text.entry) }
    ensures copied { is_copy result ≡ is_owned text.entry }
{
    match text {
        CowStr::Borrowed(text) => Raw::String(text),
        CowStr::Owned(text) => Raw::Escaped(text),
    }
}

/// The string at an offset, as a value.
pub(crate) fn string_value_at<'de>(
    alloc: Global,
    text: &'de str,
    at: usize,
) -> Result<Valued<'de>, Stop>
    requires boundary { IsCharBoundary text.now at }
    requires within { at < length text.now }
    requires quote { is_quote (slice_index text.now at) ≡ true }
    ensures read { ReadsStringAt text.now at result }
    ensures kept { IfOk result (λ valued. IsKept text.now at valued) }
    ensures inside { IfErr result (λ stop. StopsInside text.now stop) }
{
    match simple_string_at(text, at) {
        Some((value, end)) => Ok(Valued {
            offset: at,
            value: Raw::String(value),
            end,
        }),
        None => any_string_value_at(alloc, text, at),
    }
}

// The same, where the string may have escapes or more than one line.
#[inline(always)]
fn any_string_value_at<'de>(alloc: Global, text: &'de str, at: usize) -> Result<Valued<'de>, Stop>
    requires boundary { IsCharBoundary text.now at }
    requires within { at < length text.now }
    requires quote { is_quote (slice_index text.now at) ≡ true }
    ensures read { ReadsStringAt text.now at result }
    ensures kept { IfOk result (λ valued. IsKept text.now at valued) }
    ensures inside { IfErr result (λ stop. StopsInside text.now stop) }
{
    match string_at(alloc, text, at) {
        Ok(quoted) => Ok(Valued {
            offset: at,
            value: string_of(quoted.val),
            end: quoted.end,
        }),
        Err(refusal) => Err(refused(refusal, at, Why::Value)),
    }
}

// The value of a word.
fn raw<'de>(word: Word) -> Raw<'de>
    ensures { raw_of result ≡ words.raw_of word }
{
    match word {
        Word::Boolean(true) => Raw::True,
        Word::Boolean(false) => Raw::False,
        Word::Integer(value) => Raw::Integer(value),
        Word::Float(value) => Raw::Float(value),
    }
}

/// The number, `true` or `false` at an offset. `end` is wanted after it. Most are a few digits alone, whose number and
/// end are found together.
pub(crate) fn word_at<'de>(
    alloc: Global,
    text: &'de str,
    at: usize,
    end: End,
) -> Result<Valued<'de>, Stop>
    requires { IsCharBoundary text.now at }
    ensures read { ReadsWordAt text.now at result }
    ensures wanted { IfErr result (WantsEnd end) }
    ensures inside { IfErr result (λ stop. StopsInside text.now stop) }
{
    let from = match first_digits(&text.as_bytes()[at..]) {
        Some((number, count)) => {
            let end = at + count;
            if ends_word(text, end) {
                return Ok(Valued {
                    offset: at,
                    value: Raw::Integer(number),
                    end,
                });
            }
            end
        }
        None => at,
    };
    let after = end_of_word(text, at, from);
    if at == after {
        return Err(Stop {
            at,
            why: Why::Value,
        });
    }
    let word = &text[at..after];
    let Some(value) = word_value(alloc, word)? else {
        return Err(Stop {
            at,
            why: Why::Word(end),
        });
    };
    Ok(Valued {
        offset: value_offset(at, at, word, &value),
        value: raw(value),
        end: after,
    })
}
