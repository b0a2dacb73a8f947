//! Reads the header of a section: its brackets and its keys.
ghost use Rattle.std.specs.Prelude.{◌≡◌, [], IfErr};
ghost use Rattle.std.specs.Str.{IsCharBoundary};
ghost use Rattle.basic_toml_value.specs.Nesting.{nesting_limit};
ghost use Rattle.basic_toml_explain.specs.Stop.{StopsInside};
ghost use Rattle.basic_toml_read.specs.Lists.{ReadsHeaderKeys, ReadsHeader};
ghost use Rattle.basic_toml_read.specs.StopsReached.{IfDeep, InKeyHole, InHeaderHole};
ghost use Rattle.basic_toml_tokens.specs.Text.{text_at};
ghost use Rattle.basic_toml_grammar.specs.DeepStops.{DeepKeys, DeepHeader};

use crate::front::after_blanks;
use crate::scalar::key_at;
use crate::section::Key;
use crate::values::{closed, raise};
use basic_toml_explain::{Stop, Why};
use basic_toml_tokens::after_punctuation;
use std::alloc::Global;

// A header's keys have room for so many from the start, which few headers pass.
const ROOM: usize = 3;

/// What a header is but for its keys, and where it ends.
#[derive(Clone, Copy)]
pub(crate) struct Header {
    pub end: usize,
    pub is_array: bool,
}

// Reads the keys of a header, the first of which has level 2, into a vector that holds none yet. It answers where the
// blanks after them end.
#[inline(always)]
fn header_keys<'de>(
    alloc: Global,
    text: &'de str,
    at: usize,
    keys: &mut Vec<Key<'de>>,
) -> Result<usize, Stop>
    requires boundary { IsCharBoundary text.now at }
    requires none { keys.old.items ≡ [] }
    ensures read { ReadsHeaderKeys text.now at keys.new.items result }
    ensures inside { IfErr result (λ stop. StopsInside text.now stop) }
    ensures deep { IfDeep (DeepKeys nesting_limit 2 (text_at text.now at)) result }
    ensures hole { InKeyHole (text_at text.now at) text.now result }
{
    keys.try_reserve(ROOM)?;
    let mut offset = at;
    let mut level = 2;
    loop {
        let keyed = key_at(alloc, text, offset)?;
        raise(level, offset)?;
        keys.push(Key {
            text: keyed.key,
            offset,
        })?;
        let end = after_blanks(text, keyed.end);
        match after_punctuation(text, end, b'.') {
            Some(next) => {
                offset = after_blanks(text, next);
                level += 1;
            }
            None => return Ok(end),
        }
    }
}

/// Reads the header whose first bracket stands at `at`. Its keys go into a vector that holds none yet.
pub(crate) fn header_at<'de>(
    alloc: Global,
    text: &'de str,
    at: usize,
    keys: &mut Vec<Key<'de>>,
) -> Result<Header, Stop>
    requires boundary { IsCharBoundary text.now at }
    requires none { keys.old.items ≡ [] }
    ensures read { ReadsHeader text.now at keys.new.items result }
    ensures inside { IfErr result (λ stop. StopsInside text.now stop) }
    ensures deep { IfDeep (DeepHeader nesting_limit (text_at text.now at)) result }
    ensures hole { InHeaderHole text.now at result }
{
    let inner = closed(text, at, b'[', Why::Newline)?;
    match after_punctuation(text, inner, b'[') {
        None => {
            let after = header_keys(alloc, text, after_blanks(text, inner), keys)?;
            let end = closed(text, after, b']', Why::Bracket)?;
            Ok(Header {
                is_array: false,
                end,
            })
        }
        Some(first) => {
            let after = header_keys(alloc, text, after_blanks(text, first), keys)?;
            let last = closed(text, after, b']', Why::Bracket)?;
            let end = closed(text, last, b']', Why::Bracket)?;
            Ok(Header {
                is_array: true,
                end,
            })
        }
    }
}
