//! Reads rows and their values: strings, words, and arrays and inline tables, which nest.
ghost use Rattle.std.specs.Prelude.{IfErr, ◌≡◌, ◌≤◌, ◌+◌, true, length, drop, take, IfOk};
ghost use Rattle.std.specs.Str.{IsCharBoundary};
ghost use Rattle.basic_toml_value.specs.Nesting.{nesting_limit};
ghost use Rattle.basic_toml_explain.specs.Stop.{StopsInside};
ghost use Rattle.basic_toml_explain.specs.StopHoles.{hole_behind};
ghost use Rattle.basic_toml_read.specs.StopsReached.{IfDeep, InHole, InKeyHole, in_value, in_elements, in_fields, in_row};
ghost use Rattle.basic_toml_tokens.specs.Text.{text_at, is_comment, after_blanks};
ghost use Rattle.basic_toml_grammar.specs.Grammar.{after_gap};
ghost use Rattle.basic_toml_grammar.specs.DeepStops.{DeepKeys, DeepRow, DeepValue, DeepArray, DeepElements, DeepInline, DeepFields};
ghost use Rattle.basic_toml_tokens.specs.Punctuation.{is_lone};
ghost use Rattle.basic_toml_read.specs.Gathers.{RaisesTo, ClosesAt, ReadsKeys, ReadsRow, ReadsValue, ReadsElements, ReadsArray, ReadsFields, ReadsInline, IsTableTaken};

use crate::front::{after_blanks, after_gap, begins_string};
use crate::key_text::KeyText;
use crate::scalar::{Valued, key_at, string_value_at, word_at};
use crate::section::{Element, Key, Raw, Row, Rows};
use basic_toml_explain::{End, Stop, Why};
use basic_toml_tokens::after_punctuation;
use basic_toml_value::NESTING_LIMIT;
use std::alloc::{AllocError, Global};
use std::mem;

/// What is read is gathered in vectors that are used again, and is taken out of them where it is
/// whole. So each vector that is kept is as long as it has to be.
#[derive(Drop)]
pub(crate) struct Gathered<'de> {
    pub alloc: Global,
    pub elements: Vec<Element<'de>>,
    /// The keys of rows that a period follows.
    pub parents: Vec<Key<'de>>,
    pub rows: Vec<Row<'de>>,
}

/// The last key of a row with its offset and its level, and where the blanks after it end.
#[derive(Drop)]
struct LastKey<'de> {
    offset: usize,
    key: KeyText<'de>,
    level: usize,
    end: usize,
}

/// Stops at a key or a bracket at an offset, if its level is above the limit.
#[inline]
pub(crate) fn raise(level: usize, at: usize) -> Result<(), Stop>
    ensures { RaisesTo level at result }
{
    if level > NESTING_LIMIT {
        return Err(Stop { at, why: Why::Deep });
    }
    Ok(())
}

// From this many items on, a whole vector is handed over as it is, and not copied.
const MANY: usize = 64;

/// The items from a number on, in a vector of their own.
pub(crate) fn taken<T>(items: &mut Vec<T>, from: usize) -> Result<Vec<T>, AllocError>
    requires { from ≤ length items.old.items }
    ensures { IfOk result (λ kept. (kept.items ≡ drop from items.old.items)
        × (items.new.items ≡ take from items.old.items)) }
{
    if from == items.len() {
        return Ok(Vec::new(*items.allocator()));
    }
    if from == 0 && items.len() >= MANY {
        let alloc = *items.allocator();
        return Ok(mem::replace(items, Vec::new(alloc)));
    }
    items.split_off(from)
}

impl<'de> Gathered<'de> {
    // Reads the keys of a row, the first of which has this level. Each but the last goes to the parents.
    fn keys(&mut self, text: &'de str, at: usize, first: usize) -> Result<LastKey<'de>, Stop>
        requires boundary { IsCharBoundary text.now at }
        requires level { first ≤ nesting_limit }
        ensures read { ReadsKeys text.now at first self.old self.new result }
        ensures inside { IfErr result (λ stop. StopsInside text.now stop) }
        ensures deep { IfDeep (DeepKeys nesting_limit first (text_at text.now at)) result }
        ensures hole { InKeyHole (text_at text.now at) text.now result }
    {
        let mut offset = at;
        let mut level = first;
        loop {
            let keyed = key_at(self.alloc, text, offset)?;
            raise(level, offset)?;
            let end = after_blanks(text, keyed.end);
            match after_punctuation(text, end, b'.') {
                Some(next) => {
                    self.parents.push(Key {
                        text: keyed.key,
                        offset,
                    })?;
                    offset = after_blanks(text, next);
                    level += 1;
                }
                None => {
                    return Ok(LastKey {
                        key: keyed.key,
                        offset,
                        level,
                        end,
                    });
                }
            }
        }
    }

    /// Reads the row at an offset, whose first key has this level, and answers where it ends. `end` is wanted after
    /// it.
    #[cycle(values)]
    pub(crate) fn row(
        &mut self,
        text: &'de str,
        at: usize,
        level: usize,
        end: End,
    ) -> Result<usize, Stop>
        requires boundary { IsCharBoundary text.now at }
        requires level { level ≤ nesting_limit }
        ensures read { ReadsRow text.now at level self.old self.new result }
        ensures inside { IfErr result (λ stop. StopsInside text.now stop) }
        ensures deep { IfDeep (DeepRow nesting_limit level (text_at text.now at)) result }
        ensures hole { InHole (in_row (text_at text.now at) (hole_behind end)) text.now result }
    {
        let last = self.keys(text, at, level)?;
        let Some(next) = after_punctuation(text, last.end, b'=') else {
            return Err(Stop {
                at: last.end,
                why: Why::Equals,
            });
        };
        let valued = self.value(text, after_blanks(text, next), last.level, end)?;
        self.rows.push(Row {
            key: last.key,
            offset: last.offset,
            parents: last.level - level,
            start: valued.offset,
            value: valued.value,
        })?;
        Ok(valued.end)
    }

    // The value at an offset within something of a level. `end` is wanted after it.
    #[cycle(values)]
    fn value(
        &mut self,
        text: &'de str,
        at: usize,
        level: usize,
        end: End,
    ) -> Result<Valued<'de>, Stop>
        requires boundary { IsCharBoundary text.now at }
        requires level { level ≤ nesting_limit }
        ensures read { ReadsValue text.now at level self.old self.new result }
        ensures inside { IfErr result (λ stop. StopsInside text.now stop) }
        ensures deep { IfDeep (DeepValue nesting_limit level (text_at text.now at)) result }
        ensures hole { InHole (in_value (text_at text.now at) (hole_behind end)) text.now result }
    {
        if let Some(next) = after_punctuation(text, at, b'[') {
            return self.array(text, at, next, level + 1);
        }
        if let Some(next) = after_punctuation(text, at, b'{') {
            return self.inline(text, at, next, level + 1);
        }
        if begins_string(text, at) {
            return string_value_at(self.alloc, text, at);
        }
        word_at(self.alloc, text, at, end)
    }

    // The array whose bracket stands at `offset` and has this level, from after the bracket on.
    #[cycle(values)]
    fn array(
        &mut self,
        text: &'de str,
        offset: usize,
        at: usize,
        level: usize,
    ) -> Result<Valued<'de>, Stop>
        requires stands { IsCharBoundary text.now offset }
        requires boundary { IsCharBoundary text.now at }
        requires level { level ≤ nesting_limit + 1 }
        ensures read { ReadsArray text.now offset at level self.old self.new result }
        ensures inside { IfErr result (λ stop. StopsInside text.now stop) }
        ensures deep { IfDeep (DeepArray nesting_limit level offset (text_at text.now at)) result }
        ensures hole { InHole (in_elements (after_gap is_comment (text_at text.now at))) text.now result }
    {
        raise(level, offset)?;
        let from = self.elements.len();
        let end = self.elements(text, after_gap(text, at), level)?;
        Ok(Valued {
            offset,
            value: Raw::Array(taken(&mut self.elements, from)?),
            end,
        })
    }

    // Reads the elements of an array up to its closing bracket, and answers where that ends.
    #[cycle(values)]
    fn elements(&mut self, text: &'de str, start: usize, level: usize) -> Result<usize, Stop>
        requires boundary { IsCharBoundary text.now start }
        requires level { level ≤ nesting_limit }
        ensures read { ReadsElements text.now start level self.old self.new result }
        ensures inside { IfErr result (λ stop. StopsInside text.now stop) }
        ensures deep { IfDeep (DeepElements nesting_limit level (text_at text.now start)) result }
        ensures hole { InHole (in_elements (text_at text.now start)) text.now result }
    {
        let mut at = start;
        loop {
            if let Some(end) = after_punctuation(text, at, b']') {
                return Ok(end);
            }
            let valued = self.value(text, at, level, End::Bracket)?;
            self.elements.push(Element {
                offset: valued.offset,
                end: valued.end,
                value: valued.value,
            })?;
            let after = after_gap(text, valued.end);
            let Some(next) = after_punctuation(text, after, b',') else {
                return closed(text, after, b']', Why::Bracket);
            };
            at = after_gap(text, next);
        }
    }

    // The inline table whose brace stands at `offset` and has this level, from after the brace on.
    #[cycle(values)]
    fn inline(
        &mut self,
        text: &'de str,
        offset: usize,
        at: usize,
        level: usize,
    ) -> Result<Valued<'de>, Stop>
        requires stands { IsCharBoundary text.now offset }
        requires boundary { IsCharBoundary text.now at }
        requires level { level ≤ nesting_limit + 1 }
        ensures read { ReadsInline text.now offset at level self.old self.new result }
        ensures inside { IfErr result (λ stop. StopsInside text.now stop) }
        ensures deep { IfDeep (DeepInline nesting_limit level offset (text_at text.now at)) result }
        ensures hole { InHole (in_fields (after_blanks (text_at text.now at))) text.now result }
    {
        raise(level, offset)?;
        let parents = self.parents.len();
        let from = self.rows.len();
        let end = self.fields(text, after_blanks(text, at), level)?;
        let value = self.table(parents, from)?;
        Ok(Valued { offset, value, end })
    }

    // The inline table of the rows from a number on, whose parents are those from another one on.
    fn table(&mut self, parents: usize, from: usize) -> Result<Raw<'de>, AllocError>
        requires parents { parents ≤ length self.old.parents.items }
        requires from { from ≤ length self.old.rows.items }
        ensures { IfOk result (IsTableTaken self.old self.new parents from) }
    {
        let rows = taken(&mut self.rows, from)?;
        if parents == self.parents.len() {
            return Ok(Raw::Inline(rows));
        }
        let parents = taken(&mut self.parents, parents)?;
        Ok(Raw::Dotted(Box::new(self.alloc, Rows { parents, rows })?))
    }

    // Reads the rows of an inline table up to its closing brace, and answers where that ends.
    #[cycle(values)]
    fn fields(&mut self, text: &'de str, start: usize, level: usize) -> Result<usize, Stop>
        requires boundary { IsCharBoundary text.now start }
        requires level { level ≤ nesting_limit }
        ensures read { ReadsFields text.now start level self.old self.new result }
        ensures inside { IfErr result (λ stop. StopsInside text.now stop) }
        ensures deep { IfDeep (DeepFields nesting_limit level (text_at text.now start)) result }
        ensures hole { InHole (in_fields (text_at text.now start)) text.now result }
    {
        if let Some(end) = after_punctuation(text, start, b'}') {
            return Ok(end);
        }
        let mut at = start;
        loop {
            let after = after_blanks(text, self.row(text, at, level, End::Comma)?);
            let Some(next) = after_punctuation(text, after, b',') else {
                return closed(text, after, b'}', Why::Comma);
            };
            at = after_blanks(text, next);
        }
    }
}

/// Where the punctuation at an offset ends, or else the stop there.
#[inline]
pub(crate) fn closed(text: &str, at: usize, sign: u8, why: Why) -> Result<usize, Stop>
    requires boundary { IsCharBoundary text.now at }
    requires lone { is_lone sign ≡ true }
    ensures read { ClosesAt sign why text.now at result }
    ensures inside { IfErr result (λ stop. StopsInside text.now stop) }
{
    match after_punctuation(text, at, sign) {
        Some(next) => Ok(next),
        None => Err(Stop { at, why }),
    }
}
