//! Reads a text to its section list, line by line: headers, and the rows after each.
ghost use Rattle.std.specs.Prelude.{IfErr, ◌≡◌, ◌≤◌, []};
ghost use Rattle.std.specs.Str.{IsCharBoundary};
ghost use Rattle.basic_toml_value.specs.Nesting.{nesting_limit};
ghost use Rattle.basic_toml_tokens.specs.Text.{text_at, folded};
ghost use Rattle.basic_toml_explain.specs.Stop.{StopsInside};
ghost use Rattle.basic_toml_read.specs.StopsReached.{IfDeep, IfDeepSection, InHole, InSectionHole, in_rows, in_text};
ghost use Rattle.basic_toml_grammar.specs.DeepStops.{DeepRows, DeepStop};
ghost use Rattle.basic_toml_read.specs.SectionsAnswer.{AnswersSections, HoldsMore};
ghost use Rattle.basic_toml_read.specs.SectionsRead.{IsAtStart, IsReady, IsEmpty, ReadsOn, ReadsList};
ghost use Rattle.basic_toml_read.specs.Lists.{EndsOrStops, EndsLineAt, ReadsRows, PassesGaps, ReadsSection};
ghost use Rattle.basic_toml_read.specs.Gathers.{lines_in, lines_of, no_lines};

use crate::front::{after_blanks, after_comment, after_line, end_of_line};
use crate::header::{Header, header_at};
use crate::section::{Key, Rows, Section};
use crate::values::Gathered;
use basic_toml_explain::{End, ReadError, Stop, Why, error_at};
use basic_toml_tokens::{after_punctuation, start_of_text};
use std::alloc::Global;
use std::mem;

// Where the next line begins, if this one ends at an offset.
#[inline]
fn past_line_end(text: &str, end: usize) -> Result<usize, Stop>
    requires { IsCharBoundary text.now end }
    ensures read { EndsOrStops text.now end result }
    ensures inside { IfErr result (λ stop. StopsInside text.now stop) }
{
    match after_line(text, end) {
        Some(next) => Ok(next),
        None => Err(Stop {
            at: end,
            why: Why::Newline,
        }),
    }
}

// Where the next line begins, after blanks and a comment.
#[inline(always)]
fn next_line(text: &str, at: usize) -> Result<usize, Stop>
    requires { IsCharBoundary text.now at }
    ensures read { EndsLineAt text.now at result }
    ensures inside { IfErr result (λ stop. StopsInside text.now stop) }
{
    past_line_end(text, end_of_line(text, at))
}

impl<'de> Gathered<'de> {
    // Reads the rows from a line on, in a table of a level, up to the end of the text or to a header. It answers where
    // the bracket of that header stands.
    fn rows(&mut self, text: &'de str, start: usize, level: usize) -> Result<Option<usize>, Stop>
        requires boundary { IsCharBoundary text.now start }
        requires level { level ≤ nesting_limit }
        ensures read { ReadsRows text.now start level self.old self.new result }
        ensures inside { IfErr result (λ stop. StopsInside text.now stop) }
        ensures gaps { PassesGaps text.now start self.old self.new result }
        ensures deep { IfDeep (DeepRows nesting_limit level (text_at text.now start)) result }
        ensures hole { InHole (in_rows (text_at text.now start)) text.now result }
    {
        let mut at = start;
        while at < text.len() {
            let front = after_blanks(text, at);
            if after_punctuation(text, front, b'[').is_some() {
                return Ok(Some(front));
            }
            if after_punctuation(text, front, b'#').is_some() {
                at = past_line_end(text, after_comment(text, front))?;
            } else {
                match after_line(text, front) {
                    Some(next) => at = next,
                    None => {
                        let end = self.row(text, front, level, End::Newline)?;
                        at = next_line(text, end)?;
                    }
                }
            }
        }
        Ok(None)
    }
}

impl<'de> Gathered<'de> {
    // Reads the header whose bracket stands at `at`, and the rows after it. Its keys go into a vector that holds none yet.
    // It answers where the bracket of the next header stands, too.
    fn section(
        &mut self,
        text: &'de str,
        at: usize,
        keys: &mut Vec<Key<'de>>,
    ) -> Result<(Header, Option<usize>), Stop>
        requires boundary { IsCharBoundary text.now at }
        requires none { lines_of self.old ≡ no_lines }
        requires empty { keys.old.items ≡ [] }
        ensures read { ReadsSection text.now at self.new keys.new.items result }
        ensures inside { IfErr result (λ stop. StopsInside text.now stop) }
        ensures deep { IfDeepSection text.now at result }
        ensures hole { InSectionHole text.now at result }
    {
        let header = header_at(self.alloc, text, at, keys)?;
        let line = next_line(text, header.end)?;
        let next = self.rows(text, line, keys.len() + 1)?;
        Ok((header, next))
    }

    // Hands the rows so far, and the keys before them, to a section that has none, and takes its vectors.
    #[inline(always)]
    fn hand_out(&mut self, rows: &mut Rows<'de>)
        ensures handed { lines_in rows.new ≡ lines_of self.old }
        ensures taken { lines_of self.new ≡ lines_in rows.old }
    {
        mem::swap(&mut self.parents, &mut rows.parents);
        mem::swap(&mut self.rows, &mut rows.rows);
    }
}

/// A place between the sections of a text.
#[derive(Clone, Copy)]
pub enum Place {
    /// Before the rows that no header comes before.
    Start,
    /// Behind these rows, or behind a section: where the bracket of the next header stands, if there is one.
    Behind(Option<usize>),
}

/// Reads the sections of a text one after another: the rows before the first header, if there are any, and then each
/// header with its rows (TOML v0.5.0, "Table").
#[derive(Drop)]
pub struct SectionReader<'de> {
    text: &'de str,
    // Nothing is gathered between sections.
    gathered: Gathered<'de>,
    place: Place,
}

impl<'de> SectionReader<'de> {
    /// A reader at the start of a text.
    pub fn new(alloc: Global, text: &'de str) -> SectionReader<'de>
        ensures { IsAtStart text.now result }
    {
        SectionReader::at(alloc, text, Place::Start)
    }

    /// A reader at a place where a reader of the same text was: it reads what that one went on with.
    pub fn at(alloc: Global, text: &'de str, place: Place) -> SectionReader<'de>
        ensures text { result.text ≡ text.entry }
        ensures place { result.place ≡ place }
        ensures none { lines_of result.gathered ≡ no_lines }
    {
        let gathered = Gathered {
            alloc,
            elements: Vec::new(alloc),
            parents: Vec::new(alloc),
            rows: Vec::new(alloc),
        };
        SectionReader {
            text,
            gathered,
            place,
        }
    }

    /// Where it is.
    pub fn place(&self) -> Place
        ensures { result ≡ self.now.place }
    {
        self.place
    }

    /// Reads the next section into one that is empty, whose vectors are used again, and answers whether there was one.
    ///
    /// # Errors
    ///
    /// The stop, where the text does not go on as a section. `error_at` of `basic_toml_explain` makes an error of it.
    #[inline(always)]
    pub fn next(&mut self, section: &mut Section<'de>) -> Result<bool, Stop>
        requires ready { IsReady self.old }
        requires empty { IsEmpty section.old }
        ensures { ReadsOn self.old self.new section.new result }
    {
        match self.place {
            Place::Start => self.first(section),
            Place::Behind(bracket) => self.headed(section, bracket),
        }
    }

    // Reads the rows before the first header; where there are none, the first header with its rows.
    #[inline(never)]
    fn first(&mut self, section: &mut Section<'de>) -> Result<bool, Stop>
        requires start { self.old.place ≡ Place.Start }
        requires ready { IsReady self.old }
        requires empty { IsEmpty section.old }
        ensures { ReadsOn self.old self.new section.new result }
    {
        let bracket = self.gathered.rows(self.text, start_of_text(self.text), 1)?;
        self.place = Place::Behind(bracket);
        if self.gathered.rows.is_empty() {
            return self.headed(section, bracket);
        }
        section.at = 0;
        section.is_array = false;
        self.gathered.hand_out(&mut section.rows);
        Ok(true)
    }

    // Reads the header whose bracket stands here, with its rows, if there is one.
    #[inline(never)]
    fn headed(&mut self, section: &mut Section<'de>, bracket: Option<usize>) -> Result<bool, Stop>
        requires behind { self.old.place ≡ Place.Behind bracket }
        requires ready { IsReady self.old }
        requires empty { IsEmpty section.old }
        ensures { ReadsOn self.old self.new section.new result }
    {
        let Some(at) = bracket else {
            return Ok(false);
        };
        let (header, next) = self.gathered.section(self.text, at, &mut section.header)?;
        self.place = Place::Behind(next);
        section.at = at;
        section.is_array = header.is_array;
        self.gathered.hand_out(&mut section.rows);
        Ok(true)
    }
}

/// The section list of a text, or where reading stops.
pub(crate) fn list<'de>(alloc: Global, text: &'de str) -> Result<Vec<Section<'de>>, Stop>
    ensures { ReadsList text.now result }
{
    let mut reader = SectionReader::new(alloc, text);
    let mut sections = Vec::new(alloc);
    let mut section = Section::empty(alloc);
    while reader.next(&mut section)? {
        sections.push(section.take()?)?;
    }
    Ok(sections)
}

/// The section list of a text (TOML v0.5.0, without dates and times): the rows before the first
/// header, if there are any, and then each header with its rows, in order.
///
/// It is refused where the text has none, with an error of the grammar and the byte offset where it stands. It is
/// refused with `NestedTooDeeply` where a key or a bracket stands within
/// [`NESTING_LIMIT`](basic_toml_value::NESTING_LIMIT) others, and with `OutOfMemory`, without an offset, where memory
/// is refused. A text of blanks, comments and line feeds alone has no sections, and asks for no memory.
///
/// `sections(alloc, "a = 1\n[b]\n")` has two: a row `a`, and the header `b` without rows. `basic_toml` calls it, and
/// so do the cases of `toml_cases`.
pub fn sections<'de>(alloc: Global, text: &'de str) -> Result<Vec<Section<'de>>, ReadError>
    ensures { AnswersSections text.now result }
{
    match list(alloc, text) {
        Ok(sections) => Ok(sections),
        Err(stop) => Err(error_at(alloc, text, stop)),
    }
}
