//! From a text to its tree: each section goes into the tree as soon as it is read.
ghost use Rattle.std.specs.Prelude.{◌≡◌, List, []};
ghost use Rattle.basic_toml_grammar.specs.Sections as spec_sections;
ghost use Rattle.basic_toml_read.specs.SectionsRead.{IsAtStart, IsBehind, IsEmpty, IsReady, SoFar};
ghost use Rattle.basic_toml_grow.specs.Item.{table_trie};
ghost use Rattle.basic_toml_tree.specs.FirstStop.{only_root};
ghost use Rattle.basic_toml_tree.specs.OfText.{AnswersText, Takes};
ghost use Rattle.basic_toml_tree.specs.Rest.{IsReached, ReadsRest, TellsClash};

use crate::headers::Headers;
use crate::tree::Tree;
use basic_toml_explain::{Stop, error_at};
use basic_toml_grow::{Clash, Table, crossed_value, enter_section};
use basic_toml_read::{Place, ReadError, ReadErrorKind, Section, SectionReader};
use std::alloc::Global;

/// The tree of a text (TOML v0.5.0, without dates and times): that of its section list, as [`resolve`](crate::resolve)
/// answers it. Each section goes into the tree as soon as it is read, and the memory of its rows is used again.
///
/// # Errors
///
/// Those of [`sections`](basic_toml_read::sections), where the text has no section list within the limit; else those of
/// [`resolve`](crate::resolve). Of a text of blanks, comments and line feeds there is none.
///
/// `basic_toml` calls it.
pub fn tree_of<'de>(alloc: Global, text: &'de str) -> Result<Tree<'de>, ReadError>
    ensures { AnswersText text.now result }
{
    let mut reader = SectionReader::new(alloc, text);
    let mut tree = Tree {
        headers: Headers::new(alloc),
        root: Table::empty(alloc),
    };
    let mut section = Section::empty(alloc);
    match take_sections(alloc, text, &mut reader, &mut tree, &mut section) {
        Ok(()) => Ok(tree),
        Err(error) => Err(error),
    }
}

// Puts the sections of a text into a tree that has none yet, each as soon as it is read. All are read into the same one.
fn take_sections<'de>(
    alloc: Global,
    text: &'de str,
    reader: &mut SectionReader<'de>,
    tree: &mut Tree<'de>,
    section: &mut Section<'de>,
) -> Result<(), ReadError>
    requires reader { IsAtStart text.now reader.old }
    requires headers { tree.old.headers ≡ [] }
    requires root { table_trie tree.old.root ≡ only_root }
    requires section { IsEmpty section.old }
    ensures { Takes text.now tree.new result }
{
    loop {
        let place = reader.place();
        match reader.next(section) {
            Ok(true) => {}
            Ok(false) => return Ok(()),
            Err(stop) => return Err(error_at(alloc, text, stop)),
        }
        let number = tree.headers.len();
        if let Err(clash) = enter_section(alloc, &mut tree.root, section, number) {
            return Err(clash_error(alloc, text, place, section, clash));
        }
        tree.headers.push(section.at, &mut section.header)?;
    }
}

// The error of a text in which the section at a place does not go into the tree. The text is read on from there, for an
// error of it comes before a clash, and a row that goes on from a value before all other clashes.
#[cold]
#[inline(never)]
fn clash_error<'de>(
    alloc: Global,
    text: &'de str,
    place: Place,
    section: &Section<'de>,
    clash: Clash,
) -> ReadError
    requires { IsReached text.now place }
    ensures { (list : List spec_sections.Section) → IsBehind text.now place list
        → TellsClash text.now list section.now clash result }
{
    let mut reader = SectionReader::at(alloc, text, place);
    match crossed_in_rest(alloc, &mut reader) {
        Ok(Some(at)) => ReadError::at(at, ReadErrorKind::DottedKeyInvalidType),
        Ok(None) => clash.error(alloc, section),
        Err(stop) => error_at(alloc, text, stop),
    }
}

// Reads the sections that are left, and answers the first value in them that a row goes on from.
fn crossed_in_rest<'de>(
    alloc: Global,
    reader: &mut SectionReader<'de>,
) -> Result<Option<usize>, Stop>
    requires { IsReady reader.old }
    ensures { (list : List spec_sections.Section) → SoFar reader.old list → ReadsRest reader.old.text.now list result }
{
    let mut found = None;
    let mut section = Section::empty(alloc);
    while reader.next(&mut section)? {
        found = found.or(crossed_value(alloc, &section)?);
        section.clear();
    }
    Ok(found)
}
