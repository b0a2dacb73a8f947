//! Anchors: by what a node of a document is found again in the section list of its text.
ghost use Rattle.std.specs.Prelude.{◌≡◌, ◌==◌, IfOk, length, map, option_map, take};
ghost use Rattle.basic_toml_grammar.specs.Nodes.{is_number};
ghost use Rattle.basic_toml_grammar.specs.Steps.{keys_of};
ghost use Rattle.basic_toml_places.specs.Places.{as_far_as, path_at};
ghost use Rattle.basic_toml_read.specs.SectionView.{section_of};
ghost use Rattle.basic_toml_origin.specs.Anchor.{of_section, path_of_anchor, up_to_table};
ghost use Rattle.basic_toml_origin.specs.Path.{path_of};

use crate::indexed_path::section_path;
use crate::offset_path::{len_up_to_key, path_to_value, path_up_to_key};
use crate::step::Step;
use basic_toml_read::Section;
use std::alloc::{AllocError, Global};

/// What stands at a node of a document, found again in the section list of its text.
#[derive(Clone, Copy, Debug, PartialEq, Eq)]
pub enum Anchor {
    /// The whole document.
    Root,
    /// A table that headers made: the number of a section whose header leads there, from 0, and how many keys do.
    Table { section: usize, keys: usize },
    /// An array of tables: likewise.
    Array { section: usize, keys: usize },
    /// What a row made: the byte offset where it begins, which is that of a value, or of the first value of a dotted
    /// table; and how many keys lead there.
    Value { start: usize, keys: usize },
}

/// The path to what an anchor stands for: that of the anchor's section, or of the value that begins at its offset, as
/// far as so many keys lead. `None` where there is no such section or value. An anchor of what is at a path gives this
/// path (`laws::anchors_lead_to_paths`). It takes time as [`section_path`] does, and for a value as [`path_to_value`]
/// does.
///
/// # Errors
///
/// `AllocError` where memory was refused.
pub fn path_to_anchor<'s>(
    alloc: Global,
    sections: &'s [Section<'_>],
    anchor: Anchor,
) -> Result<Option<Vec<Step<'s>>>, AllocError>
    ensures { IfOk result (λ path. option_map (λ p. path_of p.items) path
        ≡ path_of_anchor (map section_of sections.now) anchor) }
{
    match anchor {
        Anchor::Root => Ok(Some(Vec::new(alloc))),
        Anchor::Table { section, keys } => path_up_to_table(alloc, sections, section, keys),
        Anchor::Array { section, keys } => path_up_to_key(alloc, sections, section, keys),
        Anchor::Value { start, keys } => path_as_far_as(alloc, sections, start, keys),
    }
}

// The path of the section of a number, up to its key of a number and the number behind that.
fn path_up_to_table<'s>(
    alloc: Global,
    sections: &'s [Section<'_>],
    section: usize,
    keys: usize,
) -> Result<Option<Vec<Step<'s>>>, AllocError>
    ensures { IfOk result (λ path. option_map (λ p. path_of p.items) path
        ≡ of_section (up_to_table keys) (map section_of sections.now) section) }
{
    let Some(mut path) = section_path(alloc, sections, section)? else {
        return Ok(None);
    };
    let len = len_up_to_table(path.as_slice(), keys);
    path.truncate(len);
    Ok(Some(path))
}

// The path to the value that begins at an offset, as far as so many keys.
fn path_as_far_as<'s>(
    alloc: Global,
    sections: &'s [Section<'_>],
    start: usize,
    keys: usize,
) -> Result<Option<Vec<Step<'s>>>, AllocError>
    ensures { IfOk result (λ path. option_map (λ p. path_of p.items) path
        ≡ option_map (as_far_as keys) (path_at (map section_of sections.now) start)) }
{
    let Some(mut path) = path_to_value(alloc, sections, start)? else {
        return Ok(None);
    };
    let len = len_as_far_as(path.as_slice(), keys);
    path.truncate(len);
    Ok(Some(path))
}

// How many steps of a path there are up to its key of a number, counted from 1, and the number behind that key.
fn len_up_to_table(path: &[Step<'_>], keys: usize) -> usize
    ensures { take result (path_of path.now) ≡ up_to_table keys (path_of path.now) }
{
    let len = len_up_to_key(path, keys);
    if is_number(&path[len..]) {
        len + 1
    } else {
        len
    }
}

// How many steps of a path there are as far as so many of its keys.
fn len_as_far_as(path: &[Step<'_>], keys: usize) -> usize
    ensures { take result (path_of path.now) ≡ as_far_as keys (path_of path.now) }
{
    let len = len_up_to_key(path, keys);
    if has_no_key(&path[len..]) {
        path.len()
    } else {
        len
    }
}

// Whether a path begins with a number.
fn is_number(path: &[Step<'_>]) -> bool
    ensures { result ≡ is_number (path_of path.now) }
{
    matches!(path.first(), Some(Step::Element(_)))
}

// Whether no step of a path is a key.
fn has_no_key(path: &[Step<'_>]) -> bool
    ensures { result ≡ (length (keys_of (path_of path.now)) == 0) }
{
    path.iter().all(|step| matches!(step, Step::Element(_)))
}
