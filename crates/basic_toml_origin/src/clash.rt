//! The two places of a clash.
ghost use Rattle.std.specs.Prelude.{◌≡◌, IfOk, map};
ghost use Rattle.basic_toml_explain.specs.Error.{kind_by};
ghost use Rattle.basic_toml_read.specs.SectionView.{section_of};
ghost use Rattle.basic_toml_origin.specs.Clash as spec;

use crate::crossing::crossing_key;
use crate::find::origin_before;
use crate::offset_path::path_to_key;
use crate::origin::Origin;
use basic_toml_explain::ReadErrorKind;
use basic_toml_read::Section;
use std::alloc::{AllocError, Global};
use std::convert::AsStr;

/// The two places of a clash, as byte offsets.
#[derive(Clone, Copy, Debug, PartialEq, Eq)]
pub struct ClashPlaces {
    /// Where what stands first is written: at its header's first bracket, or at its key; of a value that a row goes on
    /// from, at the value.
    pub first: usize,
    /// Where the later one is: at its header's first bracket, or at its key.
    pub later: usize,
}

/// What clashes with what stands before it.
#[derive(Clone, Copy, Debug, PartialEq, Eq)]
pub enum ClashKind {
    /// A key, of a row or of a header: the error stands at it.
    Key,
    /// A header as a whole: the error stands at its first bracket.
    Header,
    /// A row that goes on from the value of an earlier one: the error stands at the value.
    Value,
}

impl ClashKind {
    /// That of an error, if it is one of a clash.
    pub fn of<Word: AsStr>(kind: &ReadErrorKind<Word>) -> Option<ClashKind>
        ensures { result ≡ spec.clash_kind (kind_by Word.AsStr.text kind.now) }
    {
        match kind {
            ReadErrorKind::DuplicateKey(_) => Some(ClashKind::Key),
            ReadErrorKind::DuplicateTable(_) | ReadErrorKind::RedefineAsArray => {
                Some(ClashKind::Header)
            }
            ReadErrorKind::DottedKeyInvalidType => Some(ClashKind::Value),
            _ => None,
        }
    }
}

/// The two places of a clash, by the offset of its error, in the section list of the text that the error is of. What the
/// later key leads to is looked for in what stands before it. `None` where nothing of that kind clashes there.
///
/// # Errors
///
/// `AllocError` where memory was refused.
pub fn clash_places(
    alloc: Global,
    sections: &[Section<'_>],
    clash: ClashKind,
    offset: usize,
) -> Result<Option<ClashPlaces>, AllocError>
    ensures { IfOk result (λ places. places ≡ spec.clash_places (map section_of sections.now) clash offset) }
{
    match clash {
        ClashKind::Key => before_key(alloc, sections, offset, offset),
        ClashKind::Header => match header_key(sections, offset) {
            Some(key) => before_key(alloc, sections, key, offset),
            None => Ok(None),
        },
        ClashKind::Value => match crossing_key(sections, offset) {
            Some(later) => Ok(Some(ClashPlaces {
                first: offset,
                later,
            })),
            None => Ok(None),
        },
    }
}

// Those of a key, where the later of the two begins.
fn before_key(
    alloc: Global,
    sections: &[Section<'_>],
    key: usize,
    later: usize,
) -> Result<Option<ClashPlaces>, AllocError>
    ensures { IfOk result (λ places. places ≡ spec.before_key (map section_of sections.now) key later) }
{
    let Some(path) = path_to_key(alloc, sections, key)? else {
        return Ok(None);
    };
    match origin_before(alloc, sections, key, path.as_slice())? {
        Some(origin) => Ok(Some(ClashPlaces {
            first: beginning(origin),
            later,
        })),
        None => Ok(None),
    }
}

// Where what is written begins.
fn beginning(origin: Origin) -> usize
    ensures { result ≡ spec.beginning origin }
{
    origin.at.min(origin.key.unwrap_or(origin.at))
}

// The last key of the header that begins at an offset.
fn header_key(sections: &[Section<'_>], offset: usize) -> Option<usize>
    ensures { result ≡ spec.header_key (map section_of sections.now) offset }
{
    for section in sections {
        if let Some(key) = last_key_at(section, offset) {
            return Some(key);
        }
    }
    None
}

// That of a section, if its header begins there.
fn last_key_at(section: &Section<'_>, offset: usize) -> Option<usize>
    ensures { result ≡ spec.last_key_at (section_of section.now) offset }
{
    if section.at == offset {
        section.header.last().map(|key| key.offset)
    } else {
        None
    }
}
