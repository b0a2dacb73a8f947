//! What a path leads to in a section list.
ghost use Rattle.std.specs.Prelude.{◌≡◌, ◌≤◌, ◌<◌, ℕ, IfOk, Some, None, length, get_or, map, replicate, if◌then◌else◌};
ghost use Rattle.std.specs.Option.{option_and_then};
ghost use Rattle.basic_toml_read.specs.SectionView.{header_texts, key_of, section_of};
ghost use Rattle.basic_toml_origin.specs.Before.{rows_up_to, sections_before, up_to};
ghost use Rattle.basic_toml_origin.specs.Origin.{by_header, in_rows, last_key, origin_at};
ghost use Rattle.basic_toml_origin.specs.Path.{path_of};
ghost use Rattle.basic_toml_origin.specs.Ways.{met, counts_behind, is_whole, is_on_way, left_in, FitsIn};

use crate::before::{ends_up_to, rows_up_to};
use crate::origin::Origin;
use crate::step::Step;
use crate::values::in_rows;
use crate::ways::{Meeting, meet, meet_element};
use basic_toml_read::{Key, Section};
use std::alloc::{AllocError, Global};

/// Where what a path of a document leads to is written, by its section list: at the first header that names it; else
/// where the first row leads there; else at the first header that passes through it, as at the first of an array of
/// tables. `None` where it leads nowhere. It takes time for each section, and for the rows on the path.
///
/// # Errors
///
/// `AllocError` where memory was refused.
pub fn origin_at(
    alloc: Global,
    sections: &[Section<'_>],
    path: &[Step<'_>],
) -> Result<Option<Origin>, AllocError>
    ensures { IfOk result (λ origin. origin ≡ origin_at (map section_of sections.now) (path_of path.now)) }
{
    find_origin(alloc, sections, None, path)
}

/// Where what a path of a document leads to is written, as [`origin_at`] finds it, but among what stands before an
/// offset alone: the sections whose header ends before it, and of those the rows whose value begins before it.
/// `None` where it leads nowhere there.
///
/// # Errors
///
/// `AllocError` where memory was refused.
pub fn origin_before(
    alloc: Global,
    sections: &[Section<'_>],
    offset: usize,
    path: &[Step<'_>],
) -> Result<Option<Origin>, AllocError>
    ensures { IfOk result (λ origin. origin ≡ origin_at (sections_before offset (map section_of sections.now))
        (path_of path.now)) }
{
    find_origin(alloc, sections, Some(offset), path)
}

// The same among what stands before an offset, or all of it where none is given.
fn find_origin(
    alloc: Global,
    sections: &[Section<'_>],
    end: Option<usize>,
    path: &[Step<'_>],
) -> Result<Option<Origin>, AllocError>
    ensures { IfOk result (λ origin. origin ≡ origin_at (up_to end (map section_of sections.now)) (path_of path.now)) }
{
    let mut counts = zeros(alloc, path.len())?;
    let mut row = None;
    let mut way = None;
    for section in sections {
        if !ends_up_to(end, section) {
            break;
        }
        let met = enter(section, path, &mut counts);
        if is_whole(met) {
            return Ok(Some(by_header(section, path)));
        }
        row = row.or(by_rows(section, end, path, met));
        way = way.or(by_way(section, path, met));
    }
    Ok(row.or(way))
}

/// This many zeros.
pub(crate) fn zeros(alloc: Global, len: usize) -> Result<Vec<usize>, AllocError>
    ensures { IfOk result (λ zeros. zeros.items ≡ replicate len 0) }
{
    let mut zeros = Vec::new(alloc);
    zeros.resize(len, 0)?;
    Ok(zeros)
}

/// How far the way of a section and a path go together. `counts` are those of the sections before it, and then its own
/// too.
pub(crate) fn enter(section: &Section<'_>, path: &[Step<'_>], counts: &mut Vec<usize>) -> Meeting
    requires room { length path.now ≤ length counts.old.items }
    requires small { (left : ℕ) → get_or counts.old.items left 0 < usize.MAX }
    ensures met { result ≡ met counts.old.items section.now.is_array (header_texts section.now.header.items)
        (path_of path.now) }
    ensures counts { counts.new.items ≡ counts_behind counts.old.items section.now.is_array
        (header_texts section.now.header.items) (path_of path.now) }
{
    let header = section.header.as_slice();
    let target = meet(header, section.is_array, path, counts.as_slice());
    if !section.is_array || header.is_empty() {
        return target;
    }
    let Meeting::Reaches(left) = target else {
        return target;
    };
    let number = counts[left];
    counts[left] = number + 1;
    meet_element(number, path, left)
}

fn is_whole(met: Meeting) -> bool
    ensures { result ≡ is_whole met }
{
    matches!(met, Meeting::Reaches(0))
}

// By the rows of a section before an offset, or by all of them where none is given.
fn by_rows(
    section: &Section<'_>,
    end: Option<usize>,
    path: &[Step<'_>],
    met: Meeting,
) -> Option<Origin>
    requires { FitsIn (path_of path.now) met }
    ensures { result ≡ option_and_then (in_rows (rows_up_to end (section_of section.now).rows))
        (left_in (path_of path.now) met) }
{
    let Meeting::Reaches(left) = met else {
        return None;
    };
    in_rows(
        section.rows.parents.as_slice(),
        rows_up_to(end, &section.rows),
        &path[path.len() - left..],
    )
}

// By the header of a section, if the path is on its way.
fn by_way(section: &Section<'_>, path: &[Step<'_>], met: Meeting) -> Option<Origin>
    ensures { result ≡ (if is_on_way met then Some (by_header (section_of section.now) (path_of path.now)) else None) }
{
    match met {
        Meeting::Passes | Meeting::Reaches(0) => Some(by_header(section, path)),
        _ => None,
    }
}

fn by_header(section: &Section<'_>, path: &[Step<'_>]) -> Origin
    ensures { result ≡ by_header (section_of section.now) (path_of path.now) }
{
    Origin {
        at: section.at,
        key: last_key(section.header.as_slice(), path),
    }
}

// The last key of a path among those of a header, one of which stands for each key of the path.
fn last_key(keys: &[Key<'_>], path: &[Step<'_>]) -> Option<usize>
    ensures { result ≡ last_key (map key_of keys.now) (path_of path.now) }
{
    let (step, rest) = path.split_first()?;
    if let Step::Element(_) = step {
        return last_key(keys, rest);
    }
    let (key, others) = keys.split_first()?;
    if rest.is_empty() {
        Some(key.offset)
    } else {
        last_key(others, rest)
    }
}
