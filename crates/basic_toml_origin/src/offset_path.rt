//! The path to what begins at an offset.
ghost use Rattle.std.specs.Prelude.{◌≡◌, ◌≤◌, ◌++◌, IfOk, length, map, option_map, slice_get, take};
ghost use Rattle.basic_toml_grammar.specs.IndexedPath.{located};
ghost use Rattle.basic_toml_places.specs.Places.{first_path, path_at};
ghost use Rattle.basic_toml_read.specs.SectionView.{section_of};
ghost use Rattle.basic_toml_origin.specs.KeyPath.{key_path_at, up_to_key};
ghost use Rattle.basic_toml_origin.specs.Path.{path_of};
ghost use Rattle.basic_toml_origin.specs.Query.{path_by_section};

use crate::indexed_path::section_path;
use crate::query::Query;
use crate::row_path::push_path_by;
use crate::step::Step;
use basic_toml_read::Section;
use std::alloc::{AllocError, Global};

/// The path to the value that begins at an offset, counted in bytes from 0: the first such. `None` where no value
/// begins there. A float with a fraction has the offset of the character after its period. It takes time for each key
/// and value before it, and for each key of its section's header and each section before that one.
///
/// # Errors
///
/// `AllocError` where memory was refused.
pub fn path_to_value<'s, 'de>(
    alloc: Global,
    sections: &'s [Section<'de>],
    offset: usize,
) -> Result<Option<Vec<Step<'s>>>, AllocError>
    ensures { IfOk result (λ path. option_map (λ p. path_of p.items) path
        ≡ path_at (map section_of sections.now) offset) }
{
    path_to(alloc, sections, Query::Value(offset))
}

/// The path that a key leads to, by the offset where it begins, counted in bytes from 0: a key of a header, or one of a
/// row. The path ends with the key: those of `a.b.c = 1` lead to `a`, `a.b` and `a.b.c`, and the key of the header
/// `[[a]]` to the array `a`. `None` where no key begins there. It takes time as [`path_to_value`] does.
///
/// # Errors
///
/// `AllocError` where memory was refused.
pub fn path_to_key<'s, 'de>(
    alloc: Global,
    sections: &'s [Section<'de>],
    offset: usize,
) -> Result<Option<Vec<Step<'s>>>, AllocError>
    ensures { IfOk result (λ path. option_map (λ p. path_of p.items) path
        ≡ key_path_at (map section_of sections.now) offset) }
{
    path_to(alloc, sections, Query::Key(offset))
}

// The path to what is looked for, by the first section that leads there.
fn path_to<'s, 'de>(
    alloc: Global,
    sections: &'s [Section<'de>],
    query: Query,
) -> Result<Option<Vec<Step<'s>>>, AllocError>
    ensures { IfOk result (λ path. option_map (λ p. path_of p.items) path
        ≡ first_path (path_by_section query) (located (map section_of sections.now))) }
{
    let mut within = Vec::new(alloc);
    for (number, section) in sections.iter().enumerate() {
        if let Some(keys) = query.keys_in_header(section.header.as_slice()) {
            return path_up_to_key(alloc, sections, number, keys);
        }
        let parents = section.rows.parents.as_slice();
        let rows = section.rows.rows.as_slice();
        if push_path_by(query, parents, rows, &mut within)? {
            return path_and_steps(alloc, sections, number, &mut within);
        }
    }
    Ok(None)
}

/// The path of the section of a number, up to its key of a number, counted from 1.
pub(crate) fn path_up_to_key<'s, 'de>(
    alloc: Global,
    sections: &'s [Section<'de>],
    number: usize,
    keys: usize,
) -> Result<Option<Vec<Step<'s>>>, AllocError>
    ensures { IfOk result (λ path. option_map (λ p. path_of p.items) path
        ≡ option_map (λ l. up_to_key keys l.path) (slice_get (located (map section_of sections.now)) number)) }
{
    let Some(mut path) = section_path(alloc, sections, number)? else {
        return Ok(None);
    };
    let len = len_up_to_key(path.as_slice(), keys);
    path.truncate(len);
    Ok(Some(path))
}

// The path of the section of a number, and then these steps.
fn path_and_steps<'s, 'de>(
    alloc: Global,
    sections: &'s [Section<'de>],
    number: usize,
    steps: &mut Vec<Step<'s>>,
) -> Result<Option<Vec<Step<'s>>>, AllocError>
    ensures { IfOk result (λ path. option_map (λ p. path_of p.items) path
        ≡ option_map (λ l. l.path ++ path_of steps.old.items)
        (slice_get (located (map section_of sections.now)) number)) }
{
    let Some(mut path) = section_path(alloc, sections, number)? else {
        return Ok(None);
    };
    path.append(steps)?;
    Ok(Some(path))
}

/// How many steps of a path there are up to its key of a number, counted from 1.
pub(crate) fn len_up_to_key(path: &[Step<'_>], keys: usize) -> usize
    ensures steps { take result (path_of path.now) ≡ up_to_key keys (path_of path.now) }
    ensures within { result ≤ length path.now }
{
    if keys == 0 {
        return 0;
    }
    let Some((step, rest)) = path.split_first() else {
        return 0;
    };
    let left = match step {
        Step::Key(_) => keys - 1,
        Step::Element(_) => keys,
    };
    len_up_to_key(rest, left) + 1
}
