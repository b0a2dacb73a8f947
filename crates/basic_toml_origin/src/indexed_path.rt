//! The indexed path of a section.
ghost use Rattle.std.specs.Prelude.{◌≡◌, IfOk, map, option_map, slice_get};
ghost use Rattle.basic_toml_grammar.specs.IndexedPath.{located};
ghost use Rattle.basic_toml_grammar.specs.Placed.{elements_at, placed};
ghost use Rattle.basic_toml_read.specs.SectionView.{section_of};
ghost use Rattle.basic_toml_origin.specs.Path.{path_of};

use crate::find::{enter, zeros};
use crate::step::Step;
use basic_toml_read::Section;
use std::alloc::{AllocError, Global};

/// The indexed path of the section of a number, counted from 0: the keys of its header, each with the number of the
/// latest element where an array of tables stands, and of an array section the number of the element that it adds.
/// `None` where there is no such section. It takes time for each key of the header and each section before it.
///
/// # Errors
///
/// `AllocError` where memory was refused.
pub fn section_path<'s>(
    alloc: Global,
    sections: &'s [Section<'_>],
    number: usize,
) -> Result<Option<Vec<Step<'s>>>, AllocError>
    ensures { IfOk result (λ path. option_map (λ p. path_of p.items) path
        ≡ option_map (λ l. l.path) (slice_get (located (map section_of sections.now)) number)) }
{
    let Some(section) = sections.get(number) else {
        return Ok(None);
    };
    let upto = &sections[..=number];
    let mut path = Vec::new(alloc);
    for key in &section.header {
        path.push(Step::Key(key.text.as_str()))?;
        let elements = elements_at(alloc, upto, path.as_slice())?;
        if elements > 0 {
            path.push(Step::Element(elements - 1))?;
        }
    }
    Ok(Some(path))
}

// How many elements these sections add to the array at a path. Sections that add none are passed over.
fn elements_at(
    alloc: Global,
    sections: &[Section<'_>],
    path: &[Step<'_>],
) -> Result<usize, AllocError>
    ensures { IfOk result (λ count. count ≡ elements_at (path_of path.now) (placed (map section_of sections.now))) }
{
    let mut counts = zeros(alloc, path.len())?;
    for section in sections {
        if section.is_array {
            enter(section, path, &mut counts);
        }
    }
    Ok(counts.first().copied().unwrap_or(0))
}
