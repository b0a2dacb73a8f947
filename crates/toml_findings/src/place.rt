//! A place in a text, as it is shown.
ghost use Rattle.std.specs.Prelude.{◌≡◌, IfOk};
ghost use Rattle.toml_findings.specs.Places as spec;

use crate::excerpt::{excerpt_of, line_of};
use basic_toml_error::line_col;
use std::alloc::{AllocError, Global};

/// A place in a text, and its line.
#[derive(Debug, Drop)]
pub struct Place {
    /// The line where it stands, from 1.
    pub line: usize,
    /// The column where it stands, from 1, in bytes.
    pub column: usize,
    /// That line, cut around the place where it is long: up to 60 characters before the place, and 40 from it on. A
    /// control character other than a tab stands as U+FFFD.
    pub source: String,
    /// What stands below that line: a space for each character, a tab for a tab, and a caret below the place.
    pub caret: String,
}

/// The place at an offset of a text.
pub fn place_at(alloc: Global, text: &str, offset: usize) -> Result<Place, AllocError>
    ensures { IfOk result (λ place. spec.place_of place ≡ spec.place_at text.now offset) }
{
    let (line, column) = line_col(text, offset);
    let shown = excerpt_of(alloc, line_of(text, line), column)?;
    Ok(Place {
        line: line + 1,
        column: column + 1,
        source: shown.source,
        caret: shown.caret,
    })
}
