//! The other of the two keys of a clash.
ghost use Rattle.std.specs.Prelude.{◌≡◌, IfOk, Some};
ghost use Rattle.std.specs.Option.{option_and_then};
ghost use Rattle.toml_findings.specs.OtherKeys as spec;

use crate::place::{Place, place_at};
use basic_toml::{Error, Origins};
use std::alloc::{AllocError, Global};
use std::fmt;

/// The other of the two keys of a clash: the one that stands first, or, where a row goes on from a value, the later
/// one.
///
/// It prints as a note with its line and its column, that line, and a caret below the place.
#[derive(Debug, Drop)]
pub struct OtherKey {
    /// Whether it stands first.
    pub is_first: bool,
    pub place: Place,
}

impl fmt::Display for OtherKey {
    ghost output = { λ other. Some (spec.other_text (spec.other_of other)) };

    fn fmt<W: fmt::Write>(&self, f: &mut fmt::Formatter<W>) -> fmt::Result {
        let Place { line, column, .. } = self.place;
        let source = self.place.source.as_str();
        let caret = self.place.caret.as_str();
        let word = word(self.is_first);
        write!(
            f,
            "note: {word} here, at {line}:{column}\n{source}\n{caret}\n"
        )
    }
}

fn word(is_first: bool) -> &'static str
    ensures { result.now ≡ spec.word is_first }
{
    if is_first {
        "first defined"
    } else {
        "extended"
    }
}

/// The other key of a clash, by the error that a text has and the offset where it stands; `None` where nothing clashes.
/// Where something does, the text is read once more.
///
/// # Errors
///
/// `AllocError` where memory was refused.
pub fn other_key(
    alloc: Global,
    text: &str,
    error: &Error,
    offset: usize,
) -> Result<Option<OtherKey>, AllocError>
    ensures { IfOk result (λ other. spec.IsOther text.now error.now offset (spec.maybe_other other)) }
{
    let Ok(origins) = error.origins(alloc, text) else {
        return Err(AllocError);
    };
    match other_of(origins, offset) {
        Some((is_first, at)) => {
            let place = place_at(alloc, text, at)?;
            Ok(Some(OtherKey { is_first, place }))
        }
        None => Ok(None),
    }
}

// Of two origins the one that is not at an offset, and whether it stands first.
fn other_of(origins: Option<Origins>, offset: usize) -> Option<(bool, usize)>
    ensures { result ≡ option_and_then (spec.other_at offset) origins }
{
    let origins = origins?;
    let first = origins.other?;
    if origins.origin == offset {
        Some((true, first))
    } else {
        Some((false, origins.origin))
    }
}
