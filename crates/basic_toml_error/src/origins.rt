//! Where what an error is about is written, and the path to it.
ghost use Rattle.std.specs.Prelude.{◌≡◌, ◌≢◌, ◌++◌, IfOk, IfErr, None, map, option_map};
ghost use Rattle.std.specs.Option.{option_and_then};
ghost use Rattle.basic_toml_read.specs.SectionView.{section_of};
ghost use Rattle.basic_toml_origin.specs.Anchor.{path_of_anchor};
ghost use Rattle.basic_toml_origin.specs.Origin.{origin_at as origin_in};
ghost use Rattle.basic_toml_origin.specs.Path.{path_of};
ghost use Rattle.basic_toml_error.specs.KindView.{kind_of};
ghost use Rattle.basic_toml_error.specs.Origins.{AnswersOrigins, AsksTheList, about_text, alone, origins_in};
ghost use Rattle.basic_toml_error.specs.Origins.{path_in, spot_of, steps_on};

use crate::error::Error;
use crate::kind::ErrorKind;
use basic_toml_explain::ReadErrorKind;
use basic_toml_origin::{Anchor, ClashKind, Origin, Step, clash_places, origin_at, path_to_anchor};
use basic_toml_read::{Section, sections};
use std::alloc::{AllocError, Global};

/// Where what an error is about is written in its text, as byte offsets from 0.
#[derive(Clone, Copy, Debug, PartialEq, Eq)]
pub struct Origins {
    /// Where the thing itself is written: at its header's first bracket, at its value, or at its key. Of a clash it is
    /// where the later of the two is.
    pub origin: usize,
    /// Of a clash, where the earlier of the two is written; of a row that goes on from a value, where that value is.
    pub other: Option<usize>,
}

impl Error {
    /// Where what the error is about is written, in the text that it is of. [`offset`](Error::offset) is the place that
    /// the port has, and often another one: an error about a table that headers made stands at the last header of the
    /// text, and its origin is that table's own header.
    ///
    /// The origin of an unknown field is the field's key; of a missing one that of the table that lacks it, which is
    /// its header, its brace, or the first key whose period makes it. A value of the wrong type has its own, an array
    /// its bracket. A clash has the later key or header, and with it where what it clashes with is written: the earlier
    /// key or header, or the value that a row goes on from. Any other error has its own place. `None` where it has none,
    /// as want of memory, and of an error about the whole of a text in which nothing stands. (TOML v0.5.0, "Table" and
    /// "Array of Tables")
    ///
    /// ```text
    /// let origins = error.origins(alloc, text)?; // of an unknown field `verison` it is where that key begins
    /// ```
    ///
    /// This is from `toml_vectors`. The text is read once more for it, where a type or a clash refused it.
    ///
    /// # Errors
    ///
    /// `out of memory`, where a type or a clash refused the text. Of any other error no memory is asked for.
    pub fn origins(&self, alloc: Global, text: &str) -> Result<Option<Origins>, Error>
        ensures origins { AnswersOrigins text.now self.now result }
        ensures memory { IfErr result (λ _. AsksTheList self.now) }
    {
        if self.anchor().is_none() && self.kind().clash().is_none() {
            return Ok(self.own_place());
        }
        match sections(alloc, text) {
            Ok(sections) => Ok(self.origins_in(alloc, sections.as_slice())?),
            Err(error) => match error.kind() {
                ReadErrorKind::OutOfMemory => Err(Error::from(AllocError)),
                _ => Ok(self.own_place()),
            },
        }
    }

    /// The path to what an error of a type is about, in the section list of its text: the keys and the numbers that
    /// lead to the node at which the error was made, and of an unknown field the field's key behind them. `origin_at`
    /// takes it. Any other error has none, and a clash has its keys in [`key_path`](Error::key_path). (TOML v0.5.0,
    /// "Table" and "Array of Tables")
    ///
    /// ```text
    /// let sections = sections(alloc, text)?;
    /// let path = error.path(alloc, sections.as_slice())?; // server[1].prot: Key("server"), Element(1), Key("prot")
    /// ```
    ///
    /// This is from `toml_vectors`. The steps borrow from the sections and from the error. Of another text's sections
    /// it is the path to what stands where the node did, or none.
    ///
    /// # Errors
    ///
    /// `AllocError` where memory was refused, of an error of a type alone.
    pub fn path<'s>(
        &'s self,
        alloc: Global,
        sections: &'s [Section<'_>],
    ) -> Result<Option<Vec<Step<'s>>>, AllocError>
        ensures path { IfOk result (λ path. option_map (λ p. path_of p.items) path
            ≡ path_in (map section_of sections.now) self.now) }
        ensures memory { IfErr result (λ _. self.now.anchor ≢ None) }
    {
        match self.anchor() {
            Some(anchor) => path_about(alloc, sections, anchor, self.kind()),
            None => Ok(None),
        }
    }

    fn own_place(&self) -> Option<Origins>
        ensures { result ≡ option_map alone self.now.offset }
    {
        self.offset().map(alone)
    }

    // By the section list of its text.
    fn origins_in(
        &self,
        alloc: Global,
        sections: &[Section<'_>],
    ) -> Result<Option<Origins>, AllocError>
        ensures { IfOk result (λ origins. origins ≡ origins_in (map section_of sections.now) self.now) }
    {
        match self.anchor() {
            Some(anchor) => match path_about(alloc, sections, anchor, self.kind())? {
                Some(path) => {
                    Ok(about_node(alloc, sections, path.as_slice(), self.kind())?.map(alone))
                }
                None => Ok(None),
            },
            None => match self.offset() {
                Some(offset) => Ok(Some(about_text(alloc, sections, offset, self.kind().clash())?)),
                None => Ok(None),
            },
        }
    }
}

fn alone(offset: usize) -> Origins
    ensures { result ≡ alone offset }
{
    Origins {
        origin: offset,
        other: None,
    }
}

// The path to what an error of a type is about, by its node's anchor.
fn path_about<'s>(
    alloc: Global,
    sections: &'s [Section<'_>],
    anchor: Anchor,
    kind: &'s ErrorKind,
) -> Result<Option<Vec<Step<'s>>>, AllocError>
    ensures { IfOk result (λ path. option_map (λ p. path_of p.items) path
        ≡ option_map (λ p. p ++ steps_on (kind_of kind.now)) (path_of_anchor (map section_of sections.now) anchor)) }
{
    let Some(mut path) = path_to_anchor(alloc, sections, anchor)? else {
        return Ok(None);
    };
    if let ErrorKind::UnknownField { key, .. } = kind {
        path.push(Step::Key(key.as_str()))?;
    }
    Ok(Some(path))
}

// Where what an error of a type is about is written, by the path to it.
fn about_node(
    alloc: Global,
    sections: &[Section<'_>],
    path: &[Step<'_>],
    kind: &ErrorKind,
) -> Result<Option<usize>, AllocError>
    ensures { let origin = origin_in (map section_of sections.now) (path_of path.now) in
        IfOk result (λ at. at ≡ option_and_then (λ o. spot_of (kind_of kind.now) o) origin) }
{
    match origin_at(alloc, sections, path)? {
        Some(origin) => Ok(spot_of(origin, kind)),
        None => Ok(None),
    }
}

fn spot_of(origin: Origin, kind: &ErrorKind) -> Option<usize>
    ensures { result ≡ spot_of (kind_of kind.now) origin }
{
    match kind {
        ErrorKind::UnknownField { .. } => origin.key,
        _ => Some(origin.at),
    }
}

// Where what an error of a text at an offset is about is written, if it is one of a clash at both its keys.
fn about_text(
    alloc: Global,
    sections: &[Section<'_>],
    offset: usize,
    clash: Option<ClashKind>,
) -> Result<Origins, AllocError>
    ensures { IfOk result (λ origins. origins ≡ about_text (map section_of sections.now) offset clash) }
{
    let Some(clash) = clash else {
        return Ok(alone(offset));
    };
    match clash_places(alloc, sections, clash, offset)? {
        Some(places) => Ok(Origins {
            origin: places.later,
            other: Some(places.first),
        }),
        None => Ok(alone(offset)),
    }
}
