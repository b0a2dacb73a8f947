//! Reading a type that derives from a text.
ghost use Rattle.std.specs.Prelude.{◌≡◌, IfErr, IsUtf8, Err};
ghost use Rattle.basic_toml_error.specs.Fault.{not_text};
ghost use Rattle.basic_toml_serde.specs.Answers.{AnswersText, HasLine};

use crate::fault::Fault;
use crate::notes::{Notes, Trial, narrow_types};
use crate::part::Part;
use crate::reader::Reader;
use crate::source::Source;
use basic_toml::{Error, Tree, read_tree};
use serde::{Deserialize, Deserializer};
use std::alloc::{AllocError, Global};

/// Reads a value of a type that derives from a text (TOML v0.5.0, without dates and times).
///
/// ```text
/// let value: T = from_str(alloc, text)?;
/// ```
///
/// This is from the program `derived_manifest`.
///
/// # Errors
///
/// Where the text has no document, the error of [`basic_toml::read_tree`]. Where the type reads nothing from the
/// document, what is wrong, as the kit's `serde` or the type says it, with the keys that lead there, the line and the
/// column; and `out of memory` where a growth was refused. What is wrong stands at its value, and at the table where a
/// field is missing or unknown.
///
/// A type that does not fit is read a second time, for its error, and up to three times more where the error is about
/// an integer, to learn which type asked for it.
#[tactic(auto, using(crate::proofs::ReadingEnds::ends))]
pub fn from_str<'de, T: Deserialize<'de>>(alloc: Global, text: &'de str) -> Result<T, Error>
    ensures { AnswersText text.now result }
{
    let tree = read_tree(alloc, text)?;
    read_from(alloc, &tree, text)
}

/// Reads a value of a type that derives from bytes, as [`from_str`] does where they are UTF-8.
///
/// # Errors
///
/// `input is not valid UTF-8` where they are not, and the errors of [`from_str`].
pub fn from_slice<'de, T: Deserialize<'de>>(alloc: Global, bytes: &'de [u8]) -> Result<T, Error>
    ensures text { IsUtf8 bytes.now → AnswersText bytes.now result }
    ensures other { ¬ IsUtf8 bytes.now → result ≡ Err not_text }
{
    match simdutf8::compat::from_utf8(bytes) {
        Ok(text) => from_str(alloc, text),
        Err(_) => Err(Error::not_utf8()),
    }
}

// What a type reads from the tree of a text.
fn read_from<'de, T: Deserialize<'de>>(
    alloc: Global,
    tree: &Tree<'de>,
    text: &'de str,
) -> Result<T, Error>
    ensures { IfErr result (HasLine text.now) }
{
    match read_by(alloc, tree, text, None, None) {
        Ok(value) => Ok(value),
        Err(Fault::OutOfMemory) => Err(Error::from(AllocError).with_line(text)),
        Err(_) => read_again(alloc, tree, text),
    }
}

// The same, where a first reading failed: its error.
#[cold]
fn read_again<'de, T: Deserialize<'de>>(
    alloc: Global,
    tree: &Tree<'de>,
    text: &'de str,
) -> Result<T, Error>
    ensures { IfErr result (HasLine text.now) }
{
    match read_by(alloc, tree, text, Some(Notes::new(alloc)), None) {
        Ok(value) => Ok(value),
        Err(fault) => {
            let fault = with_integer_type::<T>(alloc, tree, text, fault);
            Err(fault.in_text(alloc, tree.root(), text))
        }
    }
}

// The error with the type that asked for an integer, where it is about one. A type that does not take the number that
// is tried answers the same error anew, and then it is this type.
#[cold]
fn with_integer_type<'de, T: Deserialize<'de>>(
    alloc: Global,
    tree: &Tree<'de>,
    text: &'de str,
    fault: Fault,
) -> Fault {
    let Some(step) = fault.integer() else {
        return fault;
    };
    for integer_type in narrow_types(step.is_signed) {
        let trial = Trial {
            count: step.count,
            integer_type,
        };
        let notes = Notes::new(alloc);
        let answer: Result<T, Fault> = read_by(alloc, tree, text, Some(notes), Some(trial));
        if let Err(other) = answer {
            if other.is_out_of_memory() || other.integer() == Some(step) {
                return other;
            }
        }
    }
    fault
}

fn read_by<'t, 'de, T: Deserialize<'de>>(
    alloc: Global,
    tree: &'t Tree<'de>,
    text: &'de str,
    notes: Option<Notes>,
    trial: Option<Trial>,
) -> Result<T, Fault> {
    let root = Part {
        key: None,
        node: tree.root(),
    };
    let mut reader = Reader::new(alloc, root, notes, trial)?;
    read_steps(alloc, text.as_bytes(), &mut reader)
}

// What a type reads by the steps of a reading. It names no kind of node: where a `Deserializer` is made for a `Part`, the
// check does not see that one of its lifetimes holds the other.
fn read_steps<'de, N: Source, T: Deserialize<'de>>(
    alloc: Global,
    input: &'de [u8],
    reader: &mut Reader<N>,
) -> Result<T, Fault> {
    T::deserialize(alloc, &mut Deserializer::new(input, reader))
}
