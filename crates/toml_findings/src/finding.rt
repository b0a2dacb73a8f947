//! What is wrong with bytes, and where.
ghost use Rattle.std.specs.Prelude.{◌≡◌, Some, IfOk};
ghost use Rattle.toml_findings.specs.Findings as spec;
ghost use Rattle.basic_toml_error.specs.KindView.{kind_of};

use crate::dates::is_date_or_time;
use crate::front::valid_front;
use crate::other_key::{OtherKey, other_key};
use crate::place::{Place, place_at};
use basic_toml::{Error, ErrorKind, KeyPath, ReadErrorKind, Tree, read_tree};
use std::alloc::{AllocError, Global};
use std::fmt;

/// Why bytes are no TOML, and where.
///
/// It prints as `LINE:COLUMN: message`, the line of the text, and a line with a caret below the place; where what is
/// refused begins as a date or a time does, a line more that says that those are not read; and where two keys clash, a
/// note with the place of the other one. Each line ends with a line feed.
#[derive(Debug, Drop)]
pub struct Finding {
    /// What is wrong, and the keys that lead there.
    pub message: String,
    pub place: Place,
    /// Whether it begins as a date or a time does, which are not read.
    pub is_date_or_time: bool,
    /// Of a clash the other key.
    pub other: Option<OtherKey>,
}

impl fmt::Display for Finding {
    ghost use Rattle.toml_findings.specs.Findings.{finding_of, finding_text};

    ghost output = { λ f. Some (finding_text (finding_of f)) };

    fn fmt<W: fmt::Write>(&self, f: &mut fmt::Formatter<W>) -> fmt::Result {
        let Place { line, column, .. } = self.place;
        let message = self.message.as_str();
        let source = self.place.source.as_str();
        let caret = self.place.caret.as_str();
        let note = note(self.is_date_or_time);
        write!(f, "{line}:{column}: {message}\n{source}\n{caret}\n{note}")?;
        match &self.other {
            Some(other) => write!(f, "{other}"),
            None => Ok(()),
        }
    }
}

fn note(is_date_or_time: bool) -> &'static str
    ensures { result.now ≡ spec.note is_date_or_time }
{
    if is_date_or_time {
        "note: dates and times are not read\n"
    } else {
        ""
    }
}

/// Why there is no tree.
#[derive(Debug, Drop)]
pub enum Unread {
    /// What is wrong with the bytes.
    Refused(Finding),
    /// Memory was refused.
    OutOfMemory,
}

impl From<AllocError> for Unread {
    ghost use Rattle.toml_findings.specs.declared.finding.Unread.TheVariants.{OutOfMemory};

    ghost from_gives = { λ _ e. e ≡ OutOfMemory };

    fn from(_error: AllocError) -> Unread {
        Unread::OutOfMemory
    }
}

/// The tree of the document of some bytes (TOML v0.5.0, without dates and times). `toml_json` and `toml_get` call it.
///
/// # Errors
///
/// What is wrong with them: an error of the grammar or of a clash, where it stands; bytes that are not UTF-8 are wrong
/// at the first that is none, and of its line the part before it is shown. And want of memory.
pub fn read<'de>(alloc: Global, input: &'de [u8]) -> Result<Tree<'de>, Unread>
    ensures { spec.Reads input.now result }
{
    match simdutf8::compat::from_utf8(input) {
        Ok(text) => read_text(alloc, text),
        Err(_) => {
            let finding = not_utf8(alloc, input)?;
            Err(Unread::Refused(finding))
        }
    }
}

/// What is wrong with the bytes of a text; `None` where they are TOML. `toml_check` calls it.
///
/// # Errors
///
/// Want of memory alone.
pub fn check(alloc: Global, input: &[u8]) -> Result<Option<Finding>, AllocError>
    ensures { IfOk result (λ finding. spec.Finds input.now finding) }
{
    match read(alloc, input) {
        Ok(_) => Ok(None),
        Err(Unread::Refused(finding)) => Ok(Some(finding)),
        Err(Unread::OutOfMemory) => Err(AllocError),
    }
}

#[tactic(auto, using(crate::proofs::ReadingFinds::read_or_refused))]
fn read_text<'de>(alloc: Global, text: &'de str) -> Result<Tree<'de>, Unread>
    ensures { spec.Reads text.now result }
{
    match read_tree(alloc, text) {
        Ok(tree) => Ok(tree),
        Err(error) => {
            let finding = refusal(alloc, text, &error)?;
            Err(Unread::Refused(finding))
        }
    }
}

// What is told of an error; want of memory alone has no place.
fn refusal(alloc: Global, text: &str, error: &Error) -> Result<Finding, AllocError>
    ensures { IfOk result (λ finding. spec.IsRefusal text.now error.now (spec.finding_of finding)) }
{
    let Some(offset) = error.offset() else {
        return Err(AllocError);
    };
    let (message, keys) = (error.message(), KeyPath(error.key_path()));
    Ok(Finding {
        message: format!(in alloc; "{message}{keys}")?,
        place: place_at(alloc, text, offset)?,
        is_date_or_time: refuses_value(error.kind()) && is_date_or_time(text, offset),
        other: other_key(alloc, text, error, offset)?,
    })
}

// A number, or a colon where another thing is wanted: so a date or a time is refused.
fn refuses_value(kind: &ErrorKind) -> bool
    ensures { result ≡ spec.refuses_value (kind_of kind.now) }
{
    match kind {
        ErrorKind::Reading(ReadErrorKind::NumberInvalid) => true,
        ErrorKind::Reading(ReadErrorKind::Wanted { found, .. }) => found.as_str() == "a colon",
        _ => false,
    }
}

// What is told of bytes that are not UTF-8.
fn not_utf8(alloc: Global, input: &[u8]) -> Result<Finding, AllocError>
    ensures { IfOk result (λ finding. spec.finding_of finding ≡ spec.not_utf8 input.now) }
{
    let front = valid_front(input);
    Ok(Finding {
        message: String::from_str(alloc, "input is not valid UTF-8")?,
        place: place_at(alloc, front, front.len())?,
        is_date_or_time: false,
        other: None,
    })
}
