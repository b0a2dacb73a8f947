//! What is due for a path and the bytes of a file.
ghost use Rattle.std.specs.Prelude.{◌≡◌, ◌≤◌, IfOk, string_bytes};
ghost use Rattle.basic_toml.specs.DataDepth.{depth};
ghost use Rattle.basic_toml.specs.Nesting.{nesting_limit};
ghost use Rattle.basic_toml.specs.View.{view};
ghost use Rattle.toml_get.specs.Fronts.{steps_seen};
ghost use Rattle.toml_get.specs.Run as spec;
ghost use Rattle.toml_streams.specs.Streams as streams;

use crate::format::Format;
use crate::nothing::nothing_text;
use crate::path_text::{malformed_text, no_table_text};
use crate::printed::printed;
use basic_toml::Value;
use std::alloc::{AllocError, Global};
use toml_findings::{Finding, Unread, read};
use toml_path::{PathError, Step, steps_of, value_at};
use toml_streams::{FAILED, Source, display_name, failure_line};

/// The status where the value was printed.
pub const PRINTED: u8 = 0;

/// The status where nothing stands at the path, where it is no table, or where the text is refused.
pub const NOT_PRINTED: u8 = 1;

/// What is due.
#[derive(Drop)]
pub struct Answer {
    /// [`PRINTED`], [`NOT_PRINTED`] or [`FAILED`].
    pub status: u8,
    /// What stands at the path; or why nothing is printed.
    pub text: String,
}

/// What stands at a path of the file of a name. A malformed path is told, and nothing is read.
///
/// # Errors
///
/// Want of memory alone.
#[tactic(auto, using(crate::proofs::AnswersAreDue::due_from))]
pub fn answer_from<S: Source>(
    alloc: Global,
    format: Format,
    source: &S,
    name: &str,
    path: &str,
) -> Result<Answer, AllocError>
    ensures { IfOk result (λ a. spec.IsSaid format (streams.display_name name.now) path.now
        (S.bytes source.now name.now) a.status (string_bytes a.text)) }
{
    match steps_of(alloc, path) {
        Ok(steps) => answer_along(alloc, format, source, name, steps.as_slice()),
        Err(PathError::Malformed) => Ok(Answer {
            status: FAILED,
            text: malformed_text(alloc, path)?,
        }),
        Err(PathError::OutOfMemory) => Err(AllocError),
    }
}

#[tactic(auto, using(crate::proofs::AnswersAreDue::due_along))]
fn answer_along<S: Source>(
    alloc: Global,
    format: Format,
    source: &S,
    name: &str,
    steps: &[Step<'_>],
) -> Result<Answer, AllocError>
    ensures { IfOk result (λ a. spec.IsSaidAlong format (streams.display_name name.now) (steps_seen steps.now)
        (S.bytes source.now name.now) a.status (string_bytes a.text)) }
{
    let label = display_name(name);
    match source.read(name) {
        Ok(input) => answer_to(alloc, format, label, steps, input.as_slice()),
        Err(error) => Ok(Answer {
            status: FAILED,
            text: failure_line(alloc, label, error)?,
        }),
    }
}

// By the name of the file in messages.
#[tactic(auto, using(crate::proofs::AnswersAreDue::due_to))]
fn answer_to(
    alloc: Global,
    format: Format,
    name: &str,
    steps: &[Step<'_>],
    input: &[u8],
) -> Result<Answer, AllocError>
    ensures { IfOk result (λ a. spec.IsDue format name.now (steps_seen steps.now) input.now a.status
        (string_bytes a.text)) }
{
    match read(alloc, input) {
        Ok(tree) => {
            let table = tree.into_table(alloc)?;
            answer_in(alloc, format, steps, &Value::Table(table))
        }
        Err(Unread::Refused(finding)) => Ok(Answer {
            status: NOT_PRINTED,
            text: refusal_text(alloc, name, &finding)?,
        }),
        Err(Unread::OutOfMemory) => Err(AllocError),
    }
}

fn refusal_text(alloc: Global, name: &str, finding: &Finding) -> Result<String, AllocError>
    ensures { IfOk result (λ text. string_bytes text ≡ spec.refusal_text name.now (spec.finding_seen finding.now)) }
{
    format!(in alloc; "{name}:{finding}")
}

// In a document, which is no deeper than the limit.
#[tactic(auto, using(crate::proofs::AnswersAreDue::due_in))]
fn answer_in(
    alloc: Global,
    format: Format,
    steps: &[Step<'_>],
    document: &Value,
) -> Result<Answer, AllocError>
    requires { depth (view document.now) ≤ nesting_limit }
    ensures { IfOk result (λ a. spec.IsDueIn format (steps_seen steps.now) (view document.now) a.status
        (string_bytes a.text)) }
{
    match value_at(document, steps) {
        Some(value) => answer_with(alloc, format, steps, value),
        None => Ok(Answer {
            status: NOT_PRINTED,
            text: nothing_text(alloc, document, steps)?,
        }),
    }
}

// With the value at the end of the steps.
fn answer_with(
    alloc: Global,
    format: Format,
    steps: &[Step<'_>],
    value: &Value,
) -> Result<Answer, AllocError>
    requires { depth (view value.now) ≤ nesting_limit }
    ensures { IfOk result (λ a. spec.IsDueOf format (steps_seen steps.now) (view value.now) a.status
        (string_bytes a.text)) }
{
    match printed(alloc, format, value)? {
        Some(text) => Ok(Answer {
            status: PRINTED,
            text,
        }),
        None => Ok(Answer {
            status: NOT_PRINTED,
            text: no_table_text(alloc, steps)?,
        }),
    }
}
