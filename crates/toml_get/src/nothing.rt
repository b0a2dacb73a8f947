//! What is said where nothing stands at a path: how far it leads.
ghost use Rattle.std.specs.Prelude.{◌≡◌, ◌<◌, IfOk, None, length, string_bytes};
ghost use Rattle.basic_toml.specs.View.{view};
ghost use Rattle.toml_get.specs.Fronts as spec;
ghost use Rattle.toml_get.specs.Fronts.{steps_seen};
ghost use Rattle.toml_path.specs.Find.{data_at};

use crate::path_text::path_text;
use basic_toml::Value;
use std::alloc::{AllocError, Global};
use toml_path::{Step, value_at};

/// The line that says that nothing stands at the end of the steps, and which of their fronts leads somewhere.
///
/// # Errors
///
/// Want of memory alone.
#[tactic(auto, using(crate::proofs::FrontsAreLongest::front_is_short))]
pub fn nothing_text(
    alloc: Global,
    document: &Value,
    steps: &[Step<'_>],
) -> Result<String, AllocError>
    requires { data_at (view document.now) (steps_seen steps.now) ≡ None }
    ensures { IfOk result (λ text. spec.TellsNothing (view document.now) (steps_seen steps.now) (string_bytes text)) }
{
    let path = path_text(alloc, steps)?;
    let there = there_text(alloc, steps, front_length(document, steps))?;
    format!(in alloc; "toml_get: nothing at {path}: {there}\n")
}

// How many of the steps lead somewhere.
#[tactic(auto, using(crate::proofs::FrontsAreLongest::front_further))]
fn front_length(value: &Value, steps: &[Step<'_>]) -> usize
    ensures { spec.IsLongestFront (view value.now) (steps_seen steps.now) result }
{
    let Some((_, others)) = steps.split_first() else {
        return 0;
    };
    match value_at(value, &steps[..1]) {
        Some(next) => 1 + front_length(next, others),
        None => 0,
    }
}

// What is there, by the first of the steps.
fn there_text(alloc: Global, steps: &[Step<'_>], count: usize) -> Result<String, AllocError>
    requires { count < length steps.now }
    ensures { IfOk result (λ text. string_bytes text ≡ spec.there_text (steps_seen steps.now) count) }
{
    if count == 0 {
        let key = path_text(alloc, &steps[..1])?;
        return format!(in alloc; "the document has no key {key}");
    }
    let front = path_text(alloc, &steps[..count])?;
    format!(in alloc; "{front} is there")
}
