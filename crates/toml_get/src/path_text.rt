//! A path as messages have it.
ghost use Rattle.std.specs.Prelude.{◌≡◌, ◌++◌, IfOk, string_bytes};
ghost use Rattle.toml_get.specs.Fronts as spec;
ghost use Rattle.toml_get.specs.Fronts.{steps_seen};
ghost use Rattle.toml_path.specs.Path.{step_of};

use basic_toml_layout::{Scalar, write_key};
use std::alloc::{AllocError, Global};
use toml_path::Step;

/// A path as it is written: keys as TOML has them, with periods between them, and numbers between brackets.
///
/// # Errors
///
/// Want of memory alone.
#[tactic(auto, using(crate::proofs::StepsInTurn::steps_end))]
pub fn path_text(alloc: Global, steps: &[Step<'_>]) -> Result<String, AllocError>
    ensures { IfOk result (λ text. string_bytes text ≡ spec.path_text (steps_seen steps.now)) }
{
    let mut text = String::new(alloc);
    let mut is_later = false;
    for i in 0..steps.len() {
        push_step(&mut text, is_later, &steps[i])?;
        is_later = true;
    }
    Ok(text)
}

fn push_step(text: &mut String, is_later: bool, step: &Step<'_>) -> Result<(), AllocError>
    ensures { IfOk result (λ _. string_bytes text.new
        ≡ string_bytes text.old ++ spec.step_text is_later (step_of step.now)) }
{
    match step {
        Step::Key(key) => {
            push_period(text, is_later)?;
            write_key(text, key.as_str())
        }
        Step::Element(number) => write!(text, "[{number}]"),
    }
}

fn push_period(text: &mut String, is_later: bool) -> Result<(), AllocError>
    ensures { IfOk result (λ _. string_bytes text.new ≡ string_bytes text.old ++ spec.period is_later) }
{
    if is_later { text.push('.') } else { Ok(()) }
}

/// The line that says that a text is no path.
pub fn malformed_text(alloc: Global, path: &str) -> Result<String, AllocError>
    ensures { IfOk result (λ text. string_bytes text ≡ spec.malformed_text path.now) }
{
    let mut quoted = String::new(alloc);
    Scalar::Text(path).write(&mut quoted)?;
    format!(in alloc;
        "toml_get: malformed path {quoted}; toml_get --help says how a path is written\n"
    )
}

/// The line that says that what stands at the end of the steps is no table.
pub fn no_table_text(alloc: Global, steps: &[Step<'_>]) -> Result<String, AllocError>
    ensures { IfOk result (λ text. string_bytes text ≡ spec.no_table_text (steps_seen steps.now)) }
{
    let path = path_text(alloc, steps)?;
    format!(in alloc; "toml_get: no table at {path}, and only a table is a document\n")
}
