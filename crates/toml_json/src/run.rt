//! Bytes to JSON, or to what is wrong with them.
ghost use Rattle.std.specs.Prelude.{◌≡◌, IfOk, IfSome, string_bytes};
ghost use Rattle.basic_toml.specs.Data.{table as table_of_members};
ghost use Rattle.basic_toml.specs.View.{entries};
ghost use Rattle.toml_json.specs.Run as spec;
ghost use Rattle.toml_streams.specs.Streams as streams;

use basic_toml::Table;
use std::alloc::{AllocError, Global};
use std::io::Write;
use toml_findings::{Unread, read};
use toml_json_text::{Form, Layout, json_in};
use toml_streams::{FAILED, Source, display_name, tell_failure, write_all};

/// How JSON is written.
#[derive(Clone, Copy)]
pub struct Style {
    pub form: Form,
    pub layout: Layout,
}

/// The status where the JSON was written.
pub const WRITTEN: u8 = 0;

/// The status where the text is refused.
pub const REFUSED: u8 = 1;

/// Reads all bytes of the file of a name, and writes their data as JSON to `output`, or what is wrong with them to
/// `errors`; answers the status. What fails is said on `errors`.
///
/// A write that is interrupted counts as failed, and so does one that takes no byte.
#[tactic(auto, using(crate::proofs::RunEnds::run_ends))]
pub fn run<S: Source, W: Write, E: Write>(
    alloc: Global,
    style: Style,
    source: &S,
    name: &str,
    output: &mut W,
    errors: &mut E,
) -> u8
    ensures { IfSome (S.bytes source.now name.now) (λ input. spec.Ends style (streams.display_name name.now) input
        (W.contents output.old) (W.contents output.new) (E.contents errors.old) (E.contents errors.new) result) }
{
    let label = display_name(name);
    let input = match source.read(name) {
        Ok(input) => input,
        Err(error) => return tell_failure(alloc, errors, label, error),
    };
    let Ok(answer) = answer_to(alloc, style, label, input.as_slice()) else {
        return tell_failure(alloc, errors, label, "out of memory");
    };
    match answer {
        Answer::Json(text) => match write_all(output, text.as_bytes()) {
            Ok(()) => WRITTEN,
            Err(error) => tell_failure(alloc, errors, "stdout", error),
        },
        Answer::Refused(text) => match write_all(errors, text.as_bytes()) {
            Ok(()) => REFUSED,
            Err(_) => FAILED,
        },
    }
}

// What is due for the bytes of a text.
#[derive(Drop)]
enum Answer {
    Json(String),
    Refused(String),
}

// The answer for the bytes of a file, by its name in messages.
fn answer_to(alloc: Global, style: Style, name: &str, input: &[u8]) -> Result<Answer, AllocError>
    ensures { IfOk result (λ answer. spec.IsAnswer style name.now input.now answer) }
{
    match read(alloc, input) {
        Ok(tree) => {
            let table = tree.into_table(alloc)?;
            json_lines(alloc, style, &table)
        }
        Err(unread) => refusal(alloc, name, unread),
    }
}

fn json_lines(alloc: Global, style: Style, table: &Table) -> Result<Answer, AllocError>
    ensures { IfOk result (λ answer. spec.IsJson (spec.json_lines style (table_of_members (entries table.now))) answer) }
{
    let mut text = json_in(alloc, style.form, style.layout, table)?;
    text.push('\n')?;
    Ok(Answer::Json(text))
}

fn refusal(alloc: Global, name: &str, unread: Unread) -> Result<Answer, AllocError>
    ensures { IfOk result (spec.IsRefusal name.now unread) }
{
    match unread {
        Unread::Refused(finding) => Ok(Answer::Refused(format!(in alloc; "{name}:{finding}")?)),
        Unread::OutOfMemory => Err(AllocError),
    }
}
