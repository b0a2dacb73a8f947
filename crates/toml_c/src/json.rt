//! A document as JSON.
ghost use Rattle.std.specs.Prelude.{◌≡◌, ◌≢◌, IfOk, string_bytes};
ghost use Rattle.basic_toml.specs.Fault.{out_of_memory};
ghost use Rattle.basic_toml.specs.FaultText.{fault_text};
ghost use Rattle.toml_c.specs.Jsons as spec;

use crate::answer::{DONE, OUT_OF_MEMORY, REFUSED, TomlAnswer, answered, put};
use crate::document::table_of;
use basic_toml::Error;
use std::alloc::{AllocError, Global};
use toml_json_text::{Form, json_of};

/// Reads a text and writes its data as JSON, on one line, its keys in order; tagged, with the types of its scalars, as
/// the toml-test suite has them. The JSON, or an error's message, goes to the front of `output`, as much of it as there
/// is room for.
///
/// The answer is as that of `toml_c_tidy`, with no status 2.
#[unsafe(no_mangle)]
pub extern "C" fn toml_c_json(
    alloc: Global,
    input: &[u8],
    is_tagged: bool,
    output: &mut [u8],
) -> TomlAnswer
    ensures { spec.Jsons (spec.form_of is_tagged) input.now output.old output.new result }
{
    match json_due(alloc, form_of(is_tagged), input) {
        Ok(due) => {
            let text = due.text.as_bytes();
            put(output, text);
            answered(due.status, text.len(), due.line_col)
        }
        Err(_) => answered(OUT_OF_MEMORY, 0, None),
    }
}

// What is due for the bytes: their JSON, or the text of an error.
#[derive(Drop)]
struct Due {
    status: u32,
    text: String,
    line_col: Option<(usize, usize)>,
}

fn json_due(alloc: Global, form: Form, input: &[u8]) -> Result<Due, AllocError>
    ensures { IfOk result (λ d. spec.IsJsonDue form input.now d.status (string_bytes d.text) d.line_col) }
{
    match table_of(alloc, input) {
        Ok(table) => Ok(Due {
            status: DONE,
            text: json_of(alloc, form, &table)?,
            line_col: None,
        }),
        Err(error) => Ok(Due {
            status: REFUSED,
            text: error_text(alloc, &error)?,
            line_col: error.line_col(),
        }),
    }
}

// None is due for want of memory.
fn error_text(alloc: Global, error: &Error) -> Result<String, AllocError>
    ensures text { IfOk result (λ text. string_bytes text ≡ fault_text error.now) }
    ensures kind { IfOk result (λ _. error.now.kind ≢ out_of_memory) }
{
    if error.is_out_of_memory() {
        return Err(AllocError);
    }
    format!(in alloc; "{error}")
}

fn form_of(is_tagged: bool) -> Form
    ensures { result ≡ spec.form_of is_tagged }
{
    if is_tagged { Form::Tagged } else { Form::Plain }
}
