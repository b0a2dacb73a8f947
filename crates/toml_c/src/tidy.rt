//! A text written anew.
ghost use Rattle.toml_answer.specs.declared.Form.TheVariants.{AsRead, RowsFirst};
ghost use Rattle.toml_c.specs.Answers.{Tidies};

use crate::answer::{OUT_OF_MEMORY, TomlAnswer, answered, put};
use std::alloc::Global;
use toml_answer::{Form, answer_to};

/// Reads a text and writes its data anew, in their order: the text, or an error's message, goes to the front of
/// `output`, as much of it as there is room for.
///
/// An answer of a length above that of `output` asks for another call, with more room. Where memory is refused, nothing
/// is written.
#[unsafe(no_mangle)]
pub extern "C" fn toml_c_tidy(alloc: Global, input: &[u8], output: &mut [u8]) -> TomlAnswer
    ensures { Tidies AsRead input.now output.old output.new result }
{
    tidy(alloc, Form::AsRead, input, output)
}

/// As [`toml_c_tidy`], the rows of each table before its sections: so every text that is read is written.
#[unsafe(no_mangle)]
pub extern "C" fn toml_c_tidy_rows_first(
    alloc: Global,
    input: &[u8],
    output: &mut [u8],
) -> TomlAnswer
    ensures { Tidies RowsFirst input.now output.old output.new result }
{
    tidy(alloc, Form::RowsFirst, input, output)
}

fn tidy(alloc: Global, form: Form, input: &[u8], output: &mut [u8]) -> TomlAnswer
    ensures { Tidies form input.now output.old output.new result }
{
    match answer_to(alloc, form, input) {
        Ok(answer) => {
            let text = answer.text.as_bytes();
            put(output, text);
            answered(answer.status as u32, text.len(), answer.line_col)
        }
        Err(_) => answered(OUT_OF_MEMORY, 0, None),
    }
}
