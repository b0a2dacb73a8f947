//! What is due for the bytes of a text: the same data written anew, or an error with its line and column.
//!
//! `toml_tidy` writes it to standard output, and `toml_c` gives it to a program in C.
#![tactic(auto)]

ghost use Rattle.std.specs.Prelude.{◌≡◌, ◌≢◌, ◌≤◌, IfOk, IfErr, Ok, string_bytes};
ghost use Rattle.basic_toml.specs.Data as d;
ghost use Rattle.basic_toml.specs.DataDepth.{depth};
ghost use Rattle.basic_toml.specs.Fault.{out_of_memory};
ghost use Rattle.basic_toml.specs.FaultText.{fault_text};
ghost use Rattle.basic_toml.specs.Nesting.{nesting_limit};
ghost use Rattle.basic_toml.specs.View.{entries};
ghost use Rattle.toml_answer.specs.Due as spec;
ghost use Rattle.toml_answer.specs.Due.{IsDue};

use basic_toml::{Error, Table, from_slice, table_to_string, table_to_string_pretty, to_string};
use std::alloc::{AllocError, Global};

/// The status of a text that was read and written.
pub const TIDIED: u8 = 0;

/// The status of a text that was refused.
pub const REFUSED: u8 = 1;

/// The status of a text that was read, and whose table cannot be written as it was read.
pub const NOT_WRITTEN: u8 = 2;

/// What is due for the bytes of a text.
#[derive(Debug, Drop)]
pub struct Answer {
    /// [`TIDIED`], [`REFUSED`] or [`NOT_WRITTEN`].
    pub status: u8,
    /// The text written anew, or the error's text.
    pub text: String,
    /// The line and the column of an error that has an offset, both from 0; a column counts bytes.
    pub line_col: Option<(usize, usize)>,
}

/// In which form a text is written.
#[derive(Clone, Copy, Debug)]
pub enum Form {
    /// The entries of each table as they were read.
    AsRead,
    /// Rows before sections, as [`table_to_string`] has them.
    RowsFirst,
    /// Rows before sections, for people, as [`table_to_string_pretty`] has them.
    Pretty,
}

/// Reads a text and writes its data anew, in this form.
///
/// # Errors
///
/// Want of memory alone; every error of reading and of writing is an answer.
pub fn answer_to(alloc: Global, form: Form, input: &[u8]) -> Result<Answer, AllocError>
    ensures { IfOk result (λ a. IsDue form input.now a.status (string_bytes a.text) a.line_col) }
{
    match from_slice::<Table>(alloc, input) {
        Ok(table) => table_answer(alloc, form, &table),
        Err(fault) => error_answer(alloc, REFUSED, fault),
    }
}

// Of a table that was read, which is nested within the limit.
fn table_answer(alloc: Global, form: Form, table: &Table) -> Result<Answer, AllocError>
    requires { depth (d.table (entries table.now)) ≤ nesting_limit }
    ensures { IfOk result
        (λ a. spec.IsWritten form (entries table.now) a.status (string_bytes a.text) a.line_col) }
{
    match form {
        Form::AsRead => text_answer(alloc, table),
        Form::RowsFirst => Ok(tidied(text_of(table_to_string(alloc, table))?)),
        Form::Pretty => Ok(tidied(text_of(table_to_string_pretty(alloc, table))?)),
    }
}

fn tidied(text: String) -> Answer
    ensures { spec.IsTidied (string_bytes text) result.status (string_bytes result.text) result.line_col }
{
    Answer {
        status: TIDIED,
        text,
        line_col: None,
    }
}

// The text that was written, where only want of memory keeps it back.
fn text_of(written: Result<String, Error>) -> Result<String, AllocError>
    requires { IfErr written (λ fault. fault.kind ≡ out_of_memory) }
    ensures { IfOk result (λ text. written ≡ Ok text) }
{
    match written {
        Ok(text) => Ok(text),
        Err(error) => {
            let is_out_of_memory = error.is_out_of_memory();
            prove!(is_out_of_memory);
            Err(AllocError)
        }
    }
}

// The text of a table as it was read, or the error that its calls meet.
fn text_answer(alloc: Global, table: &Table) -> Result<Answer, AllocError>
    ensures { IfOk result
        (λ a. spec.IsWriting (d.table (entries table.now)) a.status (string_bytes a.text) a.line_col) }
{
    match to_string(alloc, table) {
        Ok(text) => Ok(tidied(text)),
        Err(fault) => error_answer(alloc, NOT_WRITTEN, fault),
    }
}

// An error's text and place under a status; none is due for want of memory.
fn error_answer(alloc: Global, status: u8, fault: Error) -> Result<Answer, AllocError>
    ensures status { IfOk result (λ a. a.status ≡ status) }
    ensures text { IfOk result (λ a. string_bytes a.text ≡ fault_text fault) }
    ensures place { IfOk result (λ a. a.line_col ≡ fault.line_column) }
    ensures fault { IfOk result (λ _. fault.kind ≢ out_of_memory) }
{
    if fault.is_out_of_memory() {
        return Err(AllocError);
    }
    Ok(Answer {
        status,
        text: format!(in alloc; "{fault}")?,
        line_col: fault.line_col(),
    })
}
