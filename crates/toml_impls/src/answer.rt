//! What is due for the bytes of a file.

use basic_toml::{Error, KeyPath, Table, from_str, line_col};
use std::alloc::{AllocError, Global};
use std::str;
use toml_impl_text::with_impls;
use toml_rust_items::refusal::NoImpls;
use toml_struct_text::{NoStructs, structs_of};

/// The status where something was written.
pub const WRITTEN: u8 = 0;

/// The status where something is refused.
pub const REFUSED: u8 = 1;

/// What is to be written.
#[derive(Clone, Copy)]
pub enum Task<'w> {
    /// A file of Rust with the impls of its types; the path of its module, where that is known.
    Impls(Option<&'w str>),
    /// Structs for a TOML text.
    Structs,
}

/// What is due for the bytes of a file.
#[derive(Drop)]
pub struct Answer {
    /// [`WRITTEN`] or [`REFUSED`].
    pub status: u8,
    /// What is written, or what is wrong.
    pub text: String,
}

/// Does a task for the bytes of a file.
///
/// # Errors
///
/// Want of memory alone.
pub fn answer_to(alloc: Global, task: Task<'_>, input: &[u8]) -> Result<Answer, AllocError> {
    match (str::from_utf8(input), task) {
        (Ok(text), Task::Impls(module)) => impls_in(alloc, text, module),
        (Ok(text), Task::Structs) => structs_for(alloc, text),
        (Err(_), _) => refused(format!(in alloc; "stdin: input is not valid UTF-8\n")?),
    }
}

fn impls_in(alloc: Global, text: &str, module: Option<&str>) -> Result<Answer, AllocError> {
    match with_impls(alloc, text, module) {
        Ok(text) => written(text),
        Err(NoImpls::At(at, reason)) => {
            let (line, column) = line_col(text, at);
            refused(format!(in alloc; "stdin:{}:{}: {reason}\n", line + 1, column + 1)?)
        }
        Err(NoImpls::OutOfMemory) => Err(AllocError),
    }
}

fn structs_for(alloc: Global, text: &str) -> Result<Answer, AllocError> {
    let document: Table = match from_str(alloc, text) {
        Ok(document) => document,
        Err(error) => return no_document(alloc, &error),
    };
    match structs_of(alloc, &document) {
        Ok(text) => written(text),
        Err(NoStructs::Keys) => refused(format!(in alloc;
            "stdin: the document has no keys, or one that no field can have\n"
        )?),
        Err(NoStructs::OutOfMemory) => Err(AllocError),
    }
}

fn no_document(alloc: Global, error: &Error) -> Result<Answer, AllocError> {
    if error.is_out_of_memory() {
        return Err(AllocError);
    }
    let message = error.message();
    let keys = KeyPath(error.key_path());
    match error.line_col() {
        Some((line, column)) => {
            let (line, column) = (line.saturating_add(1), column.saturating_add(1));
            refused(format!(in alloc; "stdin:{line}:{column}: {message}{keys}\n")?)
        }
        None => refused(format!(in alloc; "stdin: {message}{keys}\n")?),
    }
}

fn written(text: String) -> Result<Answer, AllocError> {
    Ok(Answer {
        status: WRITTEN,
        text,
    })
}

fn refused(text: String) -> Result<Answer, AllocError> {
    Ok(Answer {
        status: REFUSED,
        text,
    })
}
