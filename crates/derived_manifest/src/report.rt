//! How a program says what is wrong with a file.

use basic_toml::{Error, KeyPath, line_col};
use std::alloc::Global;
use std::io;
use std::process::ExitCode;

/// Prints an error of a file's text on standard error, and answers the status 1.
///
/// Where what it is about is written stands in front, where editors look for it: `FILE:LINE:COLUMN: `, both from 1.
pub fn report(rt: &HostRuntime, name: &str, text: &str, error: &Error) -> io::Result<ExitCode> {
    let message = error.message();
    let keys = KeyPath(error.key_path());
    match place(rt.alloc(), text, error) {
        Some(place) => {
            let (line, column) = line_col(text, place);
            eprintln!(rt; "{name}:{}:{}: {message}{keys}", line + 1, column + 1)?;
        }
        None => eprintln!(rt; "{name}: {message}{keys}")?,
    }
    Ok(ExitCode::FAILURE)
}

// The offset of the origin, or, where no memory is left to look for it, the error's own.
fn place(alloc: Global, text: &str, error: &Error) -> Option<usize> {
    match error.origins(alloc, text) {
        Ok(Some(origins)) => Some(origins.origin),
        _ => error.offset(),
    }
}
