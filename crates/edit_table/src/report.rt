//! How a program says what is wrong with its standard input.

use basic_toml::{Error, KeyPath};
use std::io;
use std::process::ExitCode;

/// Prints an error on standard error, and answers the status 1.
///
/// Its place, where it has one, stands in front, where editors look for it: `stdin:LINE:COLUMN: `, both from 1.
pub fn report(rt: &HostRuntime, error: Error) -> io::Result<ExitCode> {
    let message = error.message();
    let keys = KeyPath(error.key_path());
    match error.line_col() {
        Some((line, column)) => {
            eprintln!(rt; "stdin:{}:{}: {message}{keys}", line + 1, column + 1)?;
        }
        None => eprintln!(rt; "stdin: {message}{keys}")?,
    }
    Ok(ExitCode::FAILURE)
}
