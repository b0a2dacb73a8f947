//! What the words of a command line ask for.

use crate::source::STANDARD_INPUT;
use std::alloc::{AllocError, Global};

/// The options that a program has of its own.
pub trait Options {
    /// Takes an option, by its word; answers whether it is one of these.
    fn take(&mut self, word: &str) -> bool;
}

/// What a program is asked to do.
#[derive(Debug, Drop)]
pub(crate) enum Request<O> {
    Help,
    Version,
    /// To run on the files of these names; [`STANDARD_INPUT`] is one.
    Run { options: O, names: Vec<String> },
    /// An option that there is not.
    Unknown(String),
}

/// What the words behind the program's name ask for, of a program with these options.
///
/// The first word that asks for something else than a run decides. What follows `--` are names.
///
/// # Errors
///
/// Want of memory alone.
pub(crate) fn request_of<O: Options + Drop>(
    alloc: Global,
    words: Vec<String>,
    options: O,
) -> Result<Request<O>, AllocError> {
    let mut options = options;
    let mut names = Vec::new(alloc);
    let mut are_names = false;
    for word in words {
        let text = word.as_str();
        if are_names || text == STANDARD_INPUT || !text.starts_with('-') {
            names.push(word)?;
            continue;
        }
        match text {
            "--" => are_names = true,
            "-h" | "--help" => return Ok(Request::Help),
            "--version" => return Ok(Request::Version),
            _ => {
                if !options.take(text) {
                    return Ok(Request::Unknown(word));
                }
            }
        }
    }
    Ok(Request::Run { options, names })
}
