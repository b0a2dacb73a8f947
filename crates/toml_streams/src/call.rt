//! How a program is called: what it answers by itself, and what it is to run on.

use crate::arguments::{Options, Request, request_of};
use crate::failure::FAILED;
use std::rt::Env;
use std::{env, io};

/// What a program says of itself.
pub struct Program {
    pub name: &'static str,
    pub version: &'static str,
    pub help: &'static str,
    /// Whether it takes one file at most.
    pub is_for_one_file: bool,
}

/// What a program is called for.
#[derive(Debug, Drop)]
pub enum Call<O> {
    /// To run on the files of these names.
    Run { options: O, names: Vec<String> },
    /// Nothing more: what was asked for is said, and this is the status.
    Answered(u8),
}

/// What the command line asks a program for; help, the version and what is wrong with the words are printed.
///
/// # Errors
///
/// That of reading the words, of printing, or want of memory.
pub fn call_of<R: Env + AllocGlobal + Print + Eprint, O: Options + Drop>(
    rt: &R,
    program: &Program,
    options: O,
) -> io::Result<Call<O>> {
    let words: Vec<String> = env::args(rt)?.skip(1).collect(rt.alloc())?;
    let Program {
        name,
        version,
        help,
        is_for_one_file,
    } = program;
    match request_of(rt.alloc(), words, options)? {
        Request::Help => {
            print!(rt; "{help}")?;
            Ok(Call::Answered(0))
        }
        Request::Version => {
            println!(rt; "{name} {version}")?;
            Ok(Call::Answered(0))
        }
        Request::Unknown(option) => {
            eprintln!(rt; "{name}: unknown option {option}; {name} --help lists them")?;
            Ok(Call::Answered(FAILED))
        }
        Request::Run { options, names } => {
            if *is_for_one_file && names.len() > 1 {
                eprintln!(rt; "{name}: one FILE at most; {name} --help says more")?;
                return Ok(Call::Answered(FAILED));
            }
            Ok(Call::Run { options, names })
        }
    }
}
