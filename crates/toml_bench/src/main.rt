//! Does one thing with standard input, for `tools/bench` to measure.
//!
//! The first argument says what: `read` reads the text into a table and lets it go, and so does no argument; `tokens`
//! takes its tokens; `keys` makes a string of each line, `push` pushes these as keys, and `find` looks each up then;
//! `records` makes a record of six fields of each line, and `write` writes these by calls, to standard output. The
//! others print nothing where that went well.
//!
//! It ends with status 0; with 1 where the text was refused, and then the error stands on standard error; and with 3
//! where reading or memory failed, a key stood twice, or the argument is none of these.
#![tactic(auto)]

mod records;
mod tables;
mod texts;

use std::alloc::Global;
use std::env;
use std::io::{self, Write};
use std::process::ExitCode;
use toml_streams::read_all;

const REFUSED: u8 = 1;

const FAILED: u8 = 3;

/// How doing it ended.
pub(crate) enum Ended {
    Well,
    Written(String),
    Refused(String),
}

fn main(rt: HostRuntime) -> ExitCode {
    match measured(&rt) {
        Ok(Ended::Well) => ExitCode::from(0),
        Ok(Ended::Written(text)) => match io::writer(&rt).write_all(text.as_bytes()) {
            Ok(()) => ExitCode::from(0),
            Err(_) => ExitCode::from(FAILED),
        },
        Ok(Ended::Refused(error)) => {
            let _ = eprintln!(rt; "{error}");
            ExitCode::from(REFUSED)
        }
        Err(_) => ExitCode::from(FAILED),
    }
}

fn measured(rt: &HostRuntime) -> io::Result<Ended> {
    let mut arguments = env::args(rt)?;
    let _program = arguments.next();
    let what = arguments.next();
    let input = read_all(rt.alloc(), &mut rt.reader())?;
    match what.as_ref().map_or("read", |word| word.as_str()) {
        "read" => texts::read(rt.alloc(), input.as_slice()),
        "tokens" => texts::take_tokens(rt.alloc(), input.as_slice()),
        "keys" => tables::keys(rt.alloc(), input.as_slice()),
        "push" => tables::push(rt.alloc(), input.as_slice()),
        "find" => tables::find(rt.alloc(), input.as_slice()),
        "records" => records::make(rt.alloc(), input.as_slice()),
        "write" => records::write(rt.alloc(), input.as_slice()),
        _ => Err(io::Error::from(io::ErrorKind::InvalidInput)),
    }
}
