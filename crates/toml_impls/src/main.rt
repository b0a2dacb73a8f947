//! `toml_impls` reads a file of Rust from standard input and writes it to standard output with the impls of its structs
//! and enums behind them, by which `basic_toml` reads and writes them and `basic_toml_returns` reads back what was
//! written. With `--from` it reads a TOML text in place of a file, and writes structs that it can be read as.
//!
//! It ends with status 0; with 1 where something in the file is refused, and then says on standard error what, and where,
//! and writes nothing; and with 3 where reading, writing or memory failed, or an argument is none of its own.
#![tactic(auto)]

mod answer;
mod run;

use answer::Task;
use run::{FAILED, run};
use std::process::ExitCode;
use std::{env, io};

const HELP: &str = "\
toml_impls [--module PATH] < FILE
toml_impls --from < TOML

Writes the file with the impls of each struct and enum behind it, in place of those that it has already, and with the
use lines that they need. A struct has named fields, of which an Option may be missing; an enum has no data, or is
untagged and has two variants, one that holds a table and one that holds another value. What serde's attributes say is
taken from them: rename, rename_all, default (or default = 8080), deny_unknown_fields, untagged,
skip_serializing_if = \"Option::is_none\". Then they are cut, since Rattle has none: the impls keep what they said.

  --module PATH  the path of the file, as my_crate::settings: for enums
  --from         read TOML, and write structs for it: a file to begin with
  --help         print this
  --version      print the version

Status: 0, or 1 where something is refused, 3 where reading, writing or memory failed.
";

/// What the program is asked to do.
#[derive(Clone, Copy)]
enum Request<'w> {
    Write(Task<'w>),
    Help,
    Version,
    Refused,
}

fn main(rt: HostRuntime) -> ExitCode {
    match status_of(&rt) {
        Ok(status) => ExitCode::from(status),
        Err(_) => ExitCode::from(FAILED),
    }
}

// What the words behind the program's name ask for.
fn request_of(words: &[String]) -> Request<'_> {
    match words {
        [] => Request::Write(Task::Impls(None)),
        [word] if word.as_str() == "--from" => Request::Write(Task::Structs),
        [word] if word.as_str() == "--help" => Request::Help,
        [word] if word.as_str() == "--version" => Request::Version,
        [word, path] if word.as_str() == "--module" => {
            Request::Write(Task::Impls(Some(path.as_str())))
        }
        _ => Request::Refused,
    }
}

fn status_of(rt: &HostRuntime) -> io::Result<u8> {
    let words: Vec<String> = env::args(rt)?.skip(1).collect(rt.alloc())?;
    match request_of(words.as_slice()) {
        Request::Write(task) => {
            let stderr = rt.stderr();
            let mut reader = rt.reader();
            Ok(run(
                rt.alloc(),
                task,
                &mut reader,
                &mut io::writer(rt),
                &mut io::writer(&stderr),
            ))
        }
        Request::Help => {
            print!(rt; "{HELP}")?;
            Ok(0)
        }
        Request::Version => {
            println!(rt; "toml_impls 0.1.0")?;
            Ok(0)
        }
        Request::Refused => {
            eprintln!(rt;
                "usage: toml_impls [--module PATH] < FILE, or --from < TOML; toml_impls --help says more"
            )?;
            Ok(FAILED)
        }
    }
}
