//! `toml_check [FILE ..]` says of each file whether it is TOML (v0.5.0, without dates and times), and what is wrong with
//! it, and where.
//!
//! It writes nothing where all are; else, on standard error, `FILE:LINE:COLUMN: message`, the line of the file, and a
//! caret below the place. It ends with status 0 where all are TOML, 1 where one is refused, and 3 where one could not be
//! read. `docs/CHECK.md` has the rest.
#![tactic(auto)]

mod run;
mod walk;

use run::check_all;
use std::io;
use std::process::ExitCode;
use toml_streams::{Call, Disk, FAILED, Options, Program, STANDARD_INPUT, call_of};
use walk::{FileList, files_under};

const PROGRAM: Program = Program {
    name: "toml_check",
    version: "0.1.0",
    help: "\
toml_check [OPTION ..] [FILE ..]

Says of each file whether it is TOML (v0.5.0, without dates and times), and what is wrong with it, and where, on
standard error. Of a folder it checks each file whose name ends with .toml, and those in the folders below it. Without
a FILE, or where one is -, it reads standard input.

  -q, --quiet    say nothing of a text that is refused: the status tells
  -h, --help     print this
      --version  print the version
      --         what follows are files

Status: 0 where all are TOML, 1 where a text is refused, 3 where a file could not be read.
",
    is_for_one_file: false,
};

/// How files are checked.
#[derive(Drop)]
struct Checking {
    is_quiet: bool,
}

impl Options for Checking {
    fn take(&mut self, word: &str) -> bool {
        match word {
            "-q" | "--quiet" => self.is_quiet = true,
            _ => return false,
        }
        true
    }
}

fn main(rt: HostRuntime) -> ExitCode {
    match status_of(&rt) {
        Ok(status) => ExitCode::from(status),
        Err(error) => {
            let _ = eprintln!(rt; "toml_check: {error}");
            ExitCode::from(FAILED)
        }
    }
}

fn status_of(rt: &HostRuntime) -> io::Result<u8> {
    let alloc = rt.alloc();
    match call_of(rt, &PROGRAM, Checking { is_quiet: false })? {
        Call::Run { options, names } => {
            let mut names = names;
            if names.is_empty() {
                names.push(String::from_str(alloc, STANDARD_INPUT)?)?;
            }
            let FileList { files, is_whole } = files_under(rt, names)?;
            let stderr = rt.stderr();
            let mut writer = io::writer(&stderr);
            let status = check_all(
                alloc,
                &Disk(rt),
                files.as_slice(),
                options.is_quiet,
                &mut writer,
            );
            Ok(if is_whole { status } else { FAILED })
        }
        Call::Answered(status) => Ok(status),
    }
}
