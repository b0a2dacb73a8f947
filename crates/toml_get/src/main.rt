//! `toml_get [FILE] PATH` reads a TOML text and prints what stands at a path in it, such as
//! `dependencies.serde.version`.
//!
//! It ends with status 0; with 1 where nothing stands there, where `--toml` meets no table, or where the text is
//! refused; and with 3 where the path is malformed, where reading, writing or memory failed, or an option is none of
//! its own. Standard error then says why, and how far the path leads. `docs/GET.md` has the rest.
#![tactic(auto)]

mod answer;
mod format;
mod nothing;
mod path_text;
mod printed;
mod run;

use format::Format;
use run::run;
use std::io;
use std::process::ExitCode;
use toml_streams::{Call, Disk, FAILED, Options, Program, STANDARD_INPUT, call_of};

const PROGRAM: Program = Program {
    name: "toml_get",
    version: "0.1.0",
    help: "\
toml_get [--json | --toml] [FILE] PATH

Reads TOML (v0.5.0, without dates and times) and prints what stands at PATH, such as dependencies.serde.version or
bin[1].name: a string without its quotes, anything else as it stands behind a key. Keys that are not bare stand
between quotes, as in TOML, and elements are counted from 0. The empty PATH is the whole table. Without FILE, or where
it is -, it reads standard input.

      --json     print it as JSON, on one line
      --toml     print it as a document, where it is a table
  -h, --help     print this
      --version  print the version
      --         what follows are FILE and PATH

Status: 0, or 1 where nothing stands at PATH, where --toml meets no table, or where the text is refused, 3 where PATH
is malformed, or where reading, writing or memory failed.
",
    is_for_one_file: false,
};

/// The options: the last of them counts.
#[derive(Drop)]
struct Printing {
    format: Format,
}

impl Options for Printing {
    fn take(&mut self, word: &str) -> bool {
        match word {
            "--json" => self.format = Format::Json,
            "--toml" => self.format = Format::Toml,
            _ => return false,
        }
        true
    }
}

fn main(rt: HostRuntime) -> ExitCode {
    match status_of(&rt) {
        Ok(status) => ExitCode::from(status),
        Err(error) => {
            let _ = eprintln!(rt; "toml_get: {error}");
            ExitCode::from(FAILED)
        }
    }
}

fn status_of(rt: &HostRuntime) -> io::Result<u8> {
    let printing = Printing {
        format: Format::Plain,
    };
    let (format, names) = match call_of(rt, &PROGRAM, printing)? {
        Call::Run { options, names } => (options.format, names),
        Call::Answered(status) => return Ok(status),
    };
    let (name, path) = match names.as_slice() {
        [path] => (STANDARD_INPUT, path.as_str()),
        [name, path] => (name.as_str(), path.as_str()),
        _ => {
            eprintln!(rt;
                "usage: toml_get [--json | --toml] [FILE] PATH; toml_get --help says more"
            )?;
            return Ok(FAILED);
        }
    };
    let stderr = rt.stderr();
    Ok(run(
        rt.alloc(),
        format,
        &Disk(rt),
        name,
        path,
        &mut io::writer(rt),
        &mut io::writer(&stderr),
    ))
}
