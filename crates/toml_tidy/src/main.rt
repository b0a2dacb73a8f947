//! `toml_tidy [FILE]` reads a TOML text and writes it anew to standard output.
//!
//! With `--rows-first` the rows of each table come before its sections, so that every table can be written, and with
//! `--pretty` they do so too, laid out for people.
//!
//! It ends with status 0 where the text was read and written, and with 1 where it was refused. With neither option it
//! ends with 2 where the table cannot be written as it was read. With 1 and 2 it writes the error and a line feed. It
//! ends with 3 where reading, writing or memory failed, or an argument is none of its own, which standard error says.
//! Where reading or memory failed, it writes nothing to standard output. `docs/TIDY.md` has the rest.
#![tactic(auto)]

mod answer;
mod run;

use run::run;
use std::io;
use std::process::ExitCode;
use toml_answer::Form;
use toml_streams::{Call, Disk, FAILED, Options, Program, STANDARD_INPUT, call_of};

const PROGRAM: Program = Program {
    name: "toml_tidy",
    version: "0.1.0",
    help: "\
toml_tidy [--rows-first | --pretty] [FILE]

Reads TOML (v0.5.0, without dates and times) and writes the same data anew to standard output: rows as key = value,
sections with their headers, keys in their order. Comments and layout are not kept. Without FILE, or where it is -, it
reads standard input.

      --rows-first  in each table, write the rows before the sections, and what
                    no header can say as inline tables; so every table is written
      --pretty      the same for people: a blank line before each header but
                    one that begins the text, long arrays with a line for each
                    element, and strings of several lines on several
  -h, --help        print this
      --version     print the version
      --            what follows is a file

Status: 0; 1 where the text is refused and, with neither option, 2 where it cannot be written in its order, with what
is wrong, in one line, in place of the text, on standard output; 3 where reading, writing or memory failed.
",
    is_for_one_file: true,
};

/// How a text is written.
#[derive(Drop)]
struct Tidying {
    form: Form,
}

impl Options for Tidying {
    fn take(&mut self, word: &str) -> bool {
        match word {
            "--rows-first" => {
                if !matches!(self.form, Form::Pretty) {
                    self.form = Form::RowsFirst;
                }
            }
            "--pretty" => self.form = Form::Pretty,
            _ => return false,
        }
        true
    }
}

fn main(rt: HostRuntime) -> ExitCode {
    match status_of(&rt) {
        Ok(status) => ExitCode::from(status),
        Err(error) => {
            let _ = eprintln!(rt; "toml_tidy: {error}");
            ExitCode::from(FAILED)
        }
    }
}

fn status_of(rt: &HostRuntime) -> io::Result<u8> {
    let asked = Tidying { form: Form::AsRead };
    match call_of(rt, &PROGRAM, asked)? {
        Call::Run { options, names } => {
            let name = names.first().map_or(STANDARD_INPUT, String::as_str);
            let stderr = rt.stderr();
            Ok(run(
                rt.alloc(),
                options.form,
                &Disk(rt),
                name,
                &mut io::writer(rt),
                &mut io::writer(&stderr),
            ))
        }
        Call::Answered(status) => Ok(status),
    }
}
