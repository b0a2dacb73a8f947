//! `toml_json [FILE]` reads a TOML text and writes its data as JSON, on one line or on several, to standard output.
//!
//! It ends with status 0; with 1 where the text is refused, and then says on standard error what is wrong with it, and
//! where, as `toml_check` does; and with 3 where reading, writing or memory failed, which standard error says, or an
//! argument is none of its own. `docs/JSON.md` has the rest.
#![tactic(auto)]

mod run;

use run::{Style, run};
use std::io;
use std::process::ExitCode;
use toml_json_text::{Form, Layout};
use toml_streams::{Call, Disk, FAILED, Options, Program, STANDARD_INPUT, call_of};

const PROGRAM: Program = Program {
    name: "toml_json",
    version: "0.1.0",
    help: "\
toml_json [--pretty] [--tagged] [FILE]

Reads TOML (v0.5.0, without dates and times) and writes its data as JSON, on one line, the keys in the order of the
text. Floats stand as they are held, inf and nan as strings. Without FILE, or where it is -, it reads standard input.

      --pretty   write each element and each key on a line of its own, two blanks a level
      --tagged   write scalars with their types, as the toml-test suite has them
  -h, --help     print this
      --version  print the version
      --         what follows is a file

Status: 0, or 1 where the text is refused, 3 where reading, writing or memory failed.
",
    is_for_one_file: true,
};

impl Options for Style {
    fn take(&mut self, word: &str) -> bool {
        match word {
            "--pretty" => self.layout = Layout::Lines,
            "--tagged" => self.form = Form::Tagged,
            _ => return false,
        }
        true
    }
}

fn main(rt: HostRuntime) -> ExitCode {
    match status_of(&rt) {
        Ok(status) => ExitCode::from(status),
        Err(error) => {
            let _ = eprintln!(rt; "toml_json: {error}");
            ExitCode::from(FAILED)
        }
    }
}

fn status_of(rt: &HostRuntime) -> io::Result<u8> {
    let style = Style {
        form: Form::Plain,
        layout: Layout::Line,
    };
    match call_of(rt, &PROGRAM, style)? {
        Call::Run { options, names } => {
            let name = names.first().map_or(STANDARD_INPUT, String::as_str);
            let stderr = rt.stderr();
            Ok(run(
                rt.alloc(),
                options,
                &Disk(rt),
                name,
                &mut io::writer(rt),
                &mut io::writer(&stderr),
            ))
        }
        Call::Answered(status) => Ok(status),
    }
}
