//! Reports each key of standard input that stands twice in its section or has a part of more than 32 bytes, as
//! `stdin:LINE:COLUMN: message`, and ends with status 1 where there is one. What keeps the text from being read goes to
//! standard error, as `stdin:LINE:COLUMN: message` where it has a place, and then the status is 1 too.
#![tactic(auto)]

mod keys;
mod report;
mod rows;

use basic_toml::Error;
use basic_toml_explain::ReadError;
use keys::{Trouble, check};
use report::report;
use std::io;
use std::process::ExitCode;

fn main(rt: HostRuntime) -> io::Result<ExitCode> {
    let alloc = rt.alloc();
    let text = match io::read_to_string(alloc, rt.reader()) {
        Ok(text) => text,
        Err(e) => {
            eprintln!(rt; "stdin: {e}")?;
            return Ok(ExitCode::FAILURE);
        }
    };
    let findings = match check(alloc, text.as_str()) {
        Ok(findings) => findings,
        Err(e) => {
            let error = Error::in_text(alloc, text.as_str(), &ReadError::from(e));
            return report(&rt, error);
        }
    };
    for finding in &findings {
        println!(rt;
            "stdin:{}:{}: {}",
            finding.line,
            finding.column,
            message(finding.trouble)
        )?;
    }
    if findings.is_empty() {
        Ok(ExitCode::SUCCESS)
    } else {
        Ok(ExitCode::FAILURE)
    }
}

fn message(trouble: Trouble) -> &'static str {
    match trouble {
        Trouble::Duplicate => "this key stands in its section already",
        Trouble::TooLong => "this key is longer than 32 bytes",
    }
}
