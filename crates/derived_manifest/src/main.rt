//! Reads each file that an argument names, a `Cargo.toml`, a `pyproject.toml` or a `settings.toml`, and writes what it
//! knows of it again, the rows of each table first. What is wrong goes to standard error, as
//! `FILE:LINE:COLUMN: message` where it has a place, and then the status is 1.
#![tactic(auto)]

mod manifest;
mod project;
mod report;
mod settings;

use basic_toml_serde::{Error, from_str, to_string_rows_first};
use manifest::Manifest;
use project::Project;
use report::report;
use serde::{Deserialize, Serialize};
use settings::Settings;
use std::alloc::Global;
use std::process::ExitCode;
use std::{env, fs, io};

fn main(rt: HostRuntime) -> io::Result<ExitCode> {
    for name in env::args(&rt)?.skip(1) {
        let text = match fs::read_to_string(&rt, &name) {
            Ok(text) => text,
            Err(e) => {
                eprintln!(rt; "{name}: {e}")?;
                return Ok(ExitCode::FAILURE);
            }
        };
        match rewrite_by_name(rt.alloc(), name.as_str(), text.as_str()) {
            Ok(text) => print!(rt; "{text}")?,
            Err(e) => return report(&rt, name.as_str(), text.as_str(), &e),
        }
    }
    Ok(ExitCode::SUCCESS)
}

/// What a file of this name says, written anew.
fn rewrite_by_name(alloc: Global, name: &str, text: &str) -> Result<String, Error> {
    match name {
        "pyproject.toml" => rewrite::<Project>(alloc, text),
        "settings.toml" => rewrite::<Settings>(alloc, text),
        _ => rewrite::<Manifest>(alloc, text),
    }
}

fn rewrite<'a, T: Deserialize<'a> + Serialize>(
    alloc: Global,
    text: &'a str,
) -> Result<String, Error> {
    let value: T = from_str(alloc, text)?;
    to_string_rows_first(alloc, &value)
}
