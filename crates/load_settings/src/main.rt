//! Loads settings from standard input, saves them and loads them again, and prints them. What is wrong goes to standard
//! error, as `stdin:LINE:COLUMN: message` where it has a place, and then the status is 1.
#![tactic(auto)]

mod report;
mod settings;

use basic_toml::Error;
use report::report;
use settings::{Settings, load, save_and_load};
use std::alloc::Global;
use std::io;
use std::process::ExitCode;

fn main(rt: HostRuntime) -> io::Result<ExitCode> {
    let text = match io::read_to_string(rt.alloc(), rt.reader()) {
        Ok(text) => text,
        Err(e) => {
            eprintln!(rt; "stdin: {e}")?;
            return Ok(ExitCode::FAILURE);
        }
    };
    match loaded_again(rt.alloc(), text.as_str()) {
        Ok(s) => println!(rt; "{}:{} verbose={}", s.host, s.port, s.verbose)?,
        Err(e) => return report(&rt, text.as_str(), &e),
    }
    Ok(ExitCode::SUCCESS)
}

// The settings of a text, once they were saved and loaded again.
fn loaded_again(alloc: Global, text: &str) -> Result<Settings, Error> {
    save_and_load(alloc, &load(alloc, text)?)
}
