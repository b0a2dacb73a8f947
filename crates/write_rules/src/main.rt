//! Writes a file of rules, a rule for each line of standard input: a number and a pattern. What is wrong goes to
//! standard error, as `stdin: message`, and then the status is 1.
#![tactic(auto)]

mod report;
mod rules;

use report::report;
use rules::{Rule, RuleFile, read_again, text_of};
use std::alloc::{AllocError, Global};
use std::io;
use std::process::ExitCode;

fn main(rt: HostRuntime) -> io::Result<ExitCode> {
    let alloc = rt.alloc();
    let mut rules = Vec::new(alloc);
    for line in rt.lines(alloc) {
        let line = match line {
            Ok(line) => line,
            Err(e) => {
                eprintln!(rt; "stdin: {e}")?;
                return Ok(ExitCode::FAILURE);
            }
        };
        if let Some(rule) = rule_of(alloc, line.as_str())? {
            rules.push(rule)?;
        }
    }
    let file = RuleFile {
        title: String::from_str(alloc, "limits")?,
        rules,
    };
    match text_of(alloc, &file) {
        Ok(text) => print!(rt; "{text}")?,
        Err(e) => return report(&rt, e),
    }
    match read_again(alloc, &file) {
        Ok(table) => println!(rt; "# read back: {} keys", table.len())?,
        Err(e) => return report(&rt, e),
    }
    Ok(ExitCode::SUCCESS)
}

// A rule from a line, if it has the form of one.
fn rule_of(alloc: Global, line: &str) -> Result<Option<Rule>, AllocError> {
    let Some((limit, pattern)) = line.split_once(' ') else {
        return Ok(None);
    };
    let Ok(limit) = limit.parse::<u32>() else {
        return Ok(None);
    };
    let pattern = String::from_str(alloc, pattern)?;
    Ok(Some(Rule { pattern, limit }))
}
