//! Runs the case files that standard input lists, a name a line: prints a line for each failure, and at the end how
//! many passed and failed.
#![tactic(auto)]

mod cases;
mod dice;
mod properties;
mod random;
mod report;
mod sentences;

use cases::Seen;
use report::Report;
use std::collections::BTreeMap;
use std::{fs, io};

fn main(rt: HostRuntime) -> io::Result<()> {
    let alloc = rt.alloc();
    let names = io::read_to_string(alloc, rt.reader())?;
    let mut seen: Seen = BTreeMap::new(alloc);
    let mut passed = 0usize;
    let mut failed = 0usize;
    for name in names.as_str().lines() {
        let mut report = Report::new(alloc);
        let contents = fs::read_to_string(&rt, name)?;
        cases::run(alloc, &mut seen, &mut report, name, contents.as_str())?;
        print!(rt; "{}", report.lines.as_str())?;
        passed = passed.saturating_add(report.passed);
        failed = failed.saturating_add(report.failed);
    }
    println!(rt; "{passed} passed, {failed} failed")
}
