//! Reads a `Cargo.toml` from standard input and prints its package, dependencies and features. What is wrong goes to
//! standard error, as `stdin:LINE:COLUMN: message` where it has a place, and then the status is 1.
#![tactic(auto)]

mod manifest;
mod report;

use manifest::{Dependency, Manifest, manifest_of};
use report::report;
use std::io;
use std::process::ExitCode;

fn main(rt: HostRuntime) -> io::Result<ExitCode> {
    let text = match io::read_to_string(rt.alloc(), rt.reader()) {
        Ok(text) => text,
        Err(e) => {
            eprintln!(rt; "stdin: {e}")?;
            return Ok(ExitCode::FAILURE);
        }
    };
    match manifest_of(rt.alloc(), text.as_str()) {
        Ok(manifest) => print(&rt, &manifest)?,
        Err(e) => return report(&rt, text.as_str(), &e),
    }
    Ok(ExitCode::SUCCESS)
}

fn print(rt: &HostRuntime, manifest: &Manifest) -> io::Result<()> {
    let package = &manifest.package;
    println!(rt; "package {} {}", package.name, package.version)?;
    if let Some(dependencies) = &manifest.dependencies {
        for (name, dependency) in dependencies {
            print_dependency(rt, name.as_str(), dependency)?;
        }
    }
    if let Some(features) = &manifest.features {
        for (name, parts) in features {
            println!(rt; "feature {name} ({})", parts.len())?;
        }
    }
    Ok(())
}

fn print_dependency(rt: &HostRuntime, name: &str, dependency: &Dependency) -> io::Result<()> {
    match dependency {
        Dependency::Version(version) => println!(rt; "needs {name} {version}"),
        Dependency::Detailed(detail) => match &detail.version {
            Some(version) => println!(rt; "needs {name} {version} optional={}", detail.optional),
            None => println!(rt; "needs {name} optional={}", detail.optional),
        },
    }
}
