//! Each file in turn: what is wrong with it, and the status.
ghost use Rattle.std.specs.Prelude.{◌≡◌, ◌⊎◌, max, map, IfOk, string_bytes};
ghost use Rattle.toml_findings.specs.Findings.{finding_of};
ghost use Rattle.toml_check.specs.Run as spec;

use std::alloc::{AllocError, Global};
use std::fmt::Display;
use std::io::Write;
use toml_findings::{Finding, check};
use toml_streams::{FAILED, Source, display_name, failure_line, write_all};

/// The status where each text is TOML.
pub const ALL_TOML: u8 = 0;

/// The status where a text is refused.
pub const REFUSED: u8 = 1;

// What is said of a file, and its status: nothing where it is TOML.
#[derive(Drop)]
struct Verdict {
    status: u8,
    text: String,
}

/// Checks each file, one at a time, and writes what is wrong with it; answers the highest status.
///
/// A file that cannot be read is named, with the reason, and the others are still checked. Where `is_quiet`, nothing is
/// written of a text that is refused. The first failure of the writer ends it, and so does want of memory for what is to
/// be written.
#[tactic(auto, using(crate::proofs::FilesInTurn::in_turn))]
pub fn check_all<S: Source, W: Write>(
    alloc: Global,
    source: &S,
    names: &[String],
    is_quiet: bool,
    writer: &mut W,
) -> u8
    ensures { spec.ChecksAll is_quiet (S.bytes source.now) (map string_bytes names.now)
        (W.contents writer.old) (W.contents writer.new) result }
{
    let mut status = ALL_TOML;
    for name in names {
        let Ok(verdict) = verdict_on(alloc, source, name.as_str(), is_quiet) else {
            return higher(status, FAILED);
        };
        match write_all(writer, verdict.text.as_bytes()) {
            Ok(()) => status = higher(status, verdict.status),
            Err(_) => return higher(status, FAILED),
        }
    }
    status
}

fn higher(status: u8, other: u8) -> u8
    ensures { result ≡ max status other }
{
    if status < other { other } else { status }
}

#[tactic(auto, using(crate::proofs::FilesInTurn::said))]
fn verdict_on<S: Source>(
    alloc: Global,
    source: &S,
    name: &str,
    is_quiet: bool,
) -> Result<Verdict, AllocError>
    ensures { IfOk result (λ v. spec.IsSaid is_quiet name.now (S.bytes source.now name.now) v.status (string_bytes v.text)) }
{
    match source.read(name) {
        Ok(bytes) => verdict_on_bytes(alloc, name, bytes.as_slice(), is_quiet),
        Err(error) => unread(alloc, name, error),
    }
}

#[tactic(auto, using(crate::proofs::VerdictsAreSaid::said_of_bytes))]
fn verdict_on_bytes(
    alloc: Global,
    name: &str,
    bytes: &[u8],
    is_quiet: bool,
) -> Result<Verdict, AllocError>
    ensures { IfOk result (λ v. spec.IsUnread name.now v.status (string_bytes v.text)
        ⊎ spec.IsVerdict is_quiet name.now bytes.now v.status (string_bytes v.text)) }
{
    match check(alloc, bytes) {
        Ok(None) => Ok(Verdict {
            status: ALL_TOML,
            text: String::new(alloc),
        }),
        Ok(Some(finding)) => refused(alloc, name, &finding, is_quiet),
        Err(_) => unread(alloc, name, "out of memory"),
    }
}

// A file whose text is refused.
fn refused(
    alloc: Global,
    name: &str,
    finding: &Finding,
    is_quiet: bool,
) -> Result<Verdict, AllocError>
    ensures status { IfOk result (λ v. v.status ≡ 1) }
    ensures text { IfOk result (λ v. string_bytes v.text ≡ spec.refusal_text is_quiet name.now (finding_of finding.now)) }
{
    let text = if is_quiet {
        String::new(alloc)
    } else {
        let name = display_name(name);
        format!(in alloc; "{name}:{finding}")?
    };
    Ok(Verdict {
        status: REFUSED,
        text,
    })
}

// A file that could not be read.
#[tactic(auto, using(crate::proofs::VerdictsAreSaid::unread_line))]
fn unread<D: Display + Drop>(alloc: Global, name: &str, reason: D) -> Result<Verdict, AllocError>
    ensures { IfOk result (λ v. spec.IsUnread name.now v.status (string_bytes v.text)) }
{
    Ok(Verdict {
        status: FAILED,
        text: failure_line(alloc, display_name(name), reason)?,
    })
}
