//! What is said of a stream that fails.
ghost use Rattle.std.specs.Prelude.{◌≡◌, ℕ, List, IfOk, string_bytes};
ghost use Rattle.toml_streams.specs.Streams as spec;

use crate::write_all;
use std::alloc::{AllocError, Global};
use std::fmt::Display;
use std::io::Write;

/// The status of a program where reading, writing or memory failed, or a word of its command line is none of its own.
pub const FAILED: u8 = 3;

/// The line that says which stream failed, by its name in messages, and why.
pub fn failure_line<D: Display + Drop>(
    alloc: Global,
    name: &str,
    reason: D,
) -> Result<String, AllocError>
    ensures { IfOk result (λ line. (why : List ℕ) × (string_bytes line ≡ spec.failure_line name.now why)) }
{
    let reason = format!(in alloc; "{reason}")?;
    format!(in alloc; "{name}: {reason}\n")
}

/// Says on `errors` which stream failed, and why, as far as that can be written; answers [`FAILED`].
pub fn tell_failure<E: Write, D: Display + Drop>(
    alloc: Global,
    errors: &mut E,
    name: &str,
    reason: D,
) -> u8
    ensures status { result ≡ 3 }
    ensures told { spec.TellsFailure name.now (E.contents errors.old) (E.contents errors.new) }
{
    if let Ok(line) = failure_line(alloc, name, reason) {
        let _ = write_all(errors, line.as_bytes());
    }
    FAILED
}
