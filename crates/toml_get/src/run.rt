//! What stands at a path of a file, printed; or why nothing is.
ghost use Rattle.toml_get.specs.Run as spec;
ghost use Rattle.toml_streams.specs.Streams as streams;

use crate::answer::{PRINTED, answer_from};
use crate::format::Format;
use std::alloc::Global;
use std::io::Write;
use toml_streams::{FAILED, Source, display_name, tell_failure, write_all};

/// Reads all bytes of the file of a name, and writes what stands at the path in them to `output`, or why nothing is
/// printed to `errors`; answers the status.
///
/// A malformed path is told before anything is read. A write that is interrupted counts as failed, and so does one
/// that takes no byte.
#[tactic(auto, using(crate::proofs::RunEnds::run_ends))]
pub fn run<S: Source, W: Write, E: Write>(
    alloc: Global,
    format: Format,
    source: &S,
    name: &str,
    path: &str,
    output: &mut W,
    errors: &mut E,
) -> u8
    ensures { spec.Ends format (streams.display_name name.now) path.now (S.bytes source.now name.now)
        (W.contents output.old) (W.contents output.new) (E.contents errors.old) (E.contents errors.new) result }
{
    let Ok(answer) = answer_from(alloc, format, source, name, path) else {
        return tell_failure(alloc, errors, display_name(name), "out of memory");
    };
    if answer.status != PRINTED {
        return match write_all(errors, answer.text.as_bytes()) {
            Ok(()) => answer.status,
            Err(_) => FAILED,
        };
    }
    match write_all(output, answer.text.as_bytes()) {
        Ok(()) => PRINTED,
        Err(error) => tell_failure(alloc, errors, "stdout", error),
    }
}
