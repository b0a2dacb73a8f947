//! The bytes of a file to the same data written anew, or to what is wrong with them.
ghost use Rattle.std.specs.Prelude.{IfSome};
ghost use Rattle.toml_streams.specs.Streams as streams;
ghost use Rattle.toml_tidy.specs.Run.{Ends};

use crate::answer::answer;
use std::alloc::Global;
use std::io::Write;
use toml_answer::Form;
use toml_streams::{Source, display_name, tell_failure, write_all};

/// Reads all bytes of the file of a name, writes what is due for them in this form to `output` and nothing else, and
/// answers the status. What fails is said on `errors`.
///
/// A write that is interrupted counts as failed, and so does one that takes no byte.
#[tactic(auto, using(crate::proofs::RunEnds::run_ends))]
pub fn run<S: Source, W: Write, E: Write>(
    alloc: Global,
    form: Form,
    source: &S,
    name: &str,
    output: &mut W,
    errors: &mut E,
) -> u8
    ensures { IfSome (S.bytes source.now name.now) (λ input. Ends form (streams.display_name name.now) input
        (W.contents output.old) (W.contents output.new) (E.contents errors.old) (E.contents errors.new) result) }
{
    let label = display_name(name);
    let input = match source.read(name) {
        Ok(input) => input,
        Err(error) => return tell_failure(alloc, errors, label, error),
    };
    let Ok((status, text)) = answer(alloc, form, input.as_slice()) else {
        return tell_failure(alloc, errors, label, "out of memory");
    };
    match write_all(output, text.as_bytes()) {
        Ok(()) => status,
        Err(error) => tell_failure(alloc, errors, "stdout", error),
    }
}
