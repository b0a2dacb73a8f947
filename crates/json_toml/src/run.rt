//! Bytes of JSON to TOML, or to what is wrong with them.
ghost use Rattle.std.specs.Prelude.{IfSome};
ghost use Rattle.json_toml.specs.Run as spec;
ghost use Rattle.toml_streams.specs.Streams as streams;

use crate::answer::{WRITTEN, answer_to};
use std::alloc::Global;
use std::io::Write;
use toml_json_text::Form;
use toml_streams::{FAILED, Source, display_name, tell_failure, write_all};

/// Reads all bytes of the file of a name, and writes the TOML that they mean to `output`, or what is wrong with them to
/// `errors`; answers the status. What fails is said on `errors`.
///
/// A write that is interrupted counts as failed, and so does one that takes no byte.
#[tactic(auto, using(crate::proofs::RunEnds::run_ends))]
pub fn run<S: Source, W: Write, E: Write>(
    alloc: Global,
    form: Form,
    source: &S,
    name: &str,
    output: &mut W,
    errors: &mut E,
) -> u8
    ensures { IfSome (S.bytes source.now name.now) (λ input. spec.Ends form (streams.display_name name.now) input
        (W.contents output.old) (W.contents output.new) (E.contents errors.old) (E.contents errors.new) result) }
{
    let label = display_name(name);
    let input = match source.read(name) {
        Ok(input) => input,
        Err(error) => return tell_failure(alloc, errors, label, error),
    };
    let Ok(answer) = answer_to(alloc, form, label, input.as_slice()) else {
        return tell_failure(alloc, errors, label, "out of memory");
    };
    if answer.status != WRITTEN {
        let Ok(()) = write_all(errors, answer.text.as_bytes()) else {
            return FAILED;
        };
        return answer.status;
    }
    match write_all(output, answer.text.as_bytes()) {
        Ok(()) => WRITTEN,
        Err(error) => tell_failure(alloc, errors, "stdout", error),
    }
}
