//! What is written for the bytes of a text.
ghost use Rattle.std.specs.Prelude.{IfOk, string_bytes};
ghost use Rattle.toml_tidy.specs.Run.{IsDue};

use std::alloc::{AllocError, Global};
use toml_answer::{Answer, Form, TIDIED, answer_to};

/// The status and the text due: an error's has a line feed behind it.
#[tactic(auto, using(crate::proofs::RunEnds::tidied_text, crate::proofs::RunEnds::error_text))]
pub fn answer(alloc: Global, form: Form, input: &[u8]) -> Result<(u8, String), AllocError>
    ensures { IfOk result (λ due. IsDue form input.now due.0 (string_bytes due.1)) }
{
    let Answer { status, text, .. } = answer_to(alloc, form, input)?;
    let mut text = text;
    if status != TIDIED {
        text.push('\n')?;
    }
    Ok((status, text))
}
