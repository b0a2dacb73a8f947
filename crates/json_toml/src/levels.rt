//! How deep the tokens of JSON nest.
ghost use Rattle.std.specs.Prelude.{◌≡◌, IfOk};
ghost use Rattle.json_toml.specs.Levels.{nests_deeper};

use json::{MAX_DEPTH, Reader, Scratch, Token};
use std::alloc::{AllocError, Global};

/// Whether the tokens of a text, up to one that is bad, nest deeper than arrays and objects may.
///
/// # Errors
///
/// Want of memory alone.
pub fn is_deeper(alloc: Global, text: &str) -> Result<bool, AllocError>
    ensures { IfOk result (λ deeper. deeper ≡ nests_deeper text.now) }
{
    let mut scratch = Scratch::new(alloc);
    let mut reader = Reader::new(text, &mut scratch)?;
    let mut left = MAX_DEPTH;
    while let Some(token) = reader.next() {
        match token {
            Token::BeginObject | Token::BeginArray => {
                if left == 0 {
                    return Ok(true);
                }
                left -= 1;
            }
            Token::EndObject | Token::EndArray => left = (left + 1).min(MAX_DEPTH),
            Token::Key(_)
            | Token::String(_)
            | Token::Number(_)
            | Token::Bool(_)
            | Token::Null
            | Token::Bad => {}
        }
    }
    Ok(false)
}
