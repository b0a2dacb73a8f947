//! To the end of a line.
ghost use Rattle.std.specs.Prelude.{◌≡◌};
ghost use Rattle.std.specs.Str.{IsCharBoundary};
ghost use Rattle.basic_toml_tokens.specs.Text.{text_at};
ghost use Rattle.basic_toml_tokens.specs.Line.{IsLineEnd, IsCommentEnd};

use crate::Error;
use crate::class::{Class, end_of_run};
use crate::step::step;
use crate::string::TokenStop;

/// Where the text goes on after the next line feed.
pub(crate) fn after_line(text: &str, at: usize) -> usize
    requires { IsCharBoundary text.now at }
    ensures { IsLineEnd text.now at result }
{
    let mut end = end_of_run(text, at, Class::Comment);
    while let Some((c, next)) = step(text, end) {
        if c == '\n' {
            return next;
        }
        end = end_of_run(text, next, Class::Comment);
    }
    end
}

/// Where the text goes on after a comment and its line feed, or `None` where no comment stands.
pub(crate) fn after_comment(text: &str, at: usize) -> Result<Option<usize>, TokenStop>
    requires { IsCharBoundary text.now at }
    ensures { IsCommentEnd text.now at result }
{
    let Some(('#', body)) = step(text, at) else {
        return Ok(None);
    };
    let end = end_of_run(text, body, Class::Comment);
    match step(text, end) {
        Some(('\n', next)) => Ok(Some(next)),
        Some((c, next)) => Err(TokenStop {
            error: Error::Unexpected(end, c),
            at: next,
        }),
        None => Ok(Some(end)),
    }
}
