//! The tokens of a text.
use basic_toml::tokens::{Token, Tokenizer};
use std::alloc::{AllocError, Global};
use std::borrow::CowStr;

// More than the tokens of the texts that are shown.
const MANY: usize = 32;

fn shown_token(
    alloc: Global,
    start: usize,
    end: usize,
    token: &Token<'_>,
) -> Result<String, AllocError> {
    match token {
        Token::String { val, multiline, .. } => {
            let lines = if *multiline { "multiline" } else { "one line" };
            match val {
                CowStr::Borrowed(val) => {
                    format!(in alloc; "{start}..{end} {lines} borrowed {val:?}")
                }
                CowStr::Owned(val) => { format!(in alloc; "{start}..{end} {lines} owned {val:?}") }
            }
        }
        other => format!(in alloc; "{start}..{end} {other:?}"),
    }
}

/// Each token with its span, a string by its value and whether it is borrowed, and each error.
pub(crate) fn tokens_of(alloc: Global, text: &str) -> Result<String, AllocError> {
    let mut tokenizer = Tokenizer::new(text);
    let mut all = String::new(alloc);
    for _ in 0..MANY {
        let part = match tokenizer.next(alloc) {
            Ok(Some((span, token))) => shown_token(alloc, span.start, span.end, &token)?,
            Ok(None) => return Ok(all),
            Err(error) => format!(in alloc; "{error:?}")?,
        };
        if !all.is_empty() {
            all.push_str("; ")?;
        }
        all.push_str(part.as_str())?;
    }
    Ok(all)
}
