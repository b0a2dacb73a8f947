//! The keys of fields and variants.

use crate::case::Case;
use crate::lexer::Token;
use crate::refusal::{NoImpls, Reason};
use std::alloc::Global;

/// The key of a field or a variant: the one that is said to be its own, else its name in the case of its type.
pub fn key_of<'t>(
    alloc: Global,
    name: Token<'t>,
    said: Option<&str>,
    case: Option<Case>,
    is_variant: bool,
) -> Result<String, NoImpls<'t>> {
    if !name.text.is_ascii() {
        return Err(NoImpls::At(name.at, Reason::Key));
    }
    let key = match (said, case) {
        (Some(key), _) => String::from_str(alloc, key),
        (None, Some(case)) if is_variant => case.of_variant(alloc, name.text),
        (None, Some(case)) => case.of_field(alloc, name.text),
        (None, None) => String::from_str(alloc, name.text),
    };
    Ok(key?)
}
