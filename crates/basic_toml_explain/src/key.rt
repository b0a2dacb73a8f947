//! A key, as a cursor takes it from a text.

use std::borrow::CowStr;

/// A key, and the offset where it begins.
#[derive(Drop)]
pub(crate) struct Key<'a> {
    pub offset: usize,
    pub text: CowStr<'a>,
}
