//! What a node keeps of the keys that lead to it.

/// Which keys lead to a node: the first of a header, or those of a header and then the first key of a row.
#[derive(Clone, Copy)]
pub(crate) enum Trail<'t> {
    Header(usize),
    Row(usize, &'t str),
}
