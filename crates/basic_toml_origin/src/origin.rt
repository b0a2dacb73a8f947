//! Where something is written.

/// Where what stands in a document is written: the byte offset where it begins, and that of the last key which leads to
/// it.
#[derive(Clone, Copy, Debug, PartialEq, Eq)]
pub struct Origin {
    /// That of its header's first bracket, of its value, or of the key that a period follows.
    pub at: usize,
    /// That of the last key which leads to it, and none for the element of an array and for the whole document.
    pub key: Option<usize>,
}
