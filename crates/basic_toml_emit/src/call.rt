//! What a call records.
use basic_toml_layout::Scalar;

/// What a call records as one item. A call that is given a part records a prefix before it.
#[derive(Clone, Copy)]
pub enum Call<'a> {
    /// A value without parts of its own; at a key, its text.
    Scalar(Scalar<'a>),
    /// An absent option.
    Absent,
    /// Opens an array.
    OpenArray,
    /// Opens a table.
    OpenTable,
    /// Closes the innermost array or table.
    Close,
    /// The text of a key follows.
    Key,
    /// Sets a key.
    Field(&'a str),
    /// An option that is there follows.
    SomePrefix,
    /// The value of the entry whose key is set follows.
    ValuePrefix,
    /// An element of the innermost array follows.
    ElementPrefix,
}
