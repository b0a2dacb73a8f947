//! How a value is printed.

/// How a value is printed.
#[derive(Clone, Copy, Debug)]
pub enum Format {
    /// A string without its quotes, anything else as it stands in a row.
    Plain,
    /// As JSON, on one line.
    Json,
    /// As a document, where it is a table.
    Toml,
}
