//! How scalars stand in JSON.

/// How scalars stand in JSON.
#[derive(Clone, Copy, Debug)]
pub enum Form {
    /// As JSON has them. A float stands as it is held; `inf` and `nan`, with a minus or without, as strings.
    Plain,
    /// As the toml-test suite has them: `{"type":"integer","value":"80"}`, the type being `integer`, `float`, `bool` or
    /// `string`.
    Tagged,
}
