//! What a call gives to its caller: an answer, and text in memory of the caller's.
ghost use Rattle.std.specs.Prelude.{◌≡◌};
ghost use Rattle.toml_c.specs.Answers.{with_front, answered};

/// The status of a call that was done.
pub const DONE: u32 = 0;

/// The status of a text that was refused.
pub const REFUSED: u32 = 1;

/// The status of a call that was refused memory.
pub const OUT_OF_MEMORY: u32 = 3;

/// What came of a text.
#[repr(C)]
#[derive(Clone, Copy, Debug)]
pub struct TomlAnswer {
    /// 0 where the text was read and written, 1 where it was refused, 2 where its table cannot be written in its order,
    /// and 3 where memory was refused.
    pub status: u32,
    /// Whether it is an error that stands at a line and a column.
    pub has_place: bool,
    /// The line, from 0; else 0.
    pub line: usize,
    /// The column, from 0 and in bytes; else 0.
    pub column: usize,
    /// How many bytes the text or the message has, whether or not there was room for them.
    pub length: usize,
}

/// Puts as much of a text at the front as there is room for.
pub fn put(memory: &mut [u8], text: &[u8])
    ensures { memory.new ≡ with_front memory.old text.now }
{
    let n = memory.len().min(text.len());
    memory[..n].copy_from_slice(&text[..n]);
}

/// An answer of this status, with the length of a text and the place of an error.
pub fn answered(status: u32, length: usize, line_col: Option<(usize, usize)>) -> TomlAnswer
    ensures { result ≡ answered status length line_col }
{
    let (line, column) = line_col.unwrap_or((0, 0));
    TomlAnswer {
        status,
        has_place: line_col.is_some(),
        line,
        column,
        length,
    }
}
