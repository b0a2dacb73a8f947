//! Why no token stands at an offset, or not the one that is wanted.

/// Why a call of a `Tokenizer` was refused. Offsets count the bytes of the text, from 0.
#[derive(Debug, Drop, PartialEq, Eq)]
pub enum Error {
    /// A control character in a string, below U+0020 or U+007F, and its offset.
    InvalidCharInString(usize, char),
    /// A character after a backslash that begins no escape, and its offset.
    InvalidEscape(usize, char),
    /// A character of `\u` or `\U` that is no hexadecimal digit, and its offset.
    InvalidHexEscape(usize, char),
    /// The number of `\u` or `\U` that is no character, and the offset of the letter.
    InvalidEscapeValue(usize, u32),
    /// The offset of a line feed in a one-line string.
    NewlineInString(usize),
    /// A character that begins no token, and its offset.
    Unexpected(usize, char),
    /// The offset of a string that the text ends in.
    UnterminatedString(usize),
    /// The offset of a line feed in a key. No call answers it, since no one-line string holds one.
    NewlineInTableKey(usize),
    /// The offset of a multiline string where a key is wanted.
    MultilineStringKey(usize),
    /// Another token, or the end of the text.
    Wanted {
        /// The offset of what was found.
        at: usize,
        /// What was wanted.
        expected: &'static str,
        /// What was found, `eof` for the end of the text.
        found: &'static str,
    },
    /// The copy of a string's value found no memory.
    OutOfMemory,
}
