//! Characters of one byte.
ghost use Rattle.std.specs.Prelude.{◌≡◌, true};
ghost use Rattle.std.specs.Str.{IsCharBoundary};
ghost use Rattle.basic_toml_tokens.specs.Quote.{IsFeed};
ghost use Rattle.basic_toml_tokens.specs.Punctuation.{is_lone, IsPunctuationEnd};

/// The byte offset after a character, or `None` where it does not stand at the offset. The
/// character is below U+0080, and neither a carriage return nor a line feed.
#[inline]
pub fn after_punctuation(text: &str, at: usize, punctuation: u8) -> Option<usize>
    requires boundary { IsCharBoundary text.now at }
    requires lone { is_lone punctuation ≡ true }
    ensures { IsPunctuationEnd punctuation text.now at result }
{
    let bytes = text.as_bytes();
    if at == bytes.len() {
        return None;
    }
    if bytes[at] == punctuation {
        Some(at + 1)
    } else {
        None
    }
}

/// The byte offset after a line feed, or `None` where none stands at the offset. A carriage
/// return and a line feed are one.
#[inline]
pub fn after_feed(text: &str, at: usize) -> Option<usize>
    requires { IsCharBoundary text.now at }
    ensures { IsFeed text.now at result }
{
    let bytes = text.as_bytes();
    if at == bytes.len() {
        return None;
    }
    let byte = bytes[at];
    if byte == b'\n' {
        return Some(at + 1);
    }
    if byte != b'\r' {
        return None;
    }
    if at + 1 == bytes.len() {
        return None;
    }
    if bytes[at + 1] == b'\n' {
        Some(at + 2)
    } else {
        None
    }
}
