//! One folded character.
ghost use Rattle.std.specs.Prelude.{◌≡◌, ◌++◌, [], drop, encode_utf8, MatchOption, slice_index};
ghost use Rattle.std.specs.Str.{IsCharBoundary};
ghost use Rattle.basic_toml_tokens.specs.Text.{text_at, start_of};
ghost use Rattle.basic_toml_tokens.specs.Reading.{IsStep};

/// The first byte, or 0.
fn first(text: &str) -> u8
    ensures { result ≡ slice_index text.now 0 }
{
    if text.is_empty() {
        0
    } else {
        text.as_bytes()[0]
    }
}

/// The character at an offset, and what follows it.
fn char_at(text: &str, at: usize) -> Option<(char, &str)>
    requires { IsCharBoundary text.now at }
    ensures { MatchOption result (text_at text.now at ≡ [])
        (λ r. drop at text.now ≡ encode_utf8 r.0 ++ r.1.now) }
{
    let mut chars = text[at..].chars();
    match chars.next() {
        Some(c) => Some((c, chars.as_str())),
        None => None,
    }
}

/// The byte offset where a text begins, after a U+FEFF: 0 or 3.
pub fn start(text: &str) -> usize
    ensures offset { result ≡ start_of text.now }
    ensures boundary { IsCharBoundary text.now result }
{
    match char_at(text, 0) {
        Some((c, _)) => { if c == '\u{feff}' { 3 } else { 0 } }
        None => 0,
    }
}

/// The folded character at an offset, and the offset after it.
pub(crate) fn step(text: &str, at: usize) -> Option<(char, usize)>
    requires { IsCharBoundary text.now at }
    ensures { MatchOption result (text_at text.now at ≡ []) (λ r. IsStep text.now at r.0 r.1) }
{
    match char_at(text, at) {
        Some((c, rest)) => {
            let next = at + c.len_utf8();
            if c != '\r' {
                Some((c, next))
            } else if first(rest) != b'\n' {
                Some((c, next))
            } else {
                Some(('\n', next + 1))
            }
        }
        None => None,
    }
}
