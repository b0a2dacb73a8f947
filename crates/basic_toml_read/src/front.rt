//! What stands at an offset of a text: blanks, comments, line ends, words.
ghost use Rattle.std.specs.Prelude.{◌≡◌, ◌≤◌, true, drop};
ghost use Rattle.std.specs.List.{prefix_len};
ghost use Rattle.std.specs.Str.{IsCharBoundary};
ghost use Rattle.basic_toml_tokens.specs.Text.{text_at, after_run, is_comment, after_blanks};
ghost use Rattle.basic_toml_grammar.specs.Grammar.{is_wordlike, after_comment_by, after_gap};
ghost use Rattle.basic_toml_read.specs.AtPlace.{Leaves, EndsAt, BeginsString, IsJoint};

use basic_toml_tokens::{Class, after_feed, after_punctuation, end_of_run};

/// Where the blanks at an offset end.
#[inline]
pub(crate) fn after_blanks(text: &str, at: usize) -> usize
    requires { IsCharBoundary text.now at }
    ensures { Leaves text.now at result (after_blanks (text_at text.now at)) }
{
    end_of_run(text, at, Class::Blank)
}

/// Where the comment at an offset ends, or the offset itself where none stands.
#[inline]
pub(crate) fn after_comment(text: &str, at: usize) -> usize
    requires { IsCharBoundary text.now at }
    ensures { Leaves text.now at result (after_comment_by is_comment (text_at text.now at)) }
{
    match after_punctuation(text, at, b'#') {
        Some(body) => end_of_run(text, body, Class::Comment),
        None => at,
    }
}

/// Where the blanks and the comment at an offset end.
#[inline]
pub(crate) fn end_of_line(text: &str, at: usize) -> usize
    requires { IsCharBoundary text.now at }
    ensures { Leaves text.now at result (after_comment_by is_comment (after_blanks (text_at text.now at))) }
{
    after_comment(text, after_blanks(text, at))
}

/// Where the next line begins, or the end of the text; `None` where neither a line feed nor the end
/// stands at the offset.
#[inline]
pub(crate) fn after_line(text: &str, at: usize) -> Option<usize>
    requires { IsCharBoundary text.now at }
    ensures { EndsAt text.now at result }
{
    if at == text.len() {
        return Some(at);
    }
    after_feed(text, at)
}

/// Where the blanks, line feeds and comments at an offset end.
#[inline(always)]
pub(crate) fn after_gap(text: &str, at: usize) -> usize
    requires { IsCharBoundary text.now at }
    ensures { Leaves text.now at result (after_gap is_comment (text_at text.now at)) }
{
    let mut end = after_blanks(text, at);
    while let Some(next) = after_feed(text, end) {
        end = after_blanks(text, next);
    }
    match after_punctuation(text, end, b'#') {
        Some(_) => after_comments(text, end),
        None => end,
    }
}

// The same, where a comment stands. It is seldom called, and what calls it stays small without it.
#[inline(never)]
fn after_comments(text: &str, at: usize) -> usize
    requires { IsCharBoundary text.now at }
    ensures { Leaves text.now at result (after_gap is_comment (text_at text.now at)) }
{
    let mut end = end_of_line(text, at);
    while let Some(next) = after_feed(text, end) {
        end = end_of_line(text, next);
    }
    end
}

// Where the period or the plus at an offset ends, if one stands there.
#[inline]
fn after_joint(text: &str, at: usize) -> Option<usize>
    requires { IsCharBoundary text.now at }
    ensures { IsJoint text.now at result }
{
    match after_punctuation(text, at, b'.') {
        Some(next) => Some(next),
        None => after_punctuation(text, at, b'+'),
    }
}

/// Where the keylike characters, periods and pluses at an offset end. They are known to go on to `from`: where digits
/// stand before it, a period or a plus is looked for there first.
pub(crate) fn end_of_word(text: &str, at: usize, from: usize) -> usize
    requires boundary { IsCharBoundary text.now from }
    requires forward { at ≤ from }
    requires same_rest { after_run is_wordlike (text_at text.now from) ≡ after_run is_wordlike (text_at text.now at) }
    ensures { Leaves text.now at result (after_run is_wordlike (text_at text.now at)) }
{
    let start = if at < from {
        after_joint(text, from).unwrap_or(from)
    } else {
        from
    };
    let mut end = end_of_run(text, start, Class::Keylike);
    while let Some(next) = after_joint(text, end) {
        end = end_of_run(text, next, Class::Keylike);
    }
    end
}

/// Whether a word that goes on to an offset is seen to end there, as nearly all do: before a line end, a blank, a
/// comma, a bracket, a brace or a comment.
#[inline(always)]
pub(crate) fn ends_word(text: &str, at: usize) -> bool
    ensures { result ≡ true → prefix_len is_wordlike (drop at text.now) ≡ 0 }
{
    match text.as_bytes().get(at) {
        Some(b'\n' | b'\r' | b',' | b' ' | b'\t' | b']' | b'}' | b'#') | None => true,
        Some(_) => false,
    }
}

/// Whether a string begins at an offset.
#[inline]
pub(crate) fn begins_string(text: &str, at: usize) -> bool
    requires { IsCharBoundary text.now at }
    ensures { BeginsString text.now at result }
{
    match after_punctuation(text, at, b'"') {
        Some(_) => true,
        None => after_punctuation(text, at, b'\'').is_some(),
    }
}
