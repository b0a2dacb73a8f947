//! Changes of a text.

ghost use Rattle.std.specs.Prelude.{◌≡◌, drop, take};
ghost use Rattle.std.specs.Str.{IsCharBoundary};

use std::alloc::{AllocError, Global};

/// A change: what stands between two offsets is replaced.
#[derive(Drop)]
pub struct Edit {
    pub from: usize,
    pub to: usize,
    pub text: String,
}

/// The text with these changes, none of which meets another. What is put in at a place comes before what is replaced
/// there.
pub fn edited(alloc: Global, text: &str, mut edits: Vec<Edit>) -> Result<String, AllocError> {
    edits.sort_by_key(|edit| (edit.from, edit.to))?;
    let mut edited = String::new(alloc);
    let mut at = 0;
    for edit in &edits {
        edited.push_str(between(text, at, edit.from))?;
        edited.push_str(edit.text.as_str())?;
        at = edit.to;
    }
    edited.push_str(between(text, at, text.len()))?;
    Ok(edited)
}

/// What stands between two offsets; nothing where they are no places of the text.
pub fn between(text: &str, from: usize, to: usize) -> &str
    ensures { IsCharBoundary text.now to → IsCharBoundary (take to text.now) from → result.now ≡ drop from (take to text.now) }
{
    let Some((front, _)) = text.split_at_checked(to) else {
        return "";
    };
    match front.split_at_checked(from) {
        Some((_, part)) => part,
        None => "",
    }
}

/// The offsets between which to cut what stands between two others: with its line where it is alone on that, else with
/// the blanks behind it.
pub fn with_line(text: &str, from: usize, to: usize) -> (usize, usize) {
    let before = between(text, 0, from).trim_end_matches(is_blank);
    let behind = between(text, to, text.len()).trim_start_matches(is_blank);
    let blank_end = text.len().saturating_sub(behind.len());
    let begins = before.is_empty() || before.ends_with('\n');
    match behind.strip_prefix('\n') {
        Some(next) if begins => (before.len(), text.len().saturating_sub(next.len())),
        _ => (from, blank_end),
    }
}

fn is_blank(c: char) -> bool {
    matches!(c, ' ' | '\t' | '\r')
}
