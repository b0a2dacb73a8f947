//! Templates: texts in which words between dollar signs stand for parts.

use std::alloc::{AllocError, Global};

/// Puts a template behind a text, with the parts in place of their words: those that a type has, and those that are made
/// for it.
pub fn push_filled(
    text: &mut String,
    template: &str,
    own: &[(&str, &str)],
    made: &[(&str, String)],
) -> Result<(), AllocError> {
    for piece in template.split('$') {
        text.push_str(part_of(piece, &*own, &*made).unwrap_or(piece))?;
    }
    Ok(())
}

// The part that a word of a template stands for; `None` where it is no such word.
fn part_of<'p>(
    piece: &str,
    own: &'p [(&str, &str)],
    made: &'p [(&str, String)],
) -> Option<&'p str> {
    if let Some((_, part)) = own.iter().find(|(word, _)| *word == piece) {
        return Some(part);
    }
    let (_, part) = made.iter().find(|(word, _)| *word == piece)?;
    Some(part.as_str())
}

/// A template with the parts in place of their words.
pub fn filled(
    alloc: Global,
    template: &str,
    own: &[(&str, &str)],
    made: &[(&str, String)],
) -> Result<String, AllocError> {
    let mut text = String::new(alloc);
    push_filled(&mut text, template, own, made)?;
    Ok(text)
}
