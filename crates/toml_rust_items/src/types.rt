//! The types of fields.

use crate::cursor::Cursor;
use crate::lexer::Kind;
use crate::refusal::{NoImpls, Reason};
use std::alloc::Global;

/// The type of a field.
#[derive(Drop)]
pub struct FieldType {
    /// Whether it is an option.
    pub is_option: bool,
    /// The type, on one line; of an option, what that holds.
    pub name: String,
}

/// The type that stands there.
pub fn field_type<'t>(alloc: Global, tokens: Cursor<'_, 't>) -> Result<FieldType, NoImpls<'t>> {
    if tokens.is_empty() {
        return Err(NoImpls::At(tokens.at(), Reason::Expected("a type")));
    }
    let (is_option, path) = match held(tokens) {
        Some(inside) => (true, inside),
        None => (false, tokens),
    };
    if is_option && held(path).is_some() {
        return Err(NoImpls::At(path.at(), Reason::NestedOption));
    }
    Ok(FieldType {
        is_option,
        name: path_text(alloc, path)?,
    })
}

// What an option holds; `None` of any other type.
fn held<'c, 't>(mut tokens: Cursor<'c, 't>) -> Option<Cursor<'c, 't>> {
    let mut last = "";
    for _ in 0..tokens.len() {
        let token = tokens.next()?;
        if token.text == "<" {
            break;
        }
        if token.text != ":" {
            last = token.text;
        }
    }
    let (bracket, inside) = tokens.rest.split_last()?;
    (last == "Option").then_some(Cursor {
        rest: inside,
        end: bracket.at,
    })
}

// The text of a path, with what it has in angle brackets.
fn path_text<'t>(alloc: Global, mut tokens: Cursor<'_, 't>) -> Result<String, NoImpls<'t>> {
    let mut text = String::new(alloc);
    let mut is_name = false;
    for _ in 0..tokens.len() {
        let Some(token) = tokens.next() else {
            break;
        };
        let was_name = is_name;
        is_name = token.kind == Kind::Word;
        match token.text {
            "<" | ">" | ":" => text.push_str(token.text)?,
            "," if tokens.sees(">") || tokens.is_empty() => {}
            "," => text.push_str(", ")?,
            name if is_name && !was_name => text.push_str(name)?,
            _ => return Err(NoImpls::At(token.at, Reason::FieldType)),
        }
    }
    Ok(text)
}
