//! The types of a file, as they stand there.

use crate::cursor::Cursor;
use crate::items::{Attribute, Item, ItemKind, attribute_behind};
use crate::lexer::{Kind, Token};
use crate::refusal::{NoImpls, Reason};
use std::alloc::Global;

/// A field of a struct or a variant of an enum, as it stands there.
#[derive(Drop)]
pub struct Member<'c, 't> {
    pub attributes: Vec<Attribute<'c, 't>>,
    pub name: Token<'t>,
    /// The tokens of the type of a field; what stands behind the name of a variant.
    pub rest: Cursor<'c, 't>,
}

impl Member<'_, '_> {
    /// Whether a variant holds something.
    pub fn has_data(&self) -> bool {
        self.rest.sees("(") || self.rest.sees("{")
    }
}

/// The name of a type.
pub fn type_name<'t>(item: &Item<'_, 't>) -> Result<Token<'t>, NoImpls<'t>> {
    let mut tokens = item.tokens;
    tokens.take(Kind::Word, "a name")
}

/// The fields of a struct, or the variants of an enum.
pub fn members<'c, 't>(
    alloc: Global,
    item: &Item<'c, 't>,
) -> Result<Vec<Member<'c, 't>>, NoImpls<'t>> {
    let name = type_name(item)?;
    let mut members = Vec::new(alloc);
    for part in block(item)?.parts() {
        members.push(member_of(alloc, part, item.kind == ItemKind::Struct)?)?;
    }
    if members.is_empty() {
        return Err(NoImpls::At(name.at, Reason::Empty));
    }
    Ok(members)
}

// What stands between the braces of a type.
fn block<'c, 't>(item: &Item<'c, 't>) -> Result<Cursor<'c, 't>, NoImpls<'t>> {
    let mut tokens = item.tokens;
    let name = tokens.take(Kind::Word, "a name")?;
    let at = tokens.at();
    if tokens.takes("{") {
        return tokens.group();
    }
    Err(if tokens.sees("<") || tokens.sees("where") {
        NoImpls::At(at, Reason::Generic)
    } else if tokens.sees("(") {
        NoImpls::At(at, Reason::NotNamed)
    } else if tokens.sees(";") {
        NoImpls::At(name.at, Reason::Empty)
    } else {
        NoImpls::At(at, Reason::Expected("{"))
    })
}

fn member_of<'c, 't>(
    alloc: Global,
    mut tokens: Cursor<'c, 't>,
    is_field: bool,
) -> Result<Member<'c, 't>, NoImpls<'t>> {
    let attributes = attributes(alloc, &mut tokens)?;
    let name = if is_field {
        field_name(&mut tokens)?
    } else {
        tokens.take(Kind::Word, "a variant")?
    };
    Ok(Member {
        attributes,
        name,
        rest: tokens,
    })
}

// Takes the name of a field, with what stands before and behind it.
fn field_name<'t>(tokens: &mut Cursor<'_, 't>) -> Result<Token<'t>, NoImpls<'t>> {
    if tokens.takes("pub") && tokens.takes("(") {
        tokens.group()?;
    }
    if tokens.sees("ghost") {
        return Err(NoImpls::At(tokens.at(), Reason::Invariant));
    }
    let name = tokens.take(Kind::Word, "a field")?;
    tokens.expect(":")?;
    Ok(name)
}

/// The attributes that stand in front.
pub fn attributes<'c, 't>(
    alloc: Global,
    tokens: &mut Cursor<'c, 't>,
) -> Result<Vec<Attribute<'c, 't>>, NoImpls<'t>> {
    let mut attributes = Vec::new(alloc);
    for _ in 0..tokens.len() {
        if !tokens.sees("#") {
            break;
        }
        if let Some(hash) = tokens.next() {
            if let Some(attribute) = attribute_behind(hash, tokens)? {
                attributes.push(attribute)?;
            }
        }
    }
    Ok(attributes)
}
