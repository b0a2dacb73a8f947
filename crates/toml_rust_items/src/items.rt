//! The items of a file that types and impls are looked for in: those of its top level.

use crate::cursor::Cursor;
use crate::lexer::Token;
use crate::refusal::NoImpls;
use std::alloc::Global;

/// What kind of item it is.
#[derive(Clone, Copy, PartialEq, Eq)]
pub enum ItemKind {
    Struct,
    Enum,
    Impl,
    Use,
    GhostUse,
}

impl ItemKind {
    /// Whether the item declares a type.
    pub fn is_type(self) -> bool {
        matches!(self, ItemKind::Struct | ItemKind::Enum)
    }
}

/// An item of a file.
#[derive(Drop)]
pub struct Item<'c, 't> {
    pub kind: ItemKind,
    pub attributes: Vec<Attribute<'c, 't>>,
    /// The offset of its first token, attributes and visibility among them.
    pub start: usize,
    /// The offset of the word that names its kind.
    pub from: usize,
    /// The offset behind its last token.
    pub to: usize,
    /// What stands behind its first word.
    pub tokens: Cursor<'c, 't>,
}

/// An attribute: `#[..]`.
#[derive(Clone, Copy)]
pub struct Attribute<'c, 't> {
    /// The offset of its hash sign.
    pub from: usize,
    /// The offset behind its bracket.
    pub to: usize,
    /// What stands between the brackets.
    pub inside: Cursor<'c, 't>,
}

/// The items of a file, in order, but for those of kinds that are not looked at.
pub fn items_of<'c, 't>(
    alloc: Global,
    mut tokens: Cursor<'c, 't>,
) -> Result<Vec<Item<'c, 't>>, NoImpls<'t>> {
    let mut items = Vec::new(alloc);
    for _ in 0..tokens.len() {
        match next_item(alloc, &mut tokens)? {
            Some(item) => items.push(item)?,
            None => break,
        }
    }
    Ok(items)
}

// Takes the next item, and what stands before it.
fn next_item<'c, 't>(
    alloc: Global,
    tokens: &mut Cursor<'c, 't>,
) -> Result<Option<Item<'c, 't>>, NoImpls<'t>> {
    let mut attributes = Vec::new(alloc);
    let mut start = None;
    for _ in 0..tokens.len() {
        let Some(token) = tokens.next() else {
            break;
        };
        if token.opens() {
            tokens.group()?;
        } else if token.text == "#" {
            if let Some(attribute) = attribute_behind(token, tokens)? {
                start = start.or(Some(token.at));
                attributes.push(attribute)?;
            }
        } else if let Some(kind) = kind_at(token, tokens) {
            let has_block = !matches!(kind, ItemKind::Use | ItemKind::GhostUse);
            let inside = tokens.item(has_block)?;
            return Ok(Some(Item {
                kind,
                attributes,
                start: start.unwrap_or(token.at),
                from: token.at,
                to: inside.last_end(),
                tokens: inside,
            }));
        } else if token.text == "pub" {
            start = start.or(Some(token.at));
        } else {
            start = None;
            attributes.clear();
        }
    }
    Ok(None)
}

/// The attribute whose hash sign was taken; `None` where it is one of the whole file.
pub fn attribute_behind<'c, 't>(
    hash: Token<'t>,
    tokens: &mut Cursor<'c, 't>,
) -> Result<Option<Attribute<'c, 't>>, NoImpls<'t>> {
    let is_inner = tokens.takes("!");
    tokens.expect("[")?;
    let inside = tokens.group()?;
    if is_inner {
        return Ok(None);
    }
    Ok(Some(Attribute {
        from: hash.at,
        to: inside.end.saturating_add(1),
        inside,
    }))
}

// The kind of the item that begins with a token; the second word of a `ghost use` is taken.
fn kind_at<'t>(token: Token<'t>, tokens: &mut Cursor<'_, 't>) -> Option<ItemKind> {
    match token.text {
        "struct" => Some(ItemKind::Struct),
        "enum" => Some(ItemKind::Enum),
        "impl" => Some(ItemKind::Impl),
        "use" => Some(ItemKind::Use),
        "ghost" if tokens.takes("use") => Some(ItemKind::GhostUse),
        _ => None,
    }
}
