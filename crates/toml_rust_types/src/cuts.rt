//! What serde has in a file, which the impls stand for: it is cut from the types.

use std::alloc::Global;
use toml_rust_items::cursor::Cursor;
use toml_rust_items::edits::{Edit, between, with_line};
use toml_rust_items::items::Attribute;
use toml_rust_items::refusal::NoImpls;
use toml_rust_items::rules::is_rule;

/// Whether an attribute asks for impls: it is one of serde's, or derives what they stand for.
pub fn asks<'t>(attribute: &Attribute<'_, 't>) -> Result<bool, NoImpls<'t>> {
    Ok(is_rule(attribute) || derived(attribute)?.parts().any(is_serdes))
}

/// The change that leaves out what asks for impls; `None` where nothing does.
pub fn cut<'t>(
    alloc: Global,
    text: &str,
    attribute: &Attribute<'_, 't>,
) -> Result<Option<Edit>, NoImpls<'t>> {
    if !asks(attribute)? {
        return Ok(None);
    }
    let mut kept = String::new(alloc);
    for part in derived(attribute)?.parts() {
        if !is_serdes(part) {
            kept.push_str(if kept.is_empty() { "" } else { ", " })?;
            kept.push_str(between(text, part.at(), part.last_end()))?;
        }
    }
    let (mut from, mut to) = (attribute.from, attribute.to);
    if kept.is_empty() {
        (from, to) = with_line(text, from, to);
    } else {
        kept = format!(in alloc; "#[derive({kept})]")?;
    }
    Ok(Some(Edit {
        from,
        to,
        text: kept,
    }))
}

// What an attribute derives; nothing where it is no derive.
fn derived<'c, 't>(attribute: &Attribute<'c, 't>) -> Result<Cursor<'c, 't>, NoImpls<'t>> {
    let mut inside = attribute.inside;
    if inside.takes("derive") && inside.takes("(") {
        return inside.group();
    }
    Ok(inside.nothing())
}

// Whether a derive is one of serde's, by its last word.
fn is_serdes(part: Cursor<'_, '_>) -> bool {
    match part.rest.last() {
        Some(token) => matches!(token.text, "Serialize" | "Deserialize"),
        None => false,
    }
}
