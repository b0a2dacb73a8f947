//! The list of fields that an impl of the file has: what it says beyond the struct is kept.

use std::alloc::Global;
use toml_rust_items::cursor::Cursor;
use toml_rust_items::items::{Item, ItemKind};
use toml_rust_items::lexer::Kind;
use toml_rust_items::literal::Literal;
use toml_rust_items::refusal::{NoImpls, Reason};
use toml_rust_items::rules::unquoted;

/// What a list says.
#[derive(Drop)]
pub struct FieldList<'t> {
    /// Whether keys that it does not have are refused.
    pub is_strict: bool,
    pub entries: Vec<Entry<'t>>,
}

/// What a list says of a field.
#[derive(Clone, Copy)]
pub struct Entry<'t> {
    pub field: &'t str,
    pub key: &'t str,
    pub default: Option<Literal<'t>>,
}

impl<'t> FieldList<'t> {
    /// What it says of a field.
    pub fn entry(&self, field: &str) -> Option<Entry<'t>> {
        self.entries
            .iter()
            .copied()
            .find(|entry| entry.field == field)
    }
}

/// The impl of a trait for a type, as the program writes it; `None` where there is none.
pub fn impl_of<'i, 'c, 't>(
    items: &'i [Item<'c, 't>],
    of: &str,
    name: &str,
) -> Option<&'i Item<'c, 't>> {
    items.iter().find(|item| is_impl(item, of, name))
}

fn is_impl(item: &Item<'_, '_>, of: &str, name: &str) -> bool {
    let head = item.tokens;
    item.kind == ItemKind::Impl
        && (head.begins(&[of, "for", name, "{"])
            || head.begins(&["<", "'de", ">", of, "<", "'de", ">", "for", name, "{"]))
}

/// The list of a type: that of what it reads and writes, else that of what it reads; `None` where there is none.
pub fn list_of<'t>(
    alloc: Global,
    items: &[Item<'_, 't>],
    name: &str,
) -> Result<Option<FieldList<'t>>, NoImpls<'t>> {
    for of in ["RoundTrip", "Record"] {
        if let Some(item) = impl_of(items, of, name) {
            return list_in(alloc, item.tokens);
        }
    }
    Ok(None)
}

// The list in an impl; `None` where it goes by another list.
fn list_in<'t>(
    alloc: Global,
    mut tokens: Cursor<'_, 't>,
) -> Result<Option<FieldList<'t>>, NoImpls<'t>> {
    for _ in 0..tokens.len() {
        if tokens.next().is_none() {
            break;
        }
        if tokens.takes("fields") && tokens.takes("=") && tokens.takes("{") {
            if tokens.sees("as_read") {
                break;
            }
            return Ok(Some(entries_in(alloc, tokens.group()?)?));
        }
    }
    Ok(None)
}

fn entries_in<'t>(alloc: Global, mut tokens: Cursor<'_, 't>) -> Result<FieldList<'t>, NoImpls<'t>> {
    let is_strict = tokens.takes("strict");
    let mut entries = Vec::new(alloc);
    for _ in 0..tokens.len() {
        tokens.takes("(");
        if tokens.takes("done") {
            break;
        }
        entries.push(next_entry(alloc, &mut tokens)?)?;
    }
    Ok(FieldList { is_strict, entries })
}

fn next_entry<'t>(alloc: Global, tokens: &mut Cursor<'_, 't>) -> Result<Entry<'t>, NoImpls<'t>> {
    let word = tokens.take(Kind::Word, "an entry")?;
    skip_type(tokens);
    let key = text_in(tokens)?;
    let default = match word.text {
        "needed" | "maybe" => None,
        "or" => Some(Literal::take_listed(alloc, tokens)?),
        "or_text" => Some(Literal::Text(text_in(tokens)?)),
        "or_empty" => Some(Literal::EmptyList),
        _ => return Err(NoImpls::At(word.at, Reason::Entry)),
    };
    Ok(Entry {
        field: field_in(tokens)?,
        key,
        default,
    })
}

fn text_in<'t>(tokens: &mut Cursor<'_, 't>) -> Result<&'t str, NoImpls<'t>> {
    let token = tokens.take(Kind::Text, "a string")?;
    unquoted(token.text).ok_or(NoImpls::At(token.at, Reason::Key))
}

// Goes behind the type of a field: `⟦<u16 as Returns<'static>>⟧`.
fn skip_type(tokens: &mut Cursor<'_, '_>) {
    tokens.skip_to("⟧");
    tokens.next();
}

// The field that is read: `(λ s. s.port)`.
fn field_in<'t>(tokens: &mut Cursor<'_, 't>) -> Result<&'t str, NoImpls<'t>> {
    let at = tokens.at();
    tokens.expect("(")?;
    let mut inside = tokens.group()?;
    match inside.rest.last() {
        Some(token) if inside.takes("λ") && token.kind == Kind::Word => Ok(token.text),
        _ => Err(NoImpls::At(at, Reason::Entry)),
    }
}
