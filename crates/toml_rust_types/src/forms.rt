//! An enum of two variants, of which one holds a table and the other none, as a choice of two forms of TOML.

use crate::written::impl_of;
use std::alloc::Global;
use toml_rust_items::cursor::Cursor;
use toml_rust_items::declared::{Member, attributes, members};
use toml_rust_items::items::{Item, ItemKind};
use toml_rust_items::lexer::Token;
use toml_rust_items::literal::Literal;
use toml_rust_items::refusal::{NoImpls, Reason};
use toml_rust_items::rules::{is_untagged, refuse_rules};
use toml_rust_items::types::{FieldType, field_type};

/// An enum as a choice of two forms.
#[derive(Drop)]
pub struct Forms<'t> {
    pub name: &'t str,
    /// The path of its variants in clauses.
    pub path: String,
    pub first: Form<'t>,
    pub second: Form<'t>,
}

/// A variant, and the type that it holds.
#[derive(Drop)]
pub struct Form<'t> {
    pub name: &'t str,
    pub kind: String,
    pub is_table: bool,
}

impl<'t> Forms<'t> {
    /// The form that is a table, and the other.
    pub fn table_and_other(&self) -> (&Form<'t>, &Form<'t>) {
        if self.first.is_table {
            (&self.first, &self.second)
        } else {
            (&self.second, &self.first)
        }
    }
}

/// Whether an impl tells the two forms apart as the program does.
pub fn is_by_table(item: &Item<'_, '_>) -> bool {
    let mut tokens = item.tokens;
    tokens.skip_to("by_test");
    tokens.begins(&["by_test", "is_table"])
}

/// Whether an enum has forms: it says so or has the impl already, and a variant of it holds something.
pub fn has_forms<'t>(
    alloc: Global,
    items: &[Item<'_, 't>],
    item: &Item<'_, 't>,
    name: &str,
) -> Result<bool, NoImpls<'t>> {
    if impl_of(items, "Forms", name).is_none() && !is_untagged(item.attributes.as_slice())? {
        return Ok(false);
    }
    Ok(!is_plain(alloc, item)?)
}

// Whether no variant of an enum holds something.
fn is_plain<'t>(alloc: Global, item: &Item<'_, 't>) -> Result<bool, NoImpls<'t>> {
    let variants = members(alloc, item)?;
    Ok(!variants.iter().any(|variant| variant.has_data()))
}

/// The two forms of an enum: by the types that its variants hold, else by the impl that it has.
pub fn forms_of<'t>(
    alloc: Global,
    items: &[Item<'_, 't>],
    name: Token<'t>,
    declared: &[Member<'_, 't>],
) -> Result<(Form<'t>, Form<'t>), NoImpls<'t>> {
    let listing = impl_of(items, "Forms", name.text);
    if let Some(listing) = listing {
        if !is_by_table(listing) {
            return Err(NoImpls::At(listing.from, Reason::OtherTest));
        }
    }
    let [first, second] = declared else {
        return Err(NoImpls::At(name.at, Reason::NotTwo));
    };
    let first = form_of(alloc, items, listing, first)?;
    let second = form_of(alloc, items, listing, second)?;
    if first.is_table == second.is_table {
        return Err(NoImpls::At(name.at, Reason::SameForm));
    }
    Ok((first, second))
}

fn form_of<'t>(
    alloc: Global,
    items: &[Item<'_, 't>],
    listing: Option<&Item<'_, 't>>,
    variant: &Member<'_, 't>,
) -> Result<Form<'t>, NoImpls<'t>> {
    refuse_rules(variant.attributes.as_slice(), &[])?;
    let mut held = held(variant)?;
    refuse_rules(attributes(alloc, &mut held)?.as_slice(), &[])?;
    let kind = field_type(alloc, held)?;
    let name = variant.name.text;
    match is_table(alloc, items, listing, name, &kind)? {
        Some(is_table) => Ok(Form {
            name,
            kind: kind.name,
            is_table,
        }),
        None => Err(NoImpls::At(held.at(), Reason::FormType)),
    }
}

// Whether a variant holds a table: by its type, else as an impl has it; `None` where neither tells.
fn is_table<'t>(
    alloc: Global,
    items: &[Item<'_, 't>],
    listing: Option<&Item<'_, 't>>,
    name: &str,
    kind: &FieldType,
) -> Result<Option<bool>, NoImpls<'t>> {
    if kind.is_option {
        return Ok(None);
    }
    match (holds_table(alloc, items, kind.name.as_str())?, listing) {
        (None, Some(listing)) => Ok(listed_table(listing, name)),
        (known, _) => Ok(known),
    }
}

// The type that a variant holds.
fn held<'c, 't>(variant: &Member<'c, 't>) -> Result<Cursor<'c, 't>, NoImpls<'t>> {
    let mut data = variant.rest;
    if data.takes("(") {
        let mut parts = data.group()?.parts();
        if let (Some(kind), None) = (parts.next(), parts.next()) {
            return Ok(kind);
        }
    }
    Err(NoImpls::At(variant.name.at, Reason::NotOne))
}

// Whether the values of a type are tables; `None` where that is not known.
fn holds_table<'t>(
    alloc: Global,
    items: &[Item<'_, 't>],
    kind: &str,
) -> Result<Option<bool>, NoImpls<'t>> {
    let declared = items
        .iter()
        .find(|item| item.kind.is_type() && item.tokens.sees(kind));
    if let Some(item) = declared {
        if item.kind == ItemKind::Struct {
            return Ok(Some(true));
        }
        return Ok(is_plain(alloc, item)?.then_some(false));
    }
    if kind == "Table" || kind.starts_with("BTreeMap<String, ") {
        return Ok(Some(true));
    }
    let is_other = kind == "Float" || Literal::default_of(kind).is_some();
    Ok(is_other.then_some(false))
}

// Whether an impl has a variant as the form that is a table: `Detailed x ↦ one x`.
fn listed_table(listing: &Item<'_, '_>, name: &str) -> Option<bool> {
    let mut tokens = listing.tokens;
    for _ in 0..tokens.len() {
        if tokens.takes(name) {
            let mut behind = tokens;
            behind.next();
            if behind.takes("↦") {
                return Some(behind.sees("one"));
            }
        } else {
            tokens.next();
        }
    }
    None
}
