//! A file with the impls of its types.

use crate::choice_templates::choice_impls;
use crate::form_templates::form_impls;
use crate::impls::Impl;
use crate::imports::{Needs, imports_of};
use crate::merge::add_use_edits;
use crate::templates::impls_of;
use crate::uses::{refuse_taken, uses_of};
use std::alloc::{AllocError, Global};
use toml_rust_items::cursor::Cursor;
use toml_rust_items::declared::{Member, members, type_name};
use toml_rust_items::edits::{Edit, edited};
use toml_rust_items::items::{Attribute, Item, ItemKind, items_of};
use toml_rust_items::lexer::{Token, tokens_of};
use toml_rust_items::refusal::NoImpls;
use toml_rust_items::rules::{refuse_rules, type_rules};
use toml_rust_types::choice::{Choice, refuse_data, variant_list, variants_of, variants_path};
use toml_rust_types::cuts::cut;
use toml_rust_types::forms::{Forms, forms_of, has_forms};
use toml_rust_types::record::{Record, record_of};
use toml_rust_types::wanted::is_wanted;
use toml_rust_types::written::{impl_of, list_of};

/// The text of a file with the impls of its types behind them, in place of those that it had, and with the `use` lines
/// that they need. All else is as it was. An enum needs the path of its `module`, unless it has impls already.
///
/// # Errors
///
/// What is refused first, and want of memory.
pub fn with_impls<'t>(
    alloc: Global,
    text: &'t str,
    module: Option<&str>,
) -> Result<String, NoImpls<'t>> {
    let tokens = tokens_of(alloc, text)?;
    let cursor = Cursor {
        rest: tokens.as_slice(),
        end: text.len(),
    };
    let edits = edits_of(alloc, text, module, cursor)?;
    Ok(edited(alloc, text, edits)?)
}

// A file as it is.
#[derive(Clone, Copy)]
struct File<'m, 'i, 'c, 't> {
    text: &'t str,
    module: Option<&'m str>,
    items: &'i [Item<'c, 't>],
}

// The changes that give the types of a file their impls.
fn edits_of<'t>(
    alloc: Global,
    text: &'t str,
    module: Option<&str>,
    tokens: Cursor<'_, 't>,
) -> Result<Vec<Edit>, NoImpls<'t>> {
    let items = items_of(alloc, tokens)?;
    let file = File {
        text,
        module,
        items: items.as_slice(),
    };
    let mut needs = Needs::new(alloc);
    let mut edits = Vec::new(alloc);
    for item in file.items {
        if item.kind.is_type() {
            add_type(alloc, file, item, &mut needs, &mut edits)?;
        }
    }
    add_uses(alloc, file, &needs, &mut edits)?;
    Ok(edits)
}

// Adds a type, and the changes that give it its impls, if it is wanted.
fn add_type<'t>(
    alloc: Global,
    file: File<'_, '_, '_, 't>,
    item: &Item<'_, 't>,
    needs: &mut Needs,
    edits: &mut Vec<Edit>,
) -> Result<(), NoImpls<'t>> {
    let name = type_name(item)?;
    if !is_wanted(file.items, item, name.text)? {
        return Ok(());
    }
    cut_from(alloc, file.text, item.attributes.as_slice(), edits)?;
    let impls = impls_in(alloc, file, item, name, needs, edits)?;
    Ok(add_impls(alloc, file, item, name.text, impls, edits)?)
}

// The impls that a type gets.
fn impls_in<'t>(
    alloc: Global,
    file: File<'_, '_, '_, 't>,
    item: &Item<'_, 't>,
    name: Token<'t>,
    needs: &mut Needs,
    edits: &mut Vec<Edit>,
) -> Result<Vec<Impl>, NoImpls<'t>> {
    if item.kind == ItemKind::Struct {
        return record_impls(alloc, file, item, name, needs, edits);
    }
    if has_forms(alloc, file.items, item, name.text)? {
        needs.has_forms = true;
        return Ok(form_impls(alloc, &forms_in(alloc, file, item, name)?)?);
    }
    needs.has_choices = true;
    Ok(choice_impls(alloc, &choice_in(alloc, file, item, name, edits)?)?)
}

fn record_impls<'t>(
    alloc: Global,
    file: File<'_, '_, '_, 't>,
    item: &Item<'_, 't>,
    name: Token<'t>,
    needs: &mut Needs,
    edits: &mut Vec<Edit>,
) -> Result<Vec<Impl>, NoImpls<'t>> {
    let record = record_in(alloc, file, item, name, edits)?;
    needs.add_record(&record)?;
    Ok(impls_of(alloc, &record)?)
}

// The record that a struct is. What serde has at its fields is cut.
fn record_in<'t>(
    alloc: Global,
    file: File<'_, '_, '_, 't>,
    item: &Item<'_, 't>,
    name: Token<'t>,
    edits: &mut Vec<Edit>,
) -> Result<Record<'t>, NoImpls<'t>> {
    let rules = type_rules(item.attributes.as_slice())?;
    let fields = members(alloc, item)?;
    cut_from_members(alloc, file.text, fields.as_slice(), edits)?;
    let list = list_of(alloc, file.items, name.text)?;
    record_of(alloc, name.text, rules, fields.as_slice(), &list)
}

// The choice that an enum is. What serde has at its variants is cut.
fn choice_in<'t>(
    alloc: Global,
    file: File<'_, '_, '_, 't>,
    item: &Item<'_, 't>,
    name: Token<'t>,
    edits: &mut Vec<Edit>,
) -> Result<Choice<'t>, NoImpls<'t>> {
    let rules = type_rules(item.attributes.as_slice())?;
    let variants = members(alloc, item)?;
    refuse_data(variants.as_slice())?;
    cut_from_members(alloc, file.text, variants.as_slice(), edits)?;
    let listing = impl_of(file.items, "Choice", name.text);
    let list = variant_list(alloc, listing)?;
    Ok(Choice {
        name: name.text,
        path: variants_path(alloc, file.text, name, file.module, listing)?,
        variants: variants_of(alloc, rules, variants.as_slice(), &list)?,
    })
}

// The choice of two forms that an enum is.
fn forms_in<'t>(
    alloc: Global,
    file: File<'_, '_, '_, 't>,
    item: &Item<'_, 't>,
    name: Token<'t>,
) -> Result<Forms<'t>, NoImpls<'t>> {
    refuse_rules(item.attributes.as_slice(), &["rename", "untagged"])?;
    let variants = members(alloc, item)?;
    let (first, second) = forms_of(alloc, file.items, name, variants.as_slice())?;
    let listing = impl_of(file.items, "Forms", name.text);
    Ok(Forms {
        name: name.text,
        path: variants_path(alloc, file.text, name, file.module, listing)?,
        first,
        second,
    })
}

// Cuts what serde has at fields or variants.
fn cut_from_members<'t>(
    alloc: Global,
    text: &str,
    members: &[Member<'_, 't>],
    edits: &mut Vec<Edit>,
) -> Result<(), NoImpls<'t>> {
    for member in members {
        cut_from(alloc, text, member.attributes.as_slice(), edits)?;
    }
    Ok(())
}

// Cuts what serde has in some attributes.
fn cut_from<'t>(
    alloc: Global,
    text: &str,
    attributes: &[Attribute<'_, 't>],
    edits: &mut Vec<Edit>,
) -> Result<(), NoImpls<'t>> {
    for attribute in attributes {
        if let Some(edit) = cut(alloc, text, attribute)? {
            edits.push(edit)?;
        }
    }
    Ok(())
}

// The impls of a type: each in place of the one that the file has, or behind the one before it.
fn add_impls(
    alloc: Global,
    file: File<'_, '_, '_, '_>,
    item: &Item<'_, '_>,
    name: &str,
    impls: Vec<Impl>,
    edits: &mut Vec<Edit>,
) -> Result<(), AllocError> {
    let mut place = item.to;
    for Impl { of, text } in impls {
        let (from, to, text) = match impl_of(file.items, of, name) {
            Some(old) => (old.from, old.to, text),
            None => (place, place, format!(in alloc; "\n\n{text}")?),
        };
        edits.push(Edit { from, to, text })?;
        place = to;
    }
    Ok(())
}

// The `use` lines that the impls of the types need.
fn add_uses<'t>(
    alloc: Global,
    file: File<'_, '_, '_, 't>,
    needs: &Needs,
    edits: &mut Vec<Edit>,
) -> Result<(), NoImpls<'t>> {
    if needs.is_empty() {
        return Ok(());
    }
    let imports = imports_of(alloc, needs)?;
    let uses = uses_of(alloc, file.text, file.items)?;
    refuse_taken(file.items, uses.as_slice(), imports.as_slice())?;
    Ok(add_use_edits(alloc, file.text, uses.as_slice(), imports.as_slice(), edits)?)
}
