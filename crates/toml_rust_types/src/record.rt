//! A struct as a record of TOML: its fields, their keys and their defaults.

use crate::written::{Entry, FieldList};
use std::alloc::Global;
use toml_rust_items::declared::Member;
use toml_rust_items::keys::key_of;
use toml_rust_items::literal::Literal;
use toml_rust_items::refusal::{NoImpls, Reason};
use toml_rust_items::rules::{DefaultRule, FieldRules, TypeRules, field_rules};
use toml_rust_items::types::{FieldType, field_type};

/// A struct as a record.
#[derive(Drop)]
pub struct Record<'t> {
    pub name: &'t str,
    /// Whether it refuses keys that it does not know.
    pub is_strict: bool,
    pub fields: Vec<Field<'t>>,
}

/// A field of a record.
#[derive(Drop)]
pub struct Field<'t> {
    pub name: &'t str,
    pub key: String,
    /// Its type; of an option, what that holds.
    pub kind: String,
    pub presence: Presence<'t>,
}

/// Whether the key of a field has to be there.
#[derive(Clone, Copy)]
pub enum Presence<'t> {
    Needed,
    /// The field is an option.
    Maybe,
    /// Where it is not, the field has this value.
    Or(Literal<'t>),
}

impl Presence<'_> {
    /// The word of the field in a list of fields, and where it is read.
    pub fn word(self) -> &'static str {
        match self {
            Presence::Needed => "needed",
            Presence::Maybe => "maybe",
            Presence::Or(value) => value.entry_word(),
        }
    }
}

/// The record that a struct is: by what its attributes say, and, where they say nothing, by the list that its impl has.
pub fn record_of<'t>(
    alloc: Global,
    name: &'t str,
    rules: TypeRules,
    declared: &[Member<'_, 't>],
    list: &Option<FieldList<'t>>,
) -> Result<Record<'t>, NoImpls<'t>> {
    let mut fields = Vec::new(alloc);
    for field in declared {
        let entry = match list {
            Some(list) => list.entry(field.name.text),
            None => None,
        };
        let read = field_of(alloc, rules, field, entry)?;
        if has_key(fields.as_slice(), read.key.as_str()) {
            return Err(NoImpls::At(field.name.at, Reason::RepeatedKey));
        }
        fields.push(read)?;
    }
    let was_strict = match list {
        Some(list) => list.is_strict,
        None => false,
    };
    Ok(Record {
        name,
        is_strict: rules.is_strict || was_strict,
        fields,
    })
}

fn has_key(fields: &[Field<'_>], key: &str) -> bool {
    fields.iter().any(|field| field.key.as_str() == key)
}

fn field_of<'t>(
    alloc: Global,
    types: TypeRules,
    field: &Member<'_, 't>,
    entry: Option<Entry<'t>>,
) -> Result<Field<'t>, NoImpls<'t>> {
    let rules = field_rules(alloc, field.attributes.as_slice())?;
    let kind = field_type(alloc, field.rest)?;
    let (key, default) = match entry {
        Some(entry) => (Some(entry.key), entry.default),
        None => (None, None),
    };
    Ok(Field {
        name: field.name.text,
        key: key_of(alloc, field.name, rules.key.or(key), types.case, false)?,
        presence: presence_of(&kind, rules, field.name.at, default)?,
        kind: kind.name,
    })
}

// Whether the key of a field has to be there: by what its attribute says, else by the default that the list has.
fn presence_of<'t>(
    kind: &FieldType,
    rules: FieldRules<'t>,
    at: usize,
    listed: Option<Literal<'t>>,
) -> Result<Presence<'t>, NoImpls<'t>> {
    if kind.is_option {
        return option_presence(rules.default);
    }
    if let Some(at) = rules.skips_none {
        return Err(NoImpls::At(at, Reason::SkipIf));
    }
    let kind = kind.name.as_str();
    let (at, value) = match (rules.default, listed) {
        (DefaultRule::OfType(at), _) => (at, Literal::default_of(kind)),
        (DefaultRule::Value(at, value), _) => (at, Some(value)),
        (DefaultRule::Unsaid, Some(value)) => (at, Some(value)),
        (DefaultRule::Unsaid, None) => return Ok(Presence::Needed),
    };
    match value {
        Some(value) if value.is_of(kind) => Ok(Presence::Or(value)),
        _ if Literal::default_of(kind).is_none() => Err(NoImpls::At(at, Reason::DefaultOfType)),
        _ => Err(NoImpls::At(at, Reason::DefaultMisfit)),
    }
}

fn option_presence<'t>(default: DefaultRule<'t>) -> Result<Presence<'t>, NoImpls<'t>> {
    match default {
        DefaultRule::Value(at, _) => Err(NoImpls::At(at, Reason::DefaultOfOption)),
        _ => Ok(Presence::Maybe),
    }
}
