//! The fields of a record, and the names of a choice.
ghost use Rattle.std.specs.Prelude.{◌≡◌, ◌<◌, ⊤, IfOk, IfErr, MatchOption, map, length, None, Some};
ghost use Rattle.std.specs.List.{position};
ghost use Rattle.std.specs.Option.{option_copied};
ghost use Rattle.std.specs.Str.{bytes_eq};
ghost use Rattle.basic_toml_tree.specs.Nodes.{node_data, data_at, entries_left};
ghost use Rattle.basic_toml_typed.specs.TypeAnswers.{OnlyMemory, OrMemory};
ghost use Rattle.basic_toml_typed.specs.FieldKeys.{text_number};
ghost use Rattle.basic_toml_typed.specs.FieldFaults.{first_other, FieldIn, field_fails, optional_fails, only_fails, variant_fails};
ghost use Rattle.basic_toml_typed.specs.FieldFaults.{field_taken, optional_taken};
ghost use Rattle.basic_toml_typed.specs.TypeReads.{field_reads, field_takes, optional_reads, optional_takes};
ghost use Rattle.basic_toml_typed.specs.TypeReads.{HasOnly, IsVariant, HasVariant};

use crate::Deserialize;
use basic_toml_error::Error;
use basic_toml_tree::{Entries, Node};
use std::alloc::Global;

/// Reads the field of a table at a key (TOML v0.5.0, "Table").
///
/// ```text
/// c_a: read_field(alloc, node, "c_a")?,
/// ```
///
/// This is from `toml_callers`.
///
/// # Errors
///
/// `invalid type: .., expected a map` where the node is no table, ``missing field `key` `` where it lacks the key, both
/// at the node; else the error of the type; and want of memory.
#[tactic(auto, using(crate::proofs::FieldsFail::field_no_table, crate::proofs::FieldsFail::field_missing, crate::proofs::FieldsFail::field_own), unfolding(crate::specs::TypeReads::field_reads, crate::specs::TypeReads::field_takes))]
pub fn read_field<'de, T: Deserialize<'de>>(
    alloc: Global,
    node: Node<'_, 'de>,
    key: &str,
) -> Result<T, Error>
    ensures ok { IfOk result (field_reads T.reads (text_number key.now) (node_data node.entry)) }
    ensures err { IfErr result (OnlyMemory (field_takes T.takes (text_number key.now) (node_data node.entry))
        (field_reads T.reads (text_number key.now) (node_data node.entry))) }
    ensures taken { IfOk result (λ _. field_taken T.reads key.now node.entry) }
    ensures named { IfErr result (OrMemory (field_fails T.faults key.now node.entry)) }
    ensures same { IfOk result (λ value. T.moved value ≡ value) }
{
    match field_at(alloc, node, key)? {
        Some(child) => T::deserialize(alloc, child),
        None => Err(Error::missing_field(alloc, node, key)),
    }
}

/// Reads the field of a table at a key, and `None` where the table lacks the key, as
/// `read_optional(alloc, node, "rate")?` in `toml_callers`.
///
/// # Errors
///
/// `invalid type: .., expected a map` at the node where it is no table; else the error of the type; and want of memory.
#[tactic(auto, using(crate::proofs::FieldsFail::optional_no_table, crate::proofs::FieldsFail::optional_own), unfolding(crate::specs::TypeReads::optional_reads, crate::specs::TypeReads::optional_takes))]
pub fn read_optional<'de, T: Deserialize<'de>>(
    alloc: Global,
    node: Node<'_, 'de>,
    key: &str,
) -> Result<Option<T>, Error>
    ensures ok { IfOk result (optional_reads T.reads (text_number key.now) (node_data node.entry)) }
    ensures err { IfErr result (OnlyMemory (optional_takes T.takes (text_number key.now) (node_data node.entry))
        (optional_reads T.reads (text_number key.now) (node_data node.entry))) }
    ensures taken { IfOk result (λ _. optional_taken T.reads key.now node.entry) }
    ensures named { IfErr result (OrMemory (optional_fails T.faults key.now node.entry)) }
    ensures same { IfOk result (λ found. MatchOption found ⊤ (λ value. T.moved value ≡ value)) }
{
    match field_at(alloc, node, key)? {
        Some(child) => Ok(Some(T::deserialize(alloc, child)?)),
        None => Ok(None),
    }
}

// What stands at a key of a table.
#[tactic(auto, using(crate::proofs::FieldsFound::child_at_number))]
#[inline(always)]
fn field_at<'t, 'de>(
    alloc: Global,
    node: Node<'t, 'de>,
    key: &str,
) -> Result<Option<Node<'t, 'de>>, Error>
    ensures { FieldIn node.entry key.now result }
{
    if !node.is_table() {
        return Err(Error::invalid_type(alloc, node, "a map"));
    }
    Ok(node.get(key))
}

/// Checks that a table has no key but these, as `only_fields(alloc, node, &["c_a", "c_b"])?` in `toml_callers`.
///
/// # Errors
///
/// `invalid type: .., expected a map` where the node is no table; ``unknown field `key`, expected ..`` for the first
/// key in order that is not among them, at the node; and want of memory. It takes no memory where it finds nothing to
/// refuse.
#[tactic(auto, using(crate::proofs::NamesListed::all_listed, crate::proofs::NamesListed::other_unlisted, crate::proofs::NamesListed::table_unlisted, crate::proofs::VariantsNamed::only_no_table, crate::proofs::VariantsNamed::only_unknown))]
pub fn only_fields(alloc: Global, node: Node<'_, '_>, fields: &[&str]) -> Result<(), Error>
    ensures ok { IfOk result (λ _. HasOnly (map (λ field. text_number field.now) fields.now) (node_data node.entry)) }
    ensures err { IfErr result (λ _. HasOnly (map (λ field. text_number field.now) fields.now) (node_data node.entry) → ⊥) }
    ensures named { IfErr result (OrMemory (only_fails (map (λ field. field.now) fields.now) node.entry)) }
{
    let Some(entries) = node.entries() else {
        return Err(Error::invalid_type(alloc, node, "a map"));
    };
    match other_key(entries, fields) {
        Some(key) => Err(Error::unknown_field(alloc, node, key, fields)),
        None => Ok(()),
    }
}

// The first key that is not among these.
#[tactic(auto, using(crate::proofs::NamesListed::position_is_among))]
fn other_key<'t>(entries: Entries<'t, '_>, fields: &[&str]) -> Option<&'t str>
    ensures { option_copied result ≡ first_other (map (λ field. field.now) fields.now) (entries_left entries.entry) }
{
    for (key, _) in entries {
        if position_of(fields, key).is_none() {
            return Some(key);
        }
    }
    None
}

// The first position at which a text stands among names.
fn position_of(names: &[&str], text: &str) -> Option<usize>
    ensures { result ≡ position (λ name. bytes_eq name.now text.now) names.now }
{
    names.iter().position(|name| *name == text)
}

/// The first position, from 0, at which these names have the string at a node.
///
/// ```text
/// match variant(alloc, node, &["red", "green", "blue"])? {
///     0 => Ok(Color::Red),
///     1 => Ok(Color::Green),
///     _ => Ok(Color::Blue),
/// }
/// ```
///
/// This is from `toml_callers`.
///
/// # Errors
///
/// ``unknown variant `name`, expected ..`` at the table around the node, where the string is none of them;
/// `expected string, found ..` where the value begins, where it is no string; and
/// `invalid type: .., expected a string` for a table or an array that headers made; and want of memory. It takes no
/// memory where it answers a position.
#[tactic(auto, using(crate::proofs::VariantsNamed::variant_found, crate::proofs::VariantsNamed::variant_within, crate::proofs::VariantsNamed::variant_unnamed, crate::proofs::VariantsNamed::no_string_unnamed, crate::proofs::VariantsNamed::variant_is_had, crate::proofs::VariantsNamed::variant_no_string, crate::proofs::VariantsNamed::variant_made, crate::proofs::VariantsNamed::variant_unknown))]
pub fn variant(alloc: Global, node: Node<'_, '_>, variants: &[&str]) -> Result<usize, Error>
    ensures bound { IfOk result (λ position. position < length variants.now) }
    ensures ok { IfOk result (IsVariant (map (λ name. text_number name.now) variants.now) (node_data node.entry)) }
    ensures err { IfErr result (OnlyMemory (HasVariant (map (λ name. text_number name.now) variants.now) (node_data node.entry))
        (IsVariant (map (λ name. text_number name.now) variants.now) (node_data node.entry))) }
    ensures refused { IfErr result (λ _. HasVariant (map (λ name. text_number name.now) variants.now)
        (node_data node.entry) → ⊥) }
    ensures named { IfErr result (OrMemory (variant_fails (map (λ name. name.now) variants.now) node.entry)) }
{
    let Some(text) = node.text() else {
        return Err(if node.is_made() {
            Error::invalid_type(alloc, node, "a string")
        } else {
            Error::wanted_string(alloc, node)
        });
    };
    match position_of(variants, text) {
        Some(position) => Ok(position),
        None => Err(Error::unknown_variant(alloc, node, text, variants)),
    }
}
