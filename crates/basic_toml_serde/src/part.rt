//! The nodes of a tree, as a reading asks for them.
ghost use Rattle.std.specs.Prelude.{◌≡◌, Some, IfOk, IfSome, slice_range};
ghost use Rattle.basic_toml_value.specs.Data.{string_in};
ghost use Rattle.basic_toml_tree.specs.Nodes.{node_data, elements_in, entries_in};
ghost use Rattle.basic_toml_serde.specs.Added.{without_keys, with_keys};
ghost use Rattle.basic_toml_serde.specs.Parts.{key_of, data_of, FailsAt, FailsAround, AddsAll};

use crate::source::Source;
use basic_toml::{Error, Node};
use std::alloc::{AllocError, Global};

/// A node, and the key that leads to it, where it is a member of a table.
#[derive(Clone, Copy, Drop)]
pub(crate) struct Part<'t, 'de> {
    pub(crate) key: Option<&'t str>,
    pub(crate) node: Node<'t, 'de>,
}

impl<'t, 'de> Source for Part<'t, 'de> {
    ghost key_of = { key_of };

    ghost data_of = { data_of };

    ghost fails_at = { FailsAt };

    ghost fails_around = { FailsAround };

    #[inline(always)]
    fn key(&self) -> Option<&str> {
        match self.key {
            Some(key) => Some(key),
            None => None,
        }
    }

    #[inline(always)]
    fn integer(&self) -> Option<i64> {
        self.node.as_integer()
    }

    #[inline(always)]
    fn truth(&self) -> Option<bool> {
        self.node.as_bool()
    }

    fn float(&self) -> Option<&str> {
        match self.node.as_float() {
            Some(float) => Some(float.as_str()),
            None => None,
        }
    }

    #[inline(always)]
    fn string(&self) -> Option<&str> {
        match self.node.text() {
            Some(text) => Some(text),
            None => None,
        }
    }

    fn span(&self, input: &[u8]) -> Option<(usize, usize)> {
        let (Some(text), Some(start)) = (self.node.borrowed_text(), self.node.start()) else {
            return None;
        };
        let Some((from, to)) = span_of(input, start, text.len()) else {
            return None;
        };
        if input.get(from..to) == Some(text.as_bytes()) {
            Some((from, to))
        } else {
            None
        }
    }

    #[inline(always)]
    fn is_table(&self) -> bool {
        self.node.is_table()
    }

    #[inline(always)]
    fn is_array(&self) -> bool {
        match self.node.elements() {
            Some(_) => true,
            None => false,
        }
    }

    fn add_elements(&self, list: &mut Vec<Part<'t, 'de>>) -> Result<(), AllocError> {
        add_elements(self.node, list)
    }

    #[inline(always)]
    fn add_entries(&self, list: &mut Vec<Part<'t, 'de>>) -> Result<(), AllocError> {
        add_entries(self.node, list)
    }

    fn len(&self) -> usize {
        let mut length = 0usize;
        if let Some(elements) = self.node.elements() {
            for _ in elements {
                length = length.saturating_add(1);
            }
        }
        length
    }

    fn custom(&self, alloc: Global, message: &str) -> Error {
        Error::custom(alloc, self.node, message)
    }

    fn wrong_type(&self, alloc: Global, expected: &str) -> Error {
        Error::invalid_type(alloc, self.node, expected)
    }

    fn wrong_value(&self, alloc: Global, expected: &str) -> Error {
        Error::invalid_value(alloc, self.node, expected)
    }

    fn wrong_len(&self, alloc: Global, length: usize, expected: &str) -> Error {
        Error::invalid_length(alloc, self.node, length, expected)
    }

    fn missing(&self, alloc: Global, key: &str) -> Error {
        Error::missing_field(alloc, self.node, key)
    }

    fn unknown_field(&self, alloc: Global, key: &str, keys: &[&str]) -> Error {
        Error::unknown_field(alloc, self.node, key, keys)
    }

    fn unknown_variant(&self, alloc: Global, name: &str, names: &[&str]) -> Error {
        Error::unknown_variant(alloc, self.node, name, names)
    }
}

// Adds the elements of an array in order.
#[tactic(auto, using(crate::proofs::PartsAdded::parts_added))]
fn add_elements<'t, 'de>(
    array: Node<'t, 'de>,
    list: &mut Vec<Part<'t, 'de>>,
) -> Result<(), AllocError>
    ensures { IfOk result
        (λ _. AddsAll (without_keys (elements_in (node_data array.entry))) list.old.items list.new.items) }
{
    let Some(elements) = array.elements() else {
        return Ok(());
    };
    for element in elements {
        list.push(Part {
            key: None,
            node: element,
        })?;
    }
    Ok(())
}

// Adds the keys of a table with their values, in order.
#[inline(always)]
#[tactic(auto, using(crate::proofs::PartsAdded::parts_added))]
fn add_entries<'t, 'de>(
    table: Node<'t, 'de>,
    list: &mut Vec<Part<'t, 'de>>,
) -> Result<(), AllocError>
    ensures { IfOk result
        (λ _. AddsAll (with_keys (entries_in (node_data table.entry))) list.old.items list.new.items) }
{
    let Some(entries) = table.entries() else {
        return Ok(());
    };
    for (key, child) in entries {
        list.push(Part {
            key: Some(key),
            node: child,
        })?;
    }
    Ok(())
}

/// Where a text that stands in the document as it is begins and ends, by where its value begins and how long it is.
///
/// Behind the quotes of a multiline string a line end may stand, which is no part of the text.
pub(crate) fn span_of(input: &[u8], start: usize, len: usize) -> Option<(usize, usize)> {
    let quotes = input.get(start..)?;
    let from = match quotes {
        [b'"', b'"', b'"', b'\r', b'\n', ..] | [b'\'', b'\'', b'\'', b'\r', b'\n', ..] => {
            start.checked_add(5)?
        }
        [b'"', b'"', b'"', b'\n', ..] | [b'\'', b'\'', b'\'', b'\n', ..] => start.checked_add(4)?,
        [b'"', b'"', b'"', ..] | [b'\'', b'\'', b'\'', ..] if len > 0 => start.checked_add(3)?,
        _ => start.checked_add(1)?,
    };
    Some((from, from.checked_add(len)?))
}
