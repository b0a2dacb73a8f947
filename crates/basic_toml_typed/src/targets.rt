//! The types that are read as they stand: numbers, truth values, strings, and whatever stands there.
ghost use Rattle.std.specs.Int.{w16, w32, w64, w8};
ghost use Rattle.std.specs.Prelude.{◌≡◌, MatchResult, Some, None, codes};
ghost use Rattle.basic_toml_value.specs.Data.{integer_in};
ghost use Rattle.basic_toml_tree.specs.Data.{HoldsAny};
ghost use Rattle.basic_toml_tree.specs.Nodes.{node_data};
ghost use Rattle.basic_toml_error.specs.NodeFaults.{IsFault};
ghost use Rattle.basic_toml_typed.specs.TypeAnswers.{by_bits, no_fault};
ghost use Rattle.basic_toml_typed.specs.TypeFaults.{wrong_type, signed_faults, unsigned_faults, bool_faults, string_faults, float_faults};
ghost use Rattle.basic_toml_typed.specs.TypeReads.{signed_reads, signed_takes, unsigned_reads, unsigned_takes, bool_reads, bool_takes};
ghost use Rattle.basic_toml_typed.specs.TypeReads.{string_reads, cow_reads, string_takes, float_reads, float_takes};
ghost use Rattle.basic_toml_typed.specs.TypeReads.{value_reads, value_takes, option_reads};

use crate::Deserialize;
use basic_toml_error::Error;
use basic_toml_tree::{Node, Tree};
use basic_toml_value::{Float, Value};
use std::alloc::{AllocError, Global};
use std::borrow::CowStr;

// The integer at a node; without one an error that names what was expected.
#[inline(always)]
fn integer_at(alloc: Global, node: Node<'_, '_>, expected: &str) -> Result<i64, Error>
    ensures { MatchResult result (λ n. integer_in (node_data node.entry) ≡ Some n)
        (λ e. (integer_in (node_data node.entry) ≡ None)
        × IsFault e (wrong_type expected.now node.entry)) }
{
    match node.as_integer() {
        Some(number) => Ok(number),
        None => Err(Error::invalid_type(alloc, node, expected)),
    }
}

impl<'de> Deserialize<'de> for i8 {
    ghost reads = { signed_reads 7 };

    ghost takes = { signed_takes 7 };

    ghost faults = { signed_faults 7 (codes "i8") };

    ghost moved = { by_bits w8 };

    fn deserialize(alloc: Global, node: Node<'_, 'de>) -> Result<i8, Error> {
        match i8::try_from(integer_at(alloc, node, "i8")?) {
            Ok(number) => Ok(number),
            Err(_) => Err(Error::invalid_value(alloc, node, "i8")),
        }
    }

    fn from_tree(alloc: Global, tree: Tree<'de>) -> Result<i8, Error> {
        i8::deserialize(alloc, tree.root())
    }
}

impl<'de> Deserialize<'de> for i16 {
    ghost reads = { signed_reads 15 };

    ghost takes = { signed_takes 15 };

    ghost faults = { signed_faults 15 (codes "i16") };

    ghost moved = { by_bits w16 };

    fn deserialize(alloc: Global, node: Node<'_, 'de>) -> Result<i16, Error> {
        match i16::try_from(integer_at(alloc, node, "i16")?) {
            Ok(number) => Ok(number),
            Err(_) => Err(Error::invalid_value(alloc, node, "i16")),
        }
    }

    fn from_tree(alloc: Global, tree: Tree<'de>) -> Result<i16, Error> {
        i16::deserialize(alloc, tree.root())
    }
}

impl<'de> Deserialize<'de> for i32 {
    ghost reads = { signed_reads 31 };

    ghost takes = { signed_takes 31 };

    ghost faults = { signed_faults 31 (codes "i32") };

    ghost moved = { by_bits w32 };

    fn deserialize(alloc: Global, node: Node<'_, 'de>) -> Result<i32, Error> {
        match i32::try_from(integer_at(alloc, node, "i32")?) {
            Ok(number) => Ok(number),
            Err(_) => Err(Error::invalid_value(alloc, node, "i32")),
        }
    }

    fn from_tree(alloc: Global, tree: Tree<'de>) -> Result<i32, Error> {
        i32::deserialize(alloc, tree.root())
    }
}

impl<'de> Deserialize<'de> for i64 {
    ghost reads = { signed_reads 63 };

    ghost takes = { signed_takes 63 };

    ghost faults = { signed_faults 63 (codes "i64") };

    ghost moved = { by_bits w64 };

    fn deserialize(alloc: Global, node: Node<'_, 'de>) -> Result<i64, Error> {
        integer_at(alloc, node, "i64")
    }

    fn from_tree(alloc: Global, tree: Tree<'de>) -> Result<i64, Error> {
        i64::deserialize(alloc, tree.root())
    }
}

impl<'de> Deserialize<'de> for u8 {
    ghost reads = { unsigned_reads 8 };

    ghost takes = { unsigned_takes 8 };

    ghost faults = { unsigned_faults 8 (codes "u8") };

    fn deserialize(alloc: Global, node: Node<'_, 'de>) -> Result<u8, Error> {
        match u8::try_from(integer_at(alloc, node, "u8")?) {
            Ok(number) => Ok(number),
            Err(_) => Err(Error::invalid_value(alloc, node, "u8")),
        }
    }

    fn from_tree(alloc: Global, tree: Tree<'de>) -> Result<u8, Error> {
        u8::deserialize(alloc, tree.root())
    }
}

impl<'de> Deserialize<'de> for u16 {
    ghost reads = { unsigned_reads 16 };

    ghost takes = { unsigned_takes 16 };

    ghost faults = { unsigned_faults 16 (codes "u16") };

    fn deserialize(alloc: Global, node: Node<'_, 'de>) -> Result<u16, Error> {
        match u16::try_from(integer_at(alloc, node, "u16")?) {
            Ok(number) => Ok(number),
            Err(_) => Err(Error::invalid_value(alloc, node, "u16")),
        }
    }

    fn from_tree(alloc: Global, tree: Tree<'de>) -> Result<u16, Error> {
        u16::deserialize(alloc, tree.root())
    }
}

impl<'de> Deserialize<'de> for u32 {
    ghost reads = { unsigned_reads 32 };

    ghost takes = { unsigned_takes 32 };

    ghost faults = { unsigned_faults 32 (codes "u32") };

    fn deserialize(alloc: Global, node: Node<'_, 'de>) -> Result<u32, Error> {
        match u32::try_from(integer_at(alloc, node, "u32")?) {
            Ok(number) => Ok(number),
            Err(_) => Err(Error::invalid_value(alloc, node, "u32")),
        }
    }

    fn from_tree(alloc: Global, tree: Tree<'de>) -> Result<u32, Error> {
        u32::deserialize(alloc, tree.root())
    }
}

impl<'de> Deserialize<'de> for u64 {
    ghost reads = { unsigned_reads 64 };

    ghost takes = { unsigned_takes 64 };

    ghost faults = { unsigned_faults 64 (codes "u64") };

    fn deserialize(alloc: Global, node: Node<'_, 'de>) -> Result<u64, Error> {
        match u64::try_from(integer_at(alloc, node, "u64")?) {
            Ok(number) => Ok(number),
            Err(_) => Err(Error::invalid_value(alloc, node, "u64")),
        }
    }

    fn from_tree(alloc: Global, tree: Tree<'de>) -> Result<u64, Error> {
        u64::deserialize(alloc, tree.root())
    }
}

impl<'de> Deserialize<'de> for bool {
    ghost reads = { bool_reads };

    ghost takes = { bool_takes };

    ghost faults = { bool_faults };

    fn deserialize(alloc: Global, node: Node<'_, 'de>) -> Result<bool, Error> {
        match node.as_bool() {
            Some(truth) => Ok(truth),
            None => Err(Error::invalid_type(alloc, node, "a boolean")),
        }
    }

    fn from_tree(alloc: Global, tree: Tree<'de>) -> Result<bool, Error> {
        bool::deserialize(alloc, tree.root())
    }
}

impl<'de> Deserialize<'de> for String {
    ghost reads = { string_reads };

    ghost takes = { string_takes };

    ghost faults = { string_faults };

    fn deserialize(alloc: Global, node: Node<'_, 'de>) -> Result<String, Error> {
        match node.text() {
            Some(text) => Ok(String::from_str(alloc, text)?),
            None => Err(Error::invalid_type(alloc, node, "a string")),
        }
    }

    fn from_tree(alloc: Global, tree: Tree<'de>) -> Result<String, Error> {
        String::deserialize(alloc, tree.root())
    }
}

/// Borrows what the text that was read holds as it stands, and copies the rest.
impl<'de> Deserialize<'de> for CowStr<'de> {
    ghost use Rattle.std.specs.Prelude.{◌≡◌, ◌↔◌, IfOk, IfErr, IsTrue};
    ghost use Rattle.std.specs.Cow.{IsBorrowedStr};
    ghost use Rattle.basic_toml_tree.specs.Origin.{is_borrowed};
    ghost use Rattle.basic_toml_typed.specs.TypeAnswers.{OnlyMemory, OrMemory, IfGrows, any_data};

    ghost reads = { cow_reads };

    ghost takes = { string_takes };

    ghost faults = { string_faults };

    fn deserialize(alloc: Global, node: Node<'_, 'de>) -> Result<CowStr<'de>, Error>
        ensures ok { IfOk result (λ text. cow_reads (node_data node.entry) text) }
        ensures err { IfErr result (OnlyMemory (string_takes (node_data node.entry)) (cow_reads (node_data node.entry))) }
        ensures named { IfErr result (OrMemory (string_faults node.entry)) }
        ensures memory { IfErr result (IfGrows (any_data (node_data node.entry))) }
        ensures same { IfOk result (λ text. text ≡ text) }
        ensures borrowed { IfOk result (λ text. IsBorrowedStr text ↔ IsTrue (is_borrowed node.entry)) }
    {
        if let Some(text) = node.borrowed_text() {
            return Ok(CowStr::Borrowed(text));
        }
        match node.text() {
            Some(text) => Ok(CowStr::Owned(String::from_str(alloc, text)?)),
            None => Err(Error::invalid_type(alloc, node, "a string")),
        }
    }

    fn from_tree(alloc: Global, tree: Tree<'de>) -> Result<CowStr<'de>, Error> {
        CowStr::deserialize(alloc, tree.root())
    }
}

/// A float, and no integer.
impl<'de> Deserialize<'de> for Float {
    ghost reads = { float_reads };

    ghost takes = { float_takes };

    ghost faults = { float_faults };

    fn deserialize(alloc: Global, node: Node<'_, 'de>) -> Result<Float, Error> {
        match node.as_float() {
            Some(float) => Ok(float.clone()?),
            None => Err(Error::invalid_type(alloc, node, "a float")),
        }
    }

    fn from_tree(alloc: Global, tree: Tree<'de>) -> Result<Float, Error> {
        Float::deserialize(alloc, tree.root())
    }
}

/// Whatever stands there.
impl<'de> Deserialize<'de> for Value {
    ghost reads = { value_reads };

    ghost takes = { value_takes };

    ghost faults = { no_fault };

    ghost grows = { HoldsAny };

    fn deserialize(alloc: Global, node: Node<'_, 'de>) -> Result<Value, Error> {
        if let Some(table) = node.to_table(alloc)? {
            return Ok(Value::Table(table));
        }
        match node.to_value(alloc) {
            Ok(value) => Ok(value),
            Err(_) => Err(Error::from(AllocError)),
        }
    }

    fn from_tree(alloc: Global, tree: Tree<'de>) -> Result<Value, Error> {
        Ok(Value::Table(tree.into_table(alloc)?))
    }
}

/// What stands there, as the type reads it: a value that may be missing is read by
/// [`read_optional`](crate::read_optional).
impl<'de, T: Deserialize<'de>> Deserialize<'de> for Option<T> {
    ghost reads = { option_reads T.reads };

    ghost takes = { T.takes };

    ghost faults = { T.faults };

    ghost grows = { T.grows };

    fn deserialize(alloc: Global, node: Node<'_, 'de>) -> Result<Option<T>, Error> {
        Ok(Some(T::deserialize(alloc, node)?))
    }

    fn from_tree(alloc: Global, tree: Tree<'de>) -> Result<Option<T>, Error> {
        Ok(Some(T::from_tree(alloc, tree)?))
    }
}
