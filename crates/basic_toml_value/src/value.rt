//! Values, and tables of them.
ghost use Rattle.std.specs.Prelude.{◌≡◌, ◌&&◌, IfOk, length, map, option_map};
ghost use Rattle.std.specs.Option.{option_copied};
ghost use Rattle.std.specs.Ordering.{on};
ghost use Rattle.std.specs.Str.{bytes_eq};
ghost use Rattle.basic_toml_value.specs.Data.{integer_in, float_in, boolean_in, string_in, array_in, table_in};
ghost use Rattle.basic_toml_value.specs.Text.{text_bytes};
ghost use Rattle.basic_toml_value.specs.Entries.{seen, texts_of};
ghost use Rattle.basic_toml_value.specs.Equal.{data_eq, items_eq, members_eq};
ghost use Rattle.basic_toml_value.specs.View.{view, entries, items_view};

use crate::pairs::{Pair, Pairs};
use crate::text::Text;
use basic_toml_numbers::Float;
use std::alloc::{AllocError, Global};

/// How deep arrays and tables nest at most: the depth of a document that is read, and of a value that is written.
pub const NESTING_LIMIT: usize = 128;

/// A table: keys with their values, in order, each key once (TOML v0.5.0, "Table").
pub type Table = Pairs<Value>;

/// A TOML value: a value of a row, or what a header leads to (TOML v0.5.0, without "Offset Date-Time" to "Local Time").
///
/// `as_integer` and its like answer what it holds where it is of that kind, and `None` elsewhere:
///
/// ```text
/// fn port_of(settings: &Table) -> Option<i64> {
///     settings.get("port")?.as_integer()
/// }
/// ```
///
/// This is from `toml_callers`.
#[derive(Debug, Drop)]
pub enum Value {
    /// A whole number ("Integer").
    Integer(i64),
    /// A float, as its text ("Float").
    Float(Float),
    /// `true` or `false` ("Boolean").
    Boolean(bool),
    /// A text ("String").
    String(Text),
    /// An array ("Array", "Array of Tables"), whose elements may be of different kinds.
    Array(Vec<Value>),
    /// A table ("Table", "Inline Table").
    Table(Table),
}

impl Value {
    /// A copy.
    ///
    /// # Errors
    ///
    /// `AllocError` where memory was refused.
    #[cycle(copies)]
    pub fn clone(&self) -> Result<Value, AllocError>
        ensures { IfOk result (λ copy. view copy ≡ view self.now) }
    {
        match self {
            Value::Integer(number) => Ok(Value::Integer(*number)),
            Value::Float(float) => Ok(Value::Float(float.clone()?)),
            Value::Boolean(truth) => Ok(Value::Boolean(*truth)),
            Value::String(text) => Ok(Value::String(text.clone()?)),
            Value::Array(values) => {
                let copies = clone_elements(*values.allocator(), values.as_slice())?;
                Ok(Value::Array(copies))
            }
            Value::Table(table) => Ok(Value::Table(table.clone()?)),
        }
    }

    /// The number, if it is an integer.
    pub fn as_integer(&self) -> Option<i64>
        ensures { result ≡ integer_in (view self.now) }
    {
        match self {
            Value::Integer(number) => Some(*number),
            _ => None,
        }
    }

    /// The float, if it is one; `Float::as_str` is its text.
    pub fn as_float(&self) -> Option<&Float>
        ensures { option_copied result ≡ float_in (view self.now) }
    {
        match self {
            Value::Float(float) => Some(float),
            _ => None,
        }
    }

    /// The truth value, if it is one.
    pub fn as_bool(&self) -> Option<bool>
        ensures { result ≡ boolean_in (view self.now) }
    {
        match self {
            Value::Boolean(truth) => Some(*truth),
            _ => None,
        }
    }

    /// The text, if it is a string.
    pub fn as_str(&self) -> Option<&str>
        ensures { option_copied result ≡ string_in (view self.now) }
    {
        match self {
            Value::String(text) => Some(text.as_str()),
            _ => None,
        }
    }

    /// The elements in order, if it is an array.
    pub fn as_array(&self) -> Option<&[Value]>
        ensures { option_map (λ values. items_view values.now) result ≡ array_in (view self.now) }
    {
        match self {
            Value::Array(values) => Some(values.as_slice()),
            _ => None,
        }
    }

    /// The table, if it is one.
    pub fn as_table(&self) -> Option<&Table>
        ensures { option_map (λ table. entries table.now) result ≡ table_in (view self.now) }
    {
        match self {
            Value::Table(table) => Some(table),
            _ => None,
        }
    }
}

impl Table {
    /// A copy.
    ///
    /// # Errors
    ///
    /// `AllocError` where memory was refused.
    #[cycle(copies)]
    pub fn clone(&self) -> Result<Table, AllocError>
        ensures { IfOk result (λ copy. entries copy ≡ entries self.now) }
    {
        let copies = clone_entries(self.allocator(), self.entries())?;
        let index = self.index().clone(self.allocator())?;
        Ok(Pairs::from_parts(copies, index))
    }
}

#[cycle(copies)]
fn clone_elements(alloc: Global, values: &[Value]) -> Result<Vec<Value>, AllocError>
    ensures { IfOk result (λ copies. map view copies.items ≡ map view values.now) }
{
    let mut copies = Vec::with_capacity(alloc, values.len())?;
    for value in values {
        copies.push(value.clone()?)?;
    }
    Ok(copies)
}

#[cycle(copies)]
fn clone_entries(alloc: Global, pairs: &[Pair<Value>]) -> Result<Vec<Pair<Value>>, AllocError>
    ensures data { IfOk result (λ copies. entries (seen copies.items) ≡ entries (seen pairs.now)) }
    ensures texts { IfOk result (λ copies. texts_of copies.items ≡ texts_of pairs.now) }
{
    let mut copies = Vec::with_capacity(alloc, pairs.len())?;
    for pair in pairs {
        let key = pair.key.clone()?;
        let value = pair.value.clone()?;
        copies.push(Pair { key, value })?;
    }
    Ok(copies)
}

impl PartialEq for Value {
    ghost use Rattle.std.proofs.lemmas.Cmp.{on_equiv};
    ghost use Rattle.std.specs.Cmp.{partial_equiv_from_equiv};
    ghost use Rattle.basic_toml_value.specs.EqualLaws.{data_eq_equivalence};

    ghost eq = { on view data_eq };

    ghost laws = { partial_equiv_from_equiv (on_equiv view data_eq_equivalence) };

    fn eq(&self, other: &Value) -> bool {
        same_values(self, other)
    }
}

impl Eq for Value {
    ghost use Rattle.std.proofs.lemmas.Cmp.{on_equiv};
    ghost use Rattle.basic_toml_value.specs.EqualLaws.{data_eq_equivalence};

    ghost laws = { on_equiv view data_eq_equivalence };
}

impl PartialEq for Table {
    ghost use Rattle.std.proofs.lemmas.Cmp.{on_equiv};
    ghost use Rattle.std.specs.Cmp.{partial_equiv_from_equiv};
    ghost use Rattle.basic_toml_value.specs.EqualLaws.{members_eq_equivalence};

    ghost eq = { on entries members_eq };

    ghost laws = { partial_equiv_from_equiv (on_equiv entries members_eq_equivalence) };

    fn eq(&self, other: &Table) -> bool {
        same_tables(self, other)
    }
}

impl Eq for Table {
    ghost use Rattle.std.proofs.lemmas.Cmp.{on_equiv};
    ghost use Rattle.basic_toml_value.specs.EqualLaws.{members_eq_equivalence};

    ghost laws = { on_equiv entries members_eq_equivalence };
}

#[cycle(same)]
fn same_values(left: &Value, right: &Value) -> bool
    ensures { result ≡ data_eq (view left.now) (view right.now) }
{
    match (left, right) {
        (Value::Integer(left), Value::Integer(right)) => left == right,
        (Value::Float(left), Value::Float(right)) => left == right,
        (Value::Boolean(left), Value::Boolean(right)) => left == right,
        (Value::String(left), Value::String(right)) => left.as_str() == right.as_str(),
        (Value::Array(left), Value::Array(right)) => same_elements(
            left.as_slice(),
            right.as_slice(),
        ),
        (Value::Table(left), Value::Table(right)) => same_tables(left, right),
        _ => false,
    }
}

#[cycle(same)]
#[tactic(auto, using(crate::proofs::LengthsDecide::lengths_decide))]
fn same_elements(left: &[Value], right: &[Value]) -> bool
    ensures { result ≡ items_eq (items_view left.now) (items_view right.now) }
{
    if left.len() != right.len() {
        return false;
    }
    for i in 0..left.len() {
        if !same_values(&left[i], &right[i]) {
            return false;
        }
    }
    true
}

#[cycle(same)]
#[tactic(auto, using(crate::proofs::LengthsDecide::lengths_decide))]
fn same_tables(left: &Table, right: &Table) -> bool
    ensures { result ≡ members_eq (entries left.now) (entries right.now) }
{
    left.len() == right.len() && same_entries(left.entries(), right.entries())
}

#[cycle(same)]
fn same_entries(left: &[Pair<Value>], right: &[Pair<Value>]) -> bool
    requires { length left.now ≡ length right.now }
    ensures { result ≡ members_eq (entries (seen left.now)) (entries (seen right.now)) }
{
    for i in 0..left.len() {
        if !same_pairs(&left[i], &right[i]) {
            return false;
        }
    }
    true
}

#[cycle(same)]
fn same_pairs(left: &Pair<Value>, right: &Pair<Value>) -> bool
    ensures { result ≡ (bytes_eq (text_bytes left.now.key) (text_bytes right.now.key)
        && data_eq (view left.now.value) (view right.now.value)) }
{
    left.key.as_str() == right.key.as_str() && same_values(&left.value, &right.value)
}
