//! How deep arrays and tables nest in a value.
//!
//! The walk only reads, and goes no deeper than it is asked for. What is promised of numbers, texts and keys is all that
//! is needed of them.
ghost use Rattle.std.specs.Prelude.{◌≡◌, true, nat_le};
ghost use Rattle.basic_toml_value.specs.Data as d;
ghost use Rattle.basic_toml_value.specs.Entries.{seen};
ghost use Rattle.basic_toml_value.specs.View.{view, entries, items_view};
ghost use Rattle.basic_toml_grammar.specs.Depth.{depth, depth_of_items, depth_of_members};
ghost use Rattle.basic_toml_layout.specs.Valid.{IsValid, AreValid, HoldsValid};

use basic_toml_value::{Pair, Table, Value};

/// Whether arrays and tables nest at most so many deep in a value, the value itself counted.
#[cycle(nests)]
pub(crate) fn value_nests_within(value: &Value, room: usize) -> bool
    ensures within { result ≡ nat_le (depth (view value.now)) room }
    ensures valid { result ≡ true → IsValid (view value.now) }
{
    match value {
        Value::Integer(number) => {
            let _number = *number;
            true
        }
        Value::Float(float) => {
            let _text = float.as_str();
            true
        }
        Value::Boolean(_) => true,
        Value::String(_text) => true,
        Value::Array(values) => room > 0 && elements_nest_within(values.as_slice(), room - 1),
        Value::Table(table) => table_nests_within(table, room),
    }
}

#[cycle(nests)]
fn elements_nest_within(values: &[Value], room: usize) -> bool
    ensures within { result ≡ nat_le (depth_of_items (items_view values.now)) room }
    ensures valid { result ≡ true → AreValid (items_view values.now) }
{
    for i in 0..values.len() {
        if !value_nests_within(&values[i], room) {
            return false;
        }
    }
    true
}

/// Whether arrays and tables nest at most so many deep in a table, the table itself counted.
#[cycle(nests)]
pub(crate) fn table_nests_within(table: &Table, room: usize) -> bool
    ensures within { result ≡ nat_le (depth (d.table (entries table.now))) room }
    ensures valid { result ≡ true → IsValid (d.table (entries table.now)) }
{
    room > 0 && entries_nest_within(table.entries(), room - 1)
}

#[cycle(nests)]
fn entries_nest_within(pairs: &[Pair<Value>], room: usize) -> bool
    ensures within { result ≡ nat_le (depth_of_members (entries (seen pairs.now))) room }
    ensures valid { result ≡ true → HoldsValid (entries (seen pairs.now)) }
{
    for i in 0..pairs.len() {
        let pair = &pairs[i];
        if !value_nests_within(&pair.value, room) {
            return false;
        }
    }
    true
}
