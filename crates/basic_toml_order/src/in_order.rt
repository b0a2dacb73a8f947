//! Whether a table has its rows first already, at every depth.
//!
//! The walk only reads. That a key stands once in each table is promised of each table, and is not looked at.
ghost use Rattle.std.specs.Prelude.{IsTrue};
ghost use Rattle.basic_toml_value.specs.Data as d;
ghost use Rattle.basic_toml_value.specs.Entries.{seen};
ghost use Rattle.basic_toml_value.specs.View.{view, entries, items_view};
ghost use Rattle.basic_toml_order.specs.RowsFirst as f;
ghost use Rattle.basic_toml_order.specs.Sound.{is_sound, are_sound, hold_sound};

use basic_toml_layout::is_section;
use basic_toml_value::{Pair, Table, Value};

// A value, and elements: whether each table in them has its rows first.
#[cycle(looks)]
fn is_in_order(value: &Value) -> bool
    ensures order { IsTrue result → IsTrue (f.is_in_order (view value.now)) }
    ensures sound { IsTrue result → IsTrue (is_sound (view value.now)) }
{
    match value {
        Value::Array(values) => are_elements_in_order(values.as_slice()),
        Value::Table(table) => is_table_in_order(table),
        Value::Integer(number) => {
            // What is promised of this number, its range, is all that is needed of it.
            let _number = *number;
            true
        }
        _ => true,
    }
}

#[cycle(looks)]
pub fn are_elements_in_order(values: &[Value]) -> bool
    ensures order { IsTrue result → IsTrue (f.hold_in_order (items_view values.now)) }
    ensures sound { IsTrue result → IsTrue (are_sound (items_view values.now)) }
{
    for i in 0..values.len() {
        if !is_in_order(&values[i]) {
            return false;
        }
    }
    true
}

// Whether a table has its rows first, and so has each table in it.
#[cycle(looks)]
pub fn is_table_in_order(table: &Table) -> bool
    ensures order { IsTrue result → IsTrue (f.is_in_order (d.table (entries table.now))) }
    ensures sound { IsTrue result → IsTrue (is_sound (d.table (entries table.now))) }
{
    are_pairs_in_order(table.entries())
}

#[cycle(looks)]
fn are_pairs_in_order(pairs: &[Pair<Value>]) -> bool
    ensures order { IsTrue result → IsTrue (f.is_in_order (d.table (entries (seen pairs.now)))) }
    ensures sound { IsTrue result → IsTrue (hold_sound (entries (seen pairs.now))) }
{
    let mut is_late = false;
    for i in 0..pairs.len() {
        let pair = &pairs[i];
        if is_section(&pair.value) {
            is_late = true;
        } else if is_late {
            return false;
        }
        if !is_in_order(&pair.value) {
            return false;
        }
    }
    true
}
