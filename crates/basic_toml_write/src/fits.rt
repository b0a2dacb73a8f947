//! Whether a table of data can be laid out at once: no rule of writing refuses it. Its keys differ, and are not looked
//! at.
ghost use Rattle.std.specs.Prelude.{◌≡◌, true, false};
ghost use Rattle.basic_toml_value.specs.Entries.{seen};
ghost use Rattle.basic_toml_value.specs.View.{view, entries, items_view};
ghost use Rattle.basic_toml_write.specs.DataFits as f;
ghost use Rattle.basic_toml_write.specs.Impls.{data_calls, items_calls, members_calls};
ghost use Rattle.basic_toml_write.specs.Recordable.{AreRecordable};

use basic_toml_layout::{begins_with_table, is_section};
use basic_toml_value::{NESTING_LIMIT, Pair, Table, Value};

// A value within a row.
#[cycle(rows)]
fn fits_in_row(value: &Value, around: usize) -> bool
    ensures fits { result ≡ f.fits_in_row around (view value.now) }
    ensures recordable { result ≡ true → AreRecordable (data_calls (view value.now)) }
{
    match value {
        Value::Integer(number) => {
            // What is promised of this number, its range, is all that is needed of it.
            let _number = *number;
            true
        }
        Value::Float(float) => {
            // What is promised of this text, that it is a float, is all that is needed of it.
            let _text = float.as_str();
            true
        }
        Value::Boolean(_) => true,
        Value::String(_text) => true,
        Value::Array(values) => around < NESTING_LIMIT && fit_in_row(values.as_slice(), around + 1),
        Value::Table(_) => false,
    }
}

#[cycle(rows)]
fn fit_in_row(values: &[Value], around: usize) -> bool
    ensures fits { result ≡ f.items_fit_in_row around (items_view values.now) }
    ensures recordable { result ≡ true → AreRecordable (items_calls (items_view values.now)) }
{
    for i in 0..values.len() {
        if !fits_in_row(&values[i], around) {
            return false;
        }
    }
    true
}

// A table, where so many arrays and tables are open around it.
#[cycle(tables)]
pub fn table_fits(table: &Table, around: usize) -> bool
    ensures fits { result ≡ f.table_fits around (entries table.now) }
    ensures recordable { result ≡ true → AreRecordable (members_calls (entries table.now)) }
{
    around < NESTING_LIMIT && entries_fit(table.entries(), around + 1)
}

#[cycle(tables)]
fn entries_fit(pairs: &[Pair<Value>], around: usize) -> bool
    ensures fits { result ≡ f.members_fit around false (entries (seen pairs.now)) }
    ensures recordable { result ≡ true → AreRecordable (members_calls (entries (seen pairs.now))) }
{
    let mut is_late = false;
    for i in 0..pairs.len() {
        let pair = &pairs[i];
        if !entry_fits(&pair.value, around, is_late) {
            return false;
        }
        is_late = is_late || is_section(&pair.value);
    }
    true
}

#[cycle(tables)]
fn entry_fits(value: &Value, around: usize, is_late: bool) -> bool
    ensures fits { result ≡ f.entry_fits around is_late (view value.now) }
    ensures recordable { result ≡ true → AreRecordable (data_calls (view value.now)) }
{
    match value {
        Value::Table(table) => table_fits(table, around),
        Value::Array(values) => array_fits(values.as_slice(), around, is_late),
        _ => !is_late && fits_in_row(value, around),
    }
}

#[cycle(tables)]
fn array_fits(values: &[Value], around: usize, is_late: bool) -> bool
    ensures fits { result ≡ f.array_fits around is_late (items_view values.now) }
    ensures recordable { result ≡ true → AreRecordable (items_calls (items_view values.now)) }
{
    if around >= NESTING_LIMIT {
        return false;
    }
    if begins_with_table(values) {
        tables_fit(values, around + 1)
    } else {
        !is_late && fit_in_row(values, around + 1)
    }
}

#[cycle(tables)]
fn tables_fit(values: &[Value], around: usize) -> bool
    ensures fits { result ≡ f.tables_fit around (items_view values.now) }
    ensures recordable { result ≡ true → AreRecordable (items_calls (items_view values.now)) }
{
    for i in 0..values.len() {
        if !is_fitting_table(&values[i], around) {
            return false;
        }
    }
    true
}

#[cycle(tables)]
fn is_fitting_table(value: &Value, around: usize) -> bool
    ensures fits { result ≡ f.is_fitting_table around (view value.now) }
    ensures recordable { result ≡ true → AreRecordable (data_calls (view value.now)) }
{
    match value {
        Value::Table(table) => table_fits(table, around),
        _ => false,
    }
}
