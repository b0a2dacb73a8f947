//! Arrays and objects.
ghost use Rattle.std.specs.Prelude.{◌≡◌, ◌++◌, ◌∷◌, [], Ok, false, true, IfOk, IfErr, OnOk};
ghost use Rattle.basic_toml_value.specs.Data as d;
ghost use Rattle.basic_toml_value.specs.Pairs.{has_key};
ghost use Rattle.basic_toml_value.specs.View.{view, entries, items_view};
ghost use Rattle.json.specs.Value as j;
ghost use Rattle.json.specs.Value.{value_view, members_view};
ghost use Rattle.toml_from_json.specs.Meaning as spec;
ghost use Rattle.toml_from_json.specs.Meaning.{IsRefused, IsRepeated, data_of, items_of, object_value, members_in, at_key};

use crate::refusal::{Fault, NoTable, Refusal, refused, under};
use crate::scalar::{number_of, tag_of, tagged_of};
use basic_toml_value::{Table, Text, Value};
use json::Value as Json;
use std::alloc::Global;
use toml_json_text::Form;

/// The table that a JSON object means.
///
/// # Errors
///
/// The first fault in the order of the text, where the JSON has no TOML; and want of memory.
#[tactic(auto, using(crate::proofs::PartsInTurn::object_seen))]
pub fn table_of<'t>(alloc: Global, form: Form, json: &Json<'t>) -> Result<Table, NoTable>
    ensures ok { IfOk result (λ table. members_in form (value_view json.now) ≡ Ok (entries table)) }
    ensures err { IfErr result (IsRefused (members_in form (value_view json.now))) }
{
    match json {
        Json::Object(members) => members_of(alloc, form, members.as_slice()),
        _ => Err(refused(alloc, Fault::NoObject)),
    }
}

#[cycle(values)]
fn value_of<'t>(alloc: Global, form: Form, json: &Json<'t>) -> Result<Value, NoTable>
    ensures ok { IfOk result (λ value. data_of form (value_view json.now) ≡ Ok (view value)) }
    ensures err { IfErr result (IsRefused (data_of form (value_view json.now))) }
{
    match json {
        Json::Null => Err(refused(alloc, Fault::Null)),
        Json::Bool(truth) => match form {
            Form::Plain => Ok(Value::Boolean(*truth)),
            Form::Tagged => Err(refused(alloc, Fault::NoType)),
        },
        Json::Number(text) => match form {
            Form::Plain => number_of(alloc, *text),
            Form::Tagged => Err(refused(alloc, Fault::NoType)),
        },
        Json::String(text) => match form {
            Form::Plain => Ok(Value::String(Text::from_str(alloc, *text)?)),
            Form::Tagged => Err(refused(alloc, Fault::NoType)),
        },
        Json::Array(values) => Ok(Value::Array(elements_of(alloc, form, values.as_slice())?)),
        Json::Object(members) => object_of(alloc, form, members.as_slice()),
    }
}

#[cycle(values)]
fn object_of<'t>(
    alloc: Global,
    form: Form,
    members: &[(&'t str, Json<'t>)],
) -> Result<Value, NoTable>
    ensures ok { IfOk result (λ value. object_value form (members_view members.now) ≡ Ok (view value)) }
    ensures err { IfErr result (IsRefused (object_value form (members_view members.now))) }
{
    if let Form::Tagged = form {
        if let Some((kind, text)) = tag_of(members) {
            return tagged_of(alloc, kind, text);
        }
    }
    Ok(Value::Table(members_of(alloc, form, members)?))
}

#[cycle(values)]
fn elements_of<'t>(alloc: Global, form: Form, values: &[Json<'t>]) -> Result<Vec<Value>, NoTable>
    ensures ok { IfOk result (λ elements. items_of form (j.items_view values.now) ≡ Ok (items_view elements.items)) }
    ensures err { IfErr result (IsRefused (items_of form (j.items_view values.now))) }
{
    let mut elements = Vec::with_capacity(alloc, values.len())?;
    for i in 0..values.len() {
        let element = value_of(alloc, form, &values[i])?;
        if elements.push(element).is_err() {
            return Err(NoTable::OutOfMemory);
        }
    }
    Ok(elements)
}

#[cycle(values)]
fn members_of<'t>(
    alloc: Global,
    form: Form,
    members: &[(&'t str, Json<'t>)],
) -> Result<Table, NoTable>
    ensures ok { IfOk result (λ table. spec.members_of form [] (members_view members.now) ≡ Ok (entries table)) }
    ensures err { IfErr result (IsRefused (spec.members_of form [] (members_view members.now))) }
{
    let mut table = Table::new(alloc);
    table.reserve(members.len())?;
    for i in 0..members.len() {
        let member = &members[i];
        let value = member_of(alloc, form, member)?;
        put(alloc, &mut table, member.0, value)?;
    }
    Ok(table)
}

#[cycle(values)]
fn member_of<'t>(alloc: Global, form: Form, member: &(&'t str, Json<'t>)) -> Result<Value, NoTable>
    ensures ok { IfOk result (λ value. at_key member.now.0.now (data_of form (value_view member.now.1)) ≡ Ok (view value)) }
    ensures err { IfErr result (IsRefused (at_key member.now.0.now (data_of form (value_view member.now.1)))) }
{
    match value_of(alloc, form, &member.1) {
        Ok(value) => Ok(value),
        Err(e) => Err(under(alloc, member.0, e)),
    }
}

fn put(alloc: Global, table: &mut Table, key: &str, value: Value) -> Result<(), NoTable>
    ensures put { OnOk result (table.new ≡ table.old ++ (key.now, value) ∷ []) }
    ensures new { OnOk result (has_key table.old key.now ≡ false) }
    ensures repeated { IfErr result (IsRepeated key.now (has_key table.old key.now)) }
{
    if table.enter_value(key, value)?.is_new {
        return Ok(());
    }
    Err(NoTable::Refused(Refusal {
        fault: Fault::RepeatedKey,
        path: String::from_str(alloc, key)?,
    }))
}
