//! Scalars, plain and with their types.
ghost use Rattle.std.specs.Prelude.{◌≡◌, Ok, IfOk, IfErr, option_map};
ghost use Rattle.basic_toml_value.specs.View.{view};
ghost use Rattle.json.specs.Value.{members_view};
ghost use Rattle.toml_from_json.specs.Meaning as spec;
ghost use Rattle.toml_from_json.specs.Meaning.{IsRefused, number_data, tagged_data};

use crate::refusal::{Fault, NoTable, refused};
use basic_toml_numbers::integer_of;
use basic_toml_value::{Float, Text, Value};
use json::Value as Json;
use std::alloc::{AllocError, Global};

/// A number of JSON: an integer where it is whole, else a float by its text.
pub fn number_of(alloc: Global, text: &str) -> Result<Value, NoTable>
    ensures ok { IfOk result (λ value. number_data text.now ≡ Ok (view value)) }
    ensures err { IfErr result (IsRefused (number_data text.now)) }
{
    if let Some(number) = integer_of(text) {
        return Ok(Value::Integer(number));
    }
    match Float::parse(alloc, text)? {
        Some(float) => Ok(Value::Float(float)),
        None => Err(refused(alloc, Fault::IntegerOutOfRange)),
    }
}

/// The type and the text of a scalar with its type: an object of these two keys alone, both of them strings.
#[tactic(auto, using(crate::proofs::PartsInTurn::no_tag))]
pub fn tag_of<'t>(members: &[(&'t str, Json<'t>)]) -> Option<(&'t str, &'t str)>
    ensures { option_map (λ t. (t.0.now, t.1.now)) result ≡ spec.tag_of (members_view members.now) }
{
    match members {
        [first, second] => tag(first.0, first.1.as_str(), second.0, second.1.as_str()),
        _ => None,
    }
}

fn tag<'t>(
    first: &str,
    one: Option<&'t str>,
    second: &str,
    other: Option<&'t str>,
) -> Option<(&'t str, &'t str)>
    ensures { option_map (λ t. (t.0.now, t.1.now)) result
        ≡ spec.tag first.now (option_map (λ t. t.now) one.entry) second.now (option_map (λ t. t.now) other.entry) }
{
    let (Some(one), Some(other)) = (one, other) else {
        return None;
    };
    match (first, second) {
        ("type", "value") => Some((one, other)),
        ("value", "type") => Some((other, one)),
        _ => None,
    }
}

/// A scalar, by its type and its text.
pub fn tagged_of(alloc: Global, kind: &str, text: &str) -> Result<Value, NoTable>
    ensures ok { IfOk result (λ value. tagged_data kind.now text.now ≡ Ok (view value)) }
    ensures err { IfErr result (IsRefused (tagged_data kind.now text.now)) }
{
    match kind {
        "integer" => match integer_of(text) {
            Some(number) => Ok(Value::Integer(number)),
            None => Err(refused(alloc, Fault::WrongValue)),
        },
        "float" => match float_or_whole(alloc, text)? {
            Some(float) => Ok(Value::Float(float)),
            None => Err(refused(alloc, Fault::WrongValue)),
        },
        "bool" => match text {
            "true" => Ok(Value::Boolean(true)),
            "false" => Ok(Value::Boolean(false)),
            _ => Err(refused(alloc, Fault::WrongValue)),
        },
        "string" => Ok(Value::String(Text::from_str(alloc, text)?)),
        "datetime" => Err(refused(alloc, Fault::OffsetDateTime)),
        "datetime-local" => Err(refused(alloc, Fault::LocalDateTime)),
        "date-local" => Err(refused(alloc, Fault::LocalDate)),
        "time-local" => Err(refused(alloc, Fault::LocalTime)),
        _ => Err(refused(alloc, Fault::UnknownType)),
    }
}

// A float; a whole number is one with `.0` behind it.
fn float_or_whole(alloc: Global, text: &str) -> Result<Option<Float>, AllocError>
    ensures { IfOk result (λ found. found ≡ spec.float_or_whole text.now) }
{
    match Float::parse(alloc, text)? {
        Some(float) => Ok(Some(float)),
        None => Float::parse(alloc, format!(in alloc; "{text}.0")?.as_str()),
    }
}
