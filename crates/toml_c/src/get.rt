//! The value at a path.
ghost use Rattle.std.specs.Prelude.{◌≡◌, IfOk, string_bytes};
ghost use Rattle.basic_toml.specs.View.{view};
ghost use Rattle.toml_c.specs.Gets as spec;

use crate::answer::{DONE, OUT_OF_MEMORY, REFUSED, put};
use crate::document::table_of;
use basic_toml::Value;
use std::alloc::{AllocError, Global};
use std::str;
use toml_path::{PathError, Step, steps_of, value_at};

// The status where nothing stands at the path, and where the path is malformed.
const NOTHING_THERE: u32 = 2;

const NO_PATH: u32 = 4;

/// The value at a path.
#[repr(C)]
#[derive(Clone, Copy, Debug)]
pub struct TomlValue {
    /// 0 where it was found, 1 where the text was refused, 2 where nothing stands at the path, 3 where memory was
    /// refused, and 4 where the path is malformed.
    pub status: u32,
    /// 1 for a string, 2 for an integer, 3 for a float, 4 for a boolean, 5 for an array, 6 for a table; else 0.
    pub kind: u32,
    /// An integer; 1 for `true`; else 0.
    pub number: i64,
    /// How many elements or keys an array or a table has; else 0.
    pub count: usize,
    /// How many bytes the text has, whether or not there was room for them.
    pub length: usize,
}

/// Reads a text and finds the value at a path, as `dependencies.serde.version` or `bin[1].name`; the empty path leads
/// to the whole table. The text of a scalar goes to the front of `output`, as much of it as there is room for: that of
/// a string, a float, an integer, or `true` or `false`. An array and a table have none.
///
/// A length above that of `output` asks for another call, with more room. Where nothing is found, nothing is written.
#[unsafe(no_mangle)]
pub extern "C" fn toml_c_get(
    alloc: Global,
    input: &[u8],
    path: &[u8],
    output: &mut [u8],
) -> TomlValue
    ensures { spec.Gets input.now path.now output.old output.new result }
{
    match steps_in(alloc, path) {
        Ok(steps) => get(alloc, input, steps.as_slice(), output),
        Err(PathError::Malformed) => not_found(NO_PATH),
        Err(PathError::OutOfMemory) => not_found(OUT_OF_MEMORY),
    }
}

fn not_found(status: u32) -> TomlValue
    ensures { result ≡ spec.not_found status }
{
    TomlValue {
        status,
        kind: 0,
        number: 0,
        count: 0,
        length: 0,
    }
}

// The steps of a path in bytes; one that is not UTF-8 is malformed.
fn steps_in(alloc: Global, path: &[u8]) -> Result<Vec<Step<'_>>, PathError>
    ensures { spec.AnswersPath path.now result }
{
    match str::from_utf8(path) {
        Ok(path) => steps_of(alloc, path),
        Err(_) => Err(PathError::Malformed),
    }
}

fn get(alloc: Global, input: &[u8], steps: &[Step<'_>], output: &mut [u8]) -> TomlValue
    ensures { spec.Finds input.now (spec.steps_seen steps.now) output.old output.new result }
{
    match table_of(alloc, input) {
        Ok(table) => get_in(alloc, &Value::Table(table), steps, output),
        Err(error) if error.is_out_of_memory() => not_found(OUT_OF_MEMORY),
        Err(_) => not_found(REFUSED),
    }
}

fn get_in(alloc: Global, value: &Value, steps: &[Step<'_>], output: &mut [u8]) -> TomlValue
    ensures { spec.FindsIn (view value.now) (spec.steps_seen steps.now) output.old output.new result }
{
    match value_at(value, steps) {
        Some(value) => tell(alloc, value, output),
        None => not_found(NOTHING_THERE),
    }
}

fn tell(alloc: Global, value: &Value, output: &mut [u8]) -> TomlValue
    ensures { spec.Tells (view value.now) output.old output.new result }
{
    match text_of(alloc, value) {
        Ok(text) => {
            let text = text.as_bytes();
            put(output, text);
            TomlValue {
                status: DONE,
                kind: kind_of(value),
                number: number_of(value),
                count: count_of(value),
                length: text.len(),
            }
        }
        Err(_) => not_found(OUT_OF_MEMORY),
    }
}

fn kind_of(value: &Value) -> u32
    ensures { result ≡ spec.kind_of (view value.now) }
{
    match value {
        Value::String(_) => 1,
        Value::Integer(_) => 2,
        Value::Float(_) => 3,
        Value::Boolean(_) => 4,
        Value::Array(_) => 5,
        Value::Table(_) => 6,
    }
}

fn number_of(value: &Value) -> i64
    ensures { result ≡ spec.number_of (view value.now) }
{
    match value {
        Value::Integer(number) => *number,
        Value::Boolean(truth) => { if *truth { 1 } else { 0 } }
        _ => 0,
    }
}

fn count_of(value: &Value) -> usize
    ensures { result ≡ spec.count_of (view value.now) }
{
    if let Some(values) = value.as_array() {
        return values.len();
    }
    match value.as_table() {
        Some(table) => table.len(),
        None => 0,
    }
}

fn text_of(alloc: Global, value: &Value) -> Result<String, AllocError>
    ensures { IfOk result (λ text. string_bytes text ≡ spec.text_of (view value.now)) }
{
    match value {
        Value::String(text) => String::from_str(alloc, text.as_str()),
        Value::Float(float) => String::from_str(alloc, float.as_str()),
        Value::Integer(number) => format!(in alloc; "{number}"),
        Value::Boolean(truth) => format!(in alloc; "{truth}"),
        Value::Array(_) | Value::Table(_) => Ok(String::new(alloc)),
    }
}
