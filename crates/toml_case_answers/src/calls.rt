//! Lists of calls on a `Serializer`, and what they come to.
ghost use Rattle.std.specs.Prelude.{[]};

use crate::escapes::{spread, unescape};
use basic_toml::{Float, Serialize, Serializer, WriteError};
use std::alloc::{AllocError, Global};
use std::str;

// A part that makes no call: the calls after it are its parts.
struct Silent;

impl Serialize for Silent {
    ghost calls = { λ _. [] };

    #[tactic(auto, using(basic_toml_write::proofs::OneCallIsSent::sends_nothing))]
    fn serialize(&self, alloc: Global, ser: &mut Serializer) -> Result<(), WriteError> {
        let _ = alloc;
        let _ = ser;
        Ok(())
    }
}

/// What a list of calls came to: how many were taken, and the text or the error.
#[derive(Drop)]
pub struct Outcome {
    pub(crate) taken: usize,
    pub(crate) answer: Result<String, WriteError>,
    // Whether each call after the first that was refused met the same error.
    pub(crate) stayed: bool,
}

// A call by its name and what stands after the colon. A name that is none is a type's own error.
fn make(
    alloc: Global,
    ser: &mut Serializer,
    name: &str,
    argument: &[u8],
) -> Result<(), WriteError> {
    let text = str::from_utf8(argument).unwrap_or("");
    match name {
        "seq" => ser.serialize_seq(None),
        "tuple" => ser.serialize_tuple(0),
        "tuple-struct" => ser.serialize_tuple_struct("Tuple", 0),
        "map" => ser.serialize_map(None),
        "struct" => ser.serialize_struct("Record", 0),
        "end" => ser.end(),
        "field" => ser.serialize_field(text, &Silent),
        "key" => ser.serialize_key(&Silent),
        "value" => ser.serialize_value(&Silent),
        "element" => ser.serialize_element(&Silent),
        "some" => ser.serialize_some(&Silent),
        "newtype" => ser.serialize_newtype_struct("New", &Silent),
        "unit" => ser.serialize_unit(),
        "unit-struct" => ser.serialize_unit_struct("Unit"),
        "newtype-variant" => ser.serialize_newtype_variant("Enum", 0, text, &Silent),
        "tuple-variant" => ser.serialize_tuple_variant("Enum", 0, text, 0),
        "struct-variant" => ser.serialize_struct_variant("Enum", 0, text, 0),
        _ => make_scalar(alloc, ser, name, argument, text),
    }
}

fn make_scalar(
    alloc: Global,
    ser: &mut Serializer,
    name: &str,
    argument: &[u8],
    text: &str,
) -> Result<(), WriteError> {
    match name {
        "none" => ser.serialize_none(),
        "bool" => ser.serialize_bool(text == "true"),
        "str" => ser.serialize_str(text),
        "variant" => ser.serialize_unit_variant("Enum", 0, text),
        "char" => ser.serialize_char(text.chars().next().unwrap_or('?')),
        "bytes" => ser.serialize_bytes(argument),
        "float" => match Float::parse(alloc, text)? {
            Some(float) => ser.serialize_float(&float),
            None => Err(WriteError::custom(alloc, "no float")),
        },
        _ => make_integer(alloc, ser, name, text),
    }
}

fn make_integer(
    alloc: Global,
    ser: &mut Serializer,
    name: &str,
    text: &str,
) -> Result<(), WriteError> {
    match name {
        "i8" => ser.serialize_i8(text.parse::<i8>().unwrap_or(0)),
        "i16" => ser.serialize_i16(text.parse::<i16>().unwrap_or(0)),
        "i32" => ser.serialize_i32(text.parse::<i32>().unwrap_or(0)),
        "i64" => ser.serialize_i64(text.parse::<i64>().unwrap_or(0)),
        "u8" => ser.serialize_u8(text.parse::<u8>().unwrap_or(0)),
        "u16" => ser.serialize_u16(text.parse::<u16>().unwrap_or(0)),
        "u32" => ser.serialize_u32(text.parse::<u32>().unwrap_or(0)),
        "u64" => ser.serialize_u64(text.parse::<u64>().unwrap_or(0)),
        _ => Err(WriteError::custom(alloc, "no such call")),
    }
}

/// Makes the calls of a line.
pub fn come_to(alloc: Global, line: &str) -> Result<Outcome, AllocError> {
    let line = spread(alloc, line)?;
    let mut ser = Serializer::new(alloc);
    let mut taken = 0usize;
    let mut refused: Option<WriteError> = None;
    let mut stayed = true;
    for word in line.as_str().split(' ') {
        if word.is_empty() {
            continue;
        }
        let (name, argument) = word.split_once(':').unwrap_or((word, ""));
        let argument = unescape(alloc, argument)?;
        let answer = make(alloc, &mut ser, name, argument.as_slice());
        match (answer, &refused) {
            (Ok(()), None) => taken = taken.saturating_add(1),
            (Ok(()), Some(_)) => stayed = false,
            (Err(error), None) => {
                stayed = ser.has_refused();
                refused = Some(error);
            }
            (Err(error), Some(first)) => {
                let first = format!(in alloc; "{first}")?;
                let error = format!(in alloc; "{error}")?;
                stayed = stayed && first == error;
            }
        }
    }
    let finished = ser.finish();
    let answer = match (finished, refused) {
        (finished, None) => finished,
        (Ok(text), Some(_)) => {
            stayed = false;
            Ok(text)
        }
        (Err(last), Some(first)) => {
            let last_text = format!(in alloc; "{last}")?;
            let first_text = format!(in alloc; "{first}")?;
            stayed = stayed && first_text == last_text;
            Err(first)
        }
    };
    Ok(Outcome {
        taken,
        answer,
        stayed,
    })
}
