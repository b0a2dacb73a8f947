//! Values, tables and floats of `basic_toml` as fields of a type that derives.
//!
//! They are read and written whatever they hold, by [`crate::from_str`] and [`crate::to_string`]; other formats of
//! `serde` refuse floats.
use basic_toml::{Float, PushRefusal, Table, Text, Value};
use basic_toml_value::NESTING_LIMIT;
use serde::{
    Described, Deserialize, DeserializeOwned, Deserializer, Format, Kind, Serialize, Serializer,
};
use std::alloc::Global;
use std::str;

/// A [`Value`] as a field: any value of a text.
#[derive(Debug, Drop, PartialEq)]
pub struct TomlValue(pub Value);

/// A [`Table`] as a field: a table with keys that no type names.
#[derive(Debug, Drop, PartialEq)]
pub struct TomlTable(pub Table);

/// A [`Float`] as a field: a float by its text, of which no digit is lost.
#[derive(Debug, Drop, PartialEq)]
pub struct TomlFloat(pub Float);

impl Described for TomlValue {}

impl Serialize for TomlValue {
    fn serialize<S: Serializer>(&self, out: &mut S) -> Result<(), S::Error> {
        send(&self.0, out, NESTING_LIMIT)
    }
}

impl Described for TomlTable {}

impl Serialize for TomlTable {
    fn serialize<S: Serializer>(&self, out: &mut S) -> Result<(), S::Error> {
        send_entries(&self.0, out, NESTING_LIMIT)
    }
}

impl Described for TomlFloat {}

impl Serialize for TomlFloat {
    fn serialize<S: Serializer>(&self, out: &mut S) -> Result<(), S::Error> {
        send_float(&self.0, out)
    }
}

#[cycle(send)]
fn send<S: Serializer>(value: &Value, out: &mut S, depth: usize) -> Result<(), S::Error> {
    match value {
        Value::Integer(number) => out.i64(*number),
        Value::Float(float) => send_float(float, out),
        Value::Boolean(truth) => out.bool(*truth),
        Value::String(text) => out.str(text.as_str()),
        Value::Array(values) if depth > 0 => send_elements(values.as_slice(), out, depth - 1),
        Value::Table(table) if depth > 0 => send_entries(table, out, depth - 1),
        Value::Array(_) | Value::Table(_) => Err(out.custom("nested too deeply")),
    }
}

#[cycle(send)]
fn send_elements<S: Serializer>(
    values: &[Value],
    out: &mut S,
    depth: usize,
) -> Result<(), S::Error> {
    out.begin_seq(Some(values.len()))?;
    for value in values {
        send(value, out, depth)?;
    }
    out.end_seq()
}

#[cycle(send)]
fn send_entries<S: Serializer>(table: &Table, out: &mut S, depth: usize) -> Result<(), S::Error> {
    out.begin_map(Some(table.len()))?;
    for (key, value) in table {
        out.key(key)?;
        send(value, out, depth)?;
    }
    out.end_map()
}

/// A float by its text, where else the members of a map would come: no other value has this form.
fn send_float<S: Serializer>(float: &Float, out: &mut S) -> Result<(), S::Error> {
    out.flatten_next()?;
    out.bytes(float.as_str().as_bytes())
}

impl<'de> Deserialize<'de> for TomlValue {
    fn deserialize<F: Format>(
        alloc: Global,
        from: &mut Deserializer<'de, '_, F>,
    ) -> Result<TomlValue, F::Error> {
        Ok(TomlValue(fetch(alloc, from, NESTING_LIMIT)?))
    }
}

impl DeserializeOwned for TomlValue {
    fn deserialize_owned<F: Format>(
        alloc: Global,
        from: &mut Deserializer<'_, '_, F>,
    ) -> Result<TomlValue, F::Error> {
        Ok(TomlValue(fetch(alloc, from, NESTING_LIMIT)?))
    }
}

impl<'de> Deserialize<'de> for TomlTable {
    fn deserialize<F: Format>(
        alloc: Global,
        from: &mut Deserializer<'de, '_, F>,
    ) -> Result<TomlTable, F::Error> {
        Ok(TomlTable(fetch_entries(alloc, from, NESTING_LIMIT)?))
    }
}

impl DeserializeOwned for TomlTable {
    fn deserialize_owned<F: Format>(
        alloc: Global,
        from: &mut Deserializer<'_, '_, F>,
    ) -> Result<TomlTable, F::Error> {
        Ok(TomlTable(fetch_entries(alloc, from, NESTING_LIMIT)?))
    }
}

impl<'de> Deserialize<'de> for TomlFloat {
    fn deserialize<F: Format>(
        alloc: Global,
        from: &mut Deserializer<'de, '_, F>,
    ) -> Result<TomlFloat, F::Error> {
        Ok(TomlFloat(fetch_only_float(alloc, from)?))
    }
}

impl DeserializeOwned for TomlFloat {
    fn deserialize_owned<F: Format>(
        alloc: Global,
        from: &mut Deserializer<'_, '_, F>,
    ) -> Result<TomlFloat, F::Error> {
        Ok(TomlFloat(fetch_only_float(alloc, from)?))
    }
}

#[cycle(fetch)]
fn fetch<F: Format>(
    alloc: Global,
    from: &mut Deserializer<'_, '_, F>,
    depth: usize,
) -> Result<Value, F::Error> {
    match from.peek()? {
        Kind::Bool => Ok(Value::Boolean(from.bool()?)),
        Kind::Unsigned | Kind::Signed => Ok(Value::Integer(from.i64()?)),
        Kind::Float => Ok(Value::Float(fetch_float(alloc, from)?)),
        Kind::Str => Ok(Value::String(Text::from(from.string(alloc)?))),
        Kind::Seq if depth > 0 => Ok(Value::Array(fetch_elements(alloc, from, depth - 1)?)),
        Kind::Map if depth > 0 => Ok(Value::Table(fetch_entries(alloc, from, depth - 1)?)),
        Kind::Seq | Kind::Map => Err(from.custom("nested too deeply")),
        Kind::Unit | Kind::Bytes => Err(from.invalid()),
    }
}

#[cycle(fetch)]
fn fetch_elements<F: Format>(
    alloc: Global,
    from: &mut Deserializer<'_, '_, F>,
    depth: usize,
) -> Result<Vec<Value>, F::Error> {
    from.begin_seq()?;
    let mut values = Vec::new(alloc);
    for _ in 0..u64::MAX {
        if !from.next_item()? {
            break;
        }
        if values.push(fetch(alloc, from, depth)?).is_err() {
            return Err(from.no_memory());
        }
    }
    Ok(values)
}

#[cycle(fetch)]
fn fetch_entries<F: Format>(
    alloc: Global,
    from: &mut Deserializer<'_, '_, F>,
    depth: usize,
) -> Result<Table, F::Error> {
    from.begin_map()?;
    let mut table = Table::new(alloc);
    for _ in 0..u64::MAX {
        if !from.next_entry()? {
            break;
        }
        let key = from.string(alloc)?;
        let value = fetch(alloc, from, depth)?;
        match table.push(key, value) {
            Ok(()) => {}
            Err((PushRefusal::KeyPresent, key, _)) => return Err(from.duplicate(key.as_str())),
            Err((PushRefusal::OutOfMemory, _, _)) => return Err(from.no_memory()),
        }
    }
    Ok(table)
}

/// A float, and nothing that is read as one.
fn fetch_only_float<F: Format>(
    alloc: Global,
    from: &mut Deserializer<'_, '_, F>,
) -> Result<Float, F::Error> {
    match from.peek()? {
        Kind::Float => fetch_float(alloc, from),
        _ => {
            from.f64()?;
            Err(from.custom("invalid type: integer, expected a float"))
        }
    }
}

/// The float that comes next, whose bytes are those of its text.
fn fetch_float<F: Format>(
    alloc: Global,
    from: &mut Deserializer<'_, '_, F>,
) -> Result<Float, F::Error> {
    let bytes = from.byte_buf(alloc)?;
    let Ok(text) = str::from_utf8(bytes.as_slice()) else {
        return Err(from.invalid());
    };
    match Float::parse(alloc, text) {
        Ok(Some(float)) => Ok(float),
        Ok(None) => Err(from.invalid()),
        Err(_) => Err(from.no_memory()),
    }
}
