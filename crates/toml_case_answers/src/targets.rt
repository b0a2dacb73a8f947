//! What each type of `basic_toml` reads from a text, at its root or at the key `v`.
use crate::escapes::push_escaped;
use basic_toml::{Deserialize, Error, Float, Table, Value, from_str};
use std::alloc::{AllocError, Global};
use std::borrow::CowStr;
use std::collections::BTreeMap;
use std::fmt;
use toml_json_text::{Form, json_of, json_of_value};

// What a type reads at the root, or at the key `v`.
fn read_at<'de, T: Deserialize<'de> + Drop>(
    alloc: Global,
    is_root: bool,
    text: &'de str,
) -> Result<Option<T>, Error> {
    if is_root {
        return Ok(Some(from_str(alloc, text)?));
    }
    let mut map: BTreeMap<String, T> = from_str(alloc, text)?;
    Ok(map.remove("v"))
}

// What a number or a truth is printed as, or the error.
fn printed<'de, T: Deserialize<'de> + fmt::Display + Drop>(
    alloc: Global,
    is_root: bool,
    text: &'de str,
) -> Result<String, AllocError> {
    match read_at::<T>(alloc, is_root, text) {
        Ok(Some(value)) => format!(in alloc; "{value}"),
        Ok(None) => String::from_str(alloc, "nothing"),
        Err(error) => format!(in alloc; "{error}"),
    }
}

// A value as a case shows it.
trait Show {
    fn show(&self, alloc: Global, out: &mut String) -> Result<(), AllocError>;
}

// What a value is shown as, or the error.
fn shown<'de, T: Deserialize<'de> + Show + Drop>(
    alloc: Global,
    is_root: bool,
    text: &'de str,
) -> Result<String, AllocError> {
    match read_at::<T>(alloc, is_root, text) {
        Ok(Some(value)) => {
            let mut out = String::new(alloc);
            value.show(alloc, &mut out)?;
            Ok(out)
        }
        Ok(None) => String::from_str(alloc, "nothing"),
        Err(error) => format!(in alloc; "{error}"),
    }
}

fn push_quoted(out: &mut String, text: &str) -> Result<(), AllocError> {
    out.push('\'')?;
    push_escaped(out, text)?;
    out.push('\'')
}

fn push_list(out: &mut String, list: &[i64]) -> Result<(), AllocError> {
    out.push('[')?;
    for (at, number) in list.iter().enumerate() {
        if at > 0 {
            out.push(' ')?;
        }
        let number = *number;
        write!(out, "{number}")?;
    }
    out.push(']')
}

impl Show for String {
    fn show(&self, _alloc: Global, out: &mut String) -> Result<(), AllocError> {
        push_quoted(out, self.as_str())
    }
}

impl<'a> Show for CowStr<'a> {
    fn show(&self, _alloc: Global, out: &mut String) -> Result<(), AllocError> {
        match self {
            CowStr::Borrowed(text) => {
                out.push_str("borrowed ")?;
                push_quoted(out, text)
            }
            CowStr::Owned(text) => {
                out.push_str("owned ")?;
                push_quoted(out, text.as_str())
            }
        }
    }
}

impl Show for Float {
    fn show(&self, _alloc: Global, out: &mut String) -> Result<(), AllocError> {
        out.push_str(self.as_str())
    }
}

impl Show for Value {
    fn show(&self, alloc: Global, out: &mut String) -> Result<(), AllocError> {
        let json = json_of_value(alloc, Form::Tagged, self)?;
        out.push_str(json.as_str())
    }
}

impl Show for Table {
    fn show(&self, alloc: Global, out: &mut String) -> Result<(), AllocError> {
        let json = json_of(alloc, Form::Tagged, self)?;
        out.push_str(json.as_str())
    }
}

impl Show for Option<bool> {
    fn show(&self, _alloc: Global, out: &mut String) -> Result<(), AllocError> {
        match self {
            Some(true) => out.push_str("some true"),
            Some(false) => out.push_str("some false"),
            None => out.push_str("none"),
        }
    }
}

impl Show for Vec<i64> {
    fn show(&self, _alloc: Global, out: &mut String) -> Result<(), AllocError> {
        push_list(out, self.as_slice())
    }
}

impl Show for Vec<u8> {
    fn show(&self, _alloc: Global, out: &mut String) -> Result<(), AllocError> {
        let length = self.len();
        write!(out, "{length} bytes")
    }
}

impl Show for BTreeMap<String, i64> {
    fn show(&self, _alloc: Global, out: &mut String) -> Result<(), AllocError> {
        for (key, number) in self.iter() {
            let number = *number;
            push_escaped(out, key.as_str())?;
            write!(out, ":{number};")?;
        }
        Ok(())
    }
}

impl Show for BTreeMap<String, Vec<i64>> {
    fn show(&self, _alloc: Global, out: &mut String) -> Result<(), AllocError> {
        for (key, list) in self.iter() {
            push_escaped(out, key.as_str())?;
            out.push(':')?;
            push_list(out, list.as_slice())?;
            out.push(';')?;
        }
        Ok(())
    }
}

fn of_integer(
    alloc: Global,
    kind: &str,
    is_root: bool,
    text: &str,
) -> Option<Result<String, AllocError>> {
    match kind {
        "i8" => Some(printed::<i8>(alloc, is_root, text)),
        "i16" => Some(printed::<i16>(alloc, is_root, text)),
        "i32" => Some(printed::<i32>(alloc, is_root, text)),
        "i64" => Some(printed::<i64>(alloc, is_root, text)),
        "u8" => Some(printed::<u8>(alloc, is_root, text)),
        "u16" => Some(printed::<u16>(alloc, is_root, text)),
        "u32" => Some(printed::<u32>(alloc, is_root, text)),
        "u64" => Some(printed::<u64>(alloc, is_root, text)),
        _ => None,
    }
}

/// What the type of this name reads, or its error; none where no type has the name.
pub(crate) fn read_as(
    alloc: Global,
    kind: &str,
    is_root: bool,
    text: &str,
) -> Option<Result<String, AllocError>> {
    match kind {
        "bool" => Some(printed::<bool>(alloc, is_root, text)),
        "float" => Some(shown::<Float>(alloc, is_root, text)),
        "string" => Some(shown::<String>(alloc, is_root, text)),
        "cow" => Some(shown::<CowStr<'_>>(alloc, is_root, text)),
        "any" => Some(shown::<Value>(alloc, is_root, text)),
        "table" => Some(shown::<Table>(alloc, is_root, text)),
        "option-bool" => Some(shown::<Option<bool>>(alloc, is_root, text)),
        "list-i64" => Some(shown::<Vec<i64>>(alloc, is_root, text)),
        "list-u8" => Some(shown::<Vec<u8>>(alloc, is_root, text)),
        "map-i64" => Some(shown::<BTreeMap<String, i64>>(alloc, is_root, text)),
        "map-list" => Some(shown::<BTreeMap<String, Vec<i64>>>(alloc, is_root, text)),
        _ => of_integer(alloc, kind, is_root, text),
    }
}
