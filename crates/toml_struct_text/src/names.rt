//! Names of structs and fields, by the keys of tables.

use std::alloc::{AllocError, Global};
use std::collections::BTreeSet;

// What no field can be called.
const KEYWORDS: [&str; 42] = [
    "as", "async", "await", "break", "const", "continue", "crate", "dyn", "else", "ensures",
    "enum", "extern", "false", "fn", "for", "ghost", "if", "impl", "in", "let", "loop", "match",
    "mod", "move", "mut", "pub", "ref", "requires", "return", "self", "Self", "static", "struct",
    "super", "trait", "true", "type", "unsafe", "use", "where", "while", "_",
];

// What no struct may be called, since the impls need another thing by this name.
const TAKEN: [&str; 22] = [
    "BTreeMap",
    "Deserialize",
    "Error",
    "Float",
    "Global",
    "Node",
    "Option",
    "Record",
    "Result",
    "Returns",
    "Root",
    "RoundTrip",
    "Self",
    "Serialize",
    "Serializer",
    "Some",
    "String",
    "Table",
    "Tree",
    "Value",
    "Vec",
    "WriteError",
];

/// Whether a field can have a key.
pub fn is_plain(key: &str) -> bool {
    key.bytes().all(|b| (b == b' ' || b.is_ascii_graphic()) && b != b'"' && b != b'\\')
}

/// The name of the struct of a key, which is none of those that are there: by the key, else by all keys that lead to it.
pub fn struct_name(
    alloc: Global,
    key: &str,
    path: &str,
    others: &BTreeSet<String>,
) -> Result<String, AllocError> {
    let name = camel_case(alloc, key)?;
    if is_free(name.as_str(), others) {
        return Ok(name);
    }
    let name = camel_case(alloc, path)?;
    if is_free(name.as_str(), others) {
        return Ok(name);
    }
    numbered(alloc, name.as_str(), others)
}

// The words of a key, each with a capital.
fn camel_case(alloc: Global, key: &str) -> Result<String, AllocError> {
    let mut name = String::new(alloc);
    let mut begins = true;
    for c in key.chars() {
        if !c.is_ascii_alphanumeric() {
            begins = true;
        } else if begins {
            name.push(c.to_ascii_uppercase())?;
            begins = false;
        } else {
            name.push(c)?;
        }
    }
    if begins_as_name(name.as_str()) {
        Ok(name)
    } else {
        format!(in alloc; "Table{name}")
    }
}

fn begins_as_name(text: &str) -> bool {
    match text.chars().next() {
        Some(first) => !first.is_ascii_digit(),
        None => false,
    }
}

/// The name of a field of a key, which is none of those that are there.
pub fn field_name(
    alloc: Global,
    key: &str,
    others: &BTreeSet<String>,
) -> Result<String, AllocError> {
    let mut name = String::new(alloc);
    for c in key.chars() {
        name.push(if c.is_ascii_alphanumeric() { c } else { '_' })?;
    }
    if !begins_as_name(name.as_str()) {
        name = format!(in alloc; "key_{name}")?;
    }
    if KEYWORDS.contains(&name.as_str()) {
        name.push_str("_key")?;
    }
    if others.contains(name.as_str()) {
        return numbered(alloc, name.as_str(), others);
    }
    Ok(name)
}

// A name with the first number behind it by which it is none of the others.
fn numbered(alloc: Global, name: &str, others: &BTreeSet<String>) -> Result<String, AllocError> {
    for number in 2..u64::MAX {
        let other = format!(in alloc; "{name}{number}")?;
        if !others.contains(other.as_str()) {
            return Ok(other);
        }
    }
    String::from_str(alloc, name)
}

// Whether a struct may have a name.
fn is_free(name: &str, others: &BTreeSet<String>) -> bool {
    !TAKEN.contains(&name) && !others.contains(name)
}
