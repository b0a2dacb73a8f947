//! The number that a whole text is.
use basic_toml::{Float, float_of, integer_of};
use std::alloc::{AllocError, Global};

/// `integer N`, `float F` or `no number`; what `Float::parse` answers too, where it differs.
pub(crate) fn number_of(alloc: Global, text: &str) -> Result<String, AllocError> {
    let integer = integer_of(text);
    let float = float_of(alloc, text)?;
    let parsed = Float::parse(alloc, text)?;
    if float != parsed {
        return String::from_str(alloc, "two floats");
    }
    match (integer, float) {
        (Some(number), None) => format!(in alloc; "integer {number}"),
        (None, Some(float)) => format!(in alloc; "float {}", float.as_str()),
        (None, None) => String::from_str(alloc, "no number"),
        (Some(_), Some(_)) => String::from_str(alloc, "both"),
    }
}
