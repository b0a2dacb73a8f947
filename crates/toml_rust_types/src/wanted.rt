//! Which types of a file get impls.

use crate::cuts::asks;
use crate::forms::is_by_table;
use crate::written::impl_of;
use toml_rust_items::cursor::Cursor;
use toml_rust_items::items::Item;
use toml_rust_items::refusal::NoImpls;

// The traits whose impls are written.
const TRAITS: [&str; 8] = [
    "Choice",
    "Forms",
    "RoundTrip",
    "Record",
    "Deserialize",
    "Serialize",
    "Returns",
    "Root",
];

/// Whether a type gets impls: where it asks for them by serde's derives or attributes, where they have a list already,
/// and where the file has none of them.
pub fn is_wanted<'t>(
    items: &[Item<'_, 't>],
    item: &Item<'_, 't>,
    name: &str,
) -> Result<bool, NoImpls<'t>> {
    if is_listed(items, name) || has_rule(item.tokens) {
        return Ok(true);
    }
    for attribute in &item.attributes {
        if asks(attribute)? {
            return Ok(true);
        }
    }
    Ok(!TRAITS.iter().any(|of| impl_of(items, of, name).is_some()))
}

// Whether a type has a list already.
fn is_listed(items: &[Item<'_, '_>], name: &str) -> bool {
    match impl_of(items, "Forms", name) {
        Some(forms) if is_by_table(forms) => true,
        _ => {
            impl_of(items, "RoundTrip", name).is_some() || impl_of(items, "Choice", name).is_some()
        }
    }
}

// Whether an attribute of serde's stands among these.
fn has_rule(mut tokens: Cursor<'_, '_>) -> bool {
    for _ in 0..tokens.len() {
        if tokens.takes("#") && tokens.takes("[") && tokens.takes("serde") {
            return true;
        }
        tokens.next();
    }
    false
}
