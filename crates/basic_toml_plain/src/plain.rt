//! Whether values are plain.

ghost use Rattle.std.specs.Prelude.{◌≡◌, map};
ghost use Rattle.basic_toml_index.specs.Keys.{is_among};
ghost use Rattle.basic_toml_plain.specs.Plain.{are_plain as all_plain, is_plain as plain_within};
ghost use Rattle.basic_toml_plain.specs.Plain.{are_all_plain as all_plain_rows, are_simple as all_simple};
ghost use Rattle.basic_toml_plain.specs.Plain.{are_few_simple as few_simple, key_of};

use basic_toml_read::{Element, Raw, Row};
use basic_toml_value::NESTING_LIMIT;

// Of up to so many rows it is asked whether they are simple, since each key is then compared with all others.
const FEW: usize = 16;

/// Whether all elements of an array of a level are plain, and none is deeper than the limit.
#[cycle(plain)]
#[inline(never)]
pub fn are_plain(elements: &[Element<'_>], level: usize) -> bool
    ensures { result ≡ all_plain level elements.now }
{
    for element in elements {
        if !is_plain(&element.value, level) {
            return false;
        }
    }
    true
}

/// Whether the rows of a table of a level are few and simple: each has a plain value, and a key that no other has.
#[cycle(plain)]
#[inline(always)]
pub fn are_few_simple(rows: &[Row<'_>], level: usize) -> bool
    ensures { result ≡ few_simple level rows.now }
{
    rows.len() <= FEW && are_simple(rows, level)
}

/// Whether the rows of a table of a level all have plain values. It serves many rows, of which no key is compared with
/// all others.
pub fn are_all_plain(rows: &[Row<'_>], level: usize) -> bool
    ensures { result ≡ all_plain_rows level rows.now }
{
    for row in rows {
        if !is_plain(&row.value, level) {
            return false;
        }
    }
    true
}

// Whether the rows of a table of a level are simple. Each key is compared with all after it.
#[cycle(plain)]
fn are_simple(rows: &[Row<'_>], level: usize) -> bool
    ensures { result ≡ all_simple level rows.now }
{
    match rows.split_first() {
        Some((row, rest)) => {
            is_plain(&row.value, level)
                && !has_key(rest, row.key.as_str())
                && are_simple(rest, level)
        }
        None => true,
    }
}

/// Whether a value within something of a level is plain.
#[cycle(plain)]
#[inline(always)]
pub fn is_plain(value: &Raw<'_>, level: usize) -> bool
    ensures { result ≡ plain_within value.now level }
{
    match value {
        Raw::Array(elements) => {
            level < NESTING_LIMIT && are_plain(elements.as_slice(), level + 1)
        }
        Raw::Inline(rows) => level < NESTING_LIMIT && are_few_simple(rows.as_slice(), level + 1),
        Raw::Dotted(_) => false,
        _ => true,
    }
}

// Whether a row has this key.
fn has_key(rows: &[Row<'_>], key: &str) -> bool
    ensures { result ≡ is_among (map key_of rows.now) key.now }
{
    match rows.split_first() {
        Some((row, rest)) => key == row.key.as_str() || has_key(rest, key),
        None => false,
    }
}
