//! Rows that go on from the value of an earlier row of their table.
ghost use Rattle.std.specs.Prelude.{◌≡◌, [], ◌∷◌, ◌++◌, map};
ghost use Rattle.basic_toml_read.specs.SectionView.{elements_view, header_texts, key_of, raw_of, rows_seen, section_of};
ghost use Rattle.basic_toml_origin.specs.Crossing.{crossing_among, crossing_by, crossing_in, crossing_key};
ghost use Rattle.basic_toml_origin.specs.Crossing.{first_going_on, key_going_on};

use basic_toml_read::{Element, Key, Raw, Row, Section};

/// The offset of the key with which a row goes on from the value that begins at an offset, and that an earlier row of
/// its table holds: of `"a = 1\na.b = 2\n"` and the offset 4 it is 6. `None` where no row does.
pub fn crossing_key(sections: &[Section<'_>], offset: usize) -> Option<usize>
    ensures { result ≡ crossing_key offset (map section_of sections.now) }
{
    for section in sections {
        let rows = &section.rows;
        if let Some(key) = crossing_by(rows.parents.as_slice(), rows.rows.as_slice(), offset) {
            return Some(key);
        }
    }
    None
}

// By the rows of a table, or in their values.
#[cycle(crossing)]
fn crossing_by<'de>(parents: &[Key<'de>], rows: &[Row<'de>], offset: usize) -> Option<usize>
    ensures { result ≡ crossing_by offset (rows_seen parents.now rows.now) }
{
    let mut left = parents;
    for (number, row) in rows.iter().enumerate() {
        let own = row.own_parents(left);
        left = &left[own.len()..];
        if row.start == offset {
            return first_going_on(own, row.key.as_str(), left, &rows[number + 1..]);
        }
        if let Some(key) = crossing_in(&row.value, offset) {
            return Some(key);
        }
    }
    None
}

// In a value.
#[cycle(crossing)]
fn crossing_in(value: &Raw<'_>, offset: usize) -> Option<usize>
    ensures { result ≡ crossing_in offset (raw_of value.now) }
{
    match value {
        Raw::Array(elements) => crossing_among(elements.as_slice(), offset),
        Raw::Inline(rows) => crossing_by(&[], rows.as_slice(), offset),
        Raw::Dotted(rows) => crossing_by(rows.parents.as_slice(), rows.rows.as_slice(), offset),
        _ => None,
    }
}

// In the values of elements.
#[cycle(crossing)]
fn crossing_among(elements: &[Element<'_>], offset: usize) -> Option<usize>
    ensures { result ≡ crossing_among offset (elements_view elements.now) }
{
    for element in elements {
        if let Some(key) = crossing_in(&element.value, offset) {
            return Some(key);
        }
    }
    None
}

// By the first of these rows that goes on from a row of the keys `keys` and `last`.
fn first_going_on<'de>(
    keys: &[Key<'_>],
    last: &str,
    parents: &[Key<'de>],
    rows: &[Row<'de>],
) -> Option<usize>
    ensures { result ≡ first_going_on (header_texts keys.now ++ last.now ∷ []) (rows_seen parents.now rows.now) }
{
    let mut left = parents;
    for row in rows {
        let own = row.own_parents(left);
        if let Some(key) = key_going_on(keys, last, own) {
            return Some(key);
        }
        left = &left[own.len()..];
    }
    None
}

// By a row with these parents, whatever its last key is.
fn key_going_on(keys: &[Key<'_>], last: &str, parents: &[Key<'_>]) -> Option<usize>
    ensures { (own : _) → result ≡ key_going_on (header_texts keys.now ++ last.now ∷ [])
        (map key_of parents.now ++ own ∷ []) }
{
    let (parent, left) = parents.split_first()?;
    let name = parent.text.as_str();
    match keys.split_first() {
        None if last == name => Some(parent.offset),
        Some((key, others)) if key.text.as_str() == name => key_going_on(others, last, left),
        _ => None,
    }
}
