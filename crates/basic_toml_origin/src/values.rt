//! What a path leads to in rows and values.
ghost use Rattle.std.specs.Prelude.{◌≡◌, [], ◌∷◌, ◌++◌, map};
ghost use Rattle.basic_toml_read.specs.SectionView.{elements_view, key_of, lined_of, raw_of, rows_seen};
ghost use Rattle.basic_toml_origin.specs.Origin.{by_row, in_elements, in_rows, in_value};
ghost use Rattle.basic_toml_origin.specs.Path.{path_of};
ghost use Rattle.basic_toml_origin.specs.Parts.{behind_name, left_of};

use crate::origin::Origin;
use crate::step::Step;
use basic_toml_read::{Element, Key, Raw, Row};

// What is left of a path behind a key, if the path begins with it.
fn behind<'a, 'p>(path: &'a [Step<'p>], key: &str) -> Option<&'a [Step<'p>]>
    ensures { left_of result ≡ behind_name key.now (path_of path.now) }
{
    let (step, rest) = path.split_first()?;
    if step.is_key(key) { Some(rest) } else { None }
}

// In a value that begins at an offset, behind this key.
#[cycle(values)]
fn in_value(key: Option<usize>, at: usize, value: &Raw<'_>, path: &[Step<'_>]) -> Option<Origin>
    ensures { result ≡ in_value key at (raw_of value.now) (path_of path.now) }
{
    let Some((step, rest)) = path.split_first() else {
        return Some(Origin { at, key });
    };
    match (value, step) {
        (Raw::Array(elements), Step::Element(number)) => {
            in_elements(elements.as_slice(), *number, rest)
        }
        (Raw::Inline(rows), Step::Key(_)) => in_rows(&[], rows.as_slice(), path),
        (Raw::Dotted(rows), Step::Key(_)) => {
            in_rows(rows.parents.as_slice(), rows.rows.as_slice(), path)
        }
        _ => None,
    }
}

// In the element of a number.
#[cycle(values)]
fn in_elements(elements: &[Element<'_>], number: usize, path: &[Step<'_>]) -> Option<Origin>
    ensures { result ≡ in_elements (elements_view elements.now) number (path_of path.now) }
{
    let mut before = number;
    for element in elements {
        if before == 0 {
            return in_value(None, element.offset, &element.value, path);
        }
        before -= 1;
    }
    None
}

/// By the first of these rows that leads there.
#[cycle(values)]
pub(crate) fn in_rows<'de>(
    parents: &[Key<'de>],
    rows: &[Row<'de>],
    path: &[Step<'_>],
) -> Option<Origin>
    ensures { result ≡ in_rows (rows_seen parents.now rows.now) (path_of path.now) }
{
    let mut left = parents;
    for row in rows {
        let own = row.own_parents(left);
        if let Some(origin) = in_row(own, row, path) {
            return Some(origin);
        }
        left = &left[own.len()..];
    }
    None
}

// By a row with these keys before its last one.
#[cycle(values)]
fn in_row(parents: &[Key<'_>], row: &Row<'_>, path: &[Step<'_>]) -> Option<Origin>
    ensures { result ≡ by_row (map key_of parents.now ++ (lined_of row.now).key ∷ [])
        (λ k q. in_value k (lined_of row.now).start (lined_of row.now).value q) (path_of path.now) }
{
    let Some((key, others)) = parents.split_first() else {
        let rest = behind(path, row.key.as_str())?;
        return in_value(Some(row.offset), row.start, &row.value, rest);
    };
    let left = behind(path, key.text.as_str())?;
    if left.is_empty() {
        return Some(Origin {
            at: key.offset,
            key: Some(key.offset),
        });
    }
    in_row(others, row, left)
}
