//! The path within rows to what is looked for.
ghost use Rattle.std.specs.Prelude.{◌≡◌, [], ◌∷◌, ◌++◌, IfOk, map, take, vec_len};
ghost use Rattle.basic_toml_grammar.specs.Sections.{texts};
ghost use Rattle.basic_toml_grammar.specs.Steps.{steps_of};
ghost use Rattle.basic_toml_places.specs.Places.{path_among, path_by, path_within};
ghost use Rattle.basic_toml_read.specs.SectionView.{elements_view, key_of, lined_of, raw_of, rows_seen};
ghost use Rattle.basic_toml_origin.specs.Path.{path_of};
ghost use Rattle.basic_toml_origin.specs.Query.{PushesIfFound, path_at_row, test_of};

use crate::query::Query;
use crate::step::Step;
use basic_toml_read::{Element, Key, Raw, Row};
use std::alloc::AllocError;

/// Puts the steps to what is looked for behind a path, if it stands in these rows, and says whether it does.
///
/// # Errors
///
/// `AllocError` where memory was refused. Nothing is said of the path then.
#[cycle(paths)]
pub(crate) fn push_path_by<'s, 'de>(
    query: Query,
    parents: &'s [Key<'de>],
    rows: &'s [Row<'de>],
    path: &mut Vec<Step<'s>>,
) -> Result<bool, AllocError>
    ensures { IfOk result (λ found. PushesIfFound found (path_by (test_of query) (rows_seen parents.now rows.now))
        path.old.items path.new.items) }
{
    let mut left = parents;
    for row in rows {
        let own = row.own_parents(left);
        if push_path_at_row(query, own, row, path)? {
            return Ok(true);
        }
        left = &left[own.len()..];
    }
    Ok(false)
}

// At a row, which has these keys before its last one, or within its value.
#[cycle(paths)]
fn push_path_at_row<'s, 'de>(
    query: Query,
    parents: &'s [Key<'de>],
    row: &'s Row<'de>,
    path: &mut Vec<Step<'s>>,
) -> Result<bool, AllocError>
    ensures { IfOk result (λ found. PushesIfFound found
        (path_at_row (test_of query) (map key_of parents.now) (lined_of row.now)) path.old.items path.new.items) }
{
    let len = path.len();
    push_keys(parents, row, path)?;
    if let Some(keys) = query.keys_in_row(parents, row) {
        path.truncate(len + keys);
        return Ok(true);
    }
    if push_path_within(query, &row.value, path)? {
        return Ok(true);
    }
    path.truncate(len);
    Ok(false)
}

// Within a value.
#[cycle(paths)]
fn push_path_within<'s>(
    query: Query,
    value: &'s Raw<'_>,
    path: &mut Vec<Step<'s>>,
) -> Result<bool, AllocError>
    ensures { IfOk result (λ found. PushesIfFound found (path_within (test_of query) (raw_of value.now))
        path.old.items path.new.items) }
{
    match value {
        Raw::Array(elements) => push_path_among(query, elements.as_slice(), path),
        Raw::Inline(rows) => push_path_by(query, no_parents(), rows.as_slice(), path),
        Raw::Dotted(rows) => {
            push_path_by(query, rows.parents.as_slice(), rows.rows.as_slice(), path)
        }
        _ => Ok(false),
    }
}

// At an element of an array, or within one.
#[cycle(paths)]
fn push_path_among<'s>(
    query: Query,
    elements: &'s [Element<'_>],
    path: &mut Vec<Step<'s>>,
) -> Result<bool, AllocError>
    ensures { IfOk result (λ found. PushesIfFound found (path_among (test_of query) 0 (elements_view elements.now))
        path.old.items path.new.items) }
{
    let len = path.len();
    for (number, element) in elements.iter().enumerate() {
        path.push(Step::Element(number))?;
        if query.is_element(element.offset) || push_path_within(query, &element.value, path)? {
            return Ok(true);
        }
        path.truncate(len);
    }
    Ok(false)
}

// The steps of a row's keys, which has these before its last one.
fn push_keys<'s, 'de>(
    parents: &'s [Key<'de>],
    row: &'s Row<'de>,
    path: &mut Vec<Step<'s>>,
) -> Result<(), AllocError>
    ensures steps { IfOk result (λ _. path_of path.new.items
        ≡ path_of path.old.items ++ steps_of (texts (map key_of parents.now ++ (lined_of row.now).key ∷ []))) }
    ensures kept { IfOk result (λ _. take (vec_len path.old) path.new.items ≡ path.old.items) }
{
    for key in parents {
        path.push(Step::Key(key.text.as_str()))?;
    }
    path.push(Step::Key(row.key.as_str()))?;
    Ok(())
}

// The parents of rows of one key each.
fn no_parents<'s, 'de>() -> &'s [Key<'de>]
    ensures { result.now ≡ [] }
{
    &[]
}
