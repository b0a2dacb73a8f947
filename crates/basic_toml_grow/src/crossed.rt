//! Rows that go on from a value: the clash that comes before all others.

ghost use Rattle.std.specs.Prelude.{◌≡◌, List, [], ◌∷◌, ◌++◌, None, false, IfOk, map};
ghost use Rattle.basic_toml_read.specs.declared.section.Key as keys;
ghost use Rattle.basic_toml_read.specs.SectionView.{elements_view, header_texts, raw_of, rows_seen, section_of};
ghost use Rattle.basic_toml_grow.specs.Crossed.{crossed_between, crossed_among, crossed_in, crossed_of};
ghost use Rattle.basic_toml_grow.specs.Crossed.{first_crossed, Looks};
ghost use Rattle.basic_toml_grow.specs.KeyTree.{ends_of, Follows, FollowsTo, no_key_tree};
ghost use Rattle.basic_toml_grow.specs.declared.crossed.Crossed.TheVariants.{Memory};

use basic_toml_read::{Element, Key, Raw, Row, Section};
use basic_toml_value::Pairs;
use std::alloc::{AllocError, Global};

/// The keys of rows so far, and where the value begins that stands at their end.
#[cycle(tree)]
#[derive(Drop)]
struct KeyTree {
    end: Option<usize>,
    below: Pairs<KeyTree>,
}

/// Why rows were not looked through to their end.
#[derive(Drop)]
enum Crossed {
    Memory,
    /// A later row goes on from the value that begins here.
    At(usize),
}

impl From<AllocError> for Crossed {
    ghost from_gives = { λ _ e. e ≡ Memory };

    fn from(_error: AllocError) -> Crossed {
        Crossed::Memory
    }
}

impl KeyTree {
    // No row is followed yet.
    fn new(alloc: Global) -> KeyTree
        ensures { result ≡ no_key_tree }
    {
        KeyTree {
            end: None,
            below: Pairs::new(alloc),
        }
    }
}

// The keys of a row end here, whose value begins at `start`.
fn end_here(tree: &mut KeyTree, start: usize)
    ensures { Follows (ends_of tree.old) (ends_of tree.new) [] start }
{
    tree.end = Some(tree.end.unwrap_or(start));
}

// Goes by the parents of a row that are left, and its last key. The row's value begins at `start`.
fn follow(
    alloc: Global,
    tree: &mut KeyTree,
    parents: &[Key<'_>],
    last: &str,
    start: usize,
) -> Result<(), Crossed>
    ensures { FollowsTo tree.old (header_texts parents.now ++ last.now ∷ []) start tree.new result }
{
    if let Some(end) = tree.end {
        return Err(Crossed::At(end));
    }
    match parents.split_first() {
        None => {
            let place = tree.below.enter(last, |_| Ok(KeyTree::new(alloc)))?;
            end_here(tree.below.value_mut(place.position), start);
            Ok(())
        }
        Some((key, rest)) => {
            let place = tree
                .below
                .enter(key.text.as_str(), |_| Ok(KeyTree::new(alloc)))?;
            let there = tree.below.value_mut(place.position);
            follow(alloc, there, rest, last, start)
        }
    }
}

// Whether some row has more keys than the one before it.
fn has_longer(rows: &[Row<'_>]) -> bool
    ensures { result ≡ false → (parents : List keys.Key) → crossed_between (rows_seen parents rows.now) ≡ None }
{
    let mut most = usize::MAX;
    for row in rows {
        if row.parents > most {
            return true;
        }
        most = row.parents;
    }
    false
}

// Looks for a row that goes on from the value of one before it: it has more keys than that one. The keys of all rows are
// followed then, one row after another.
fn look_between<'de>(alloc: Global, parents: &[Key<'de>], rows: &[Row<'de>]) -> Result<(), Crossed>
    ensures { Looks (crossed_between (rows_seen parents.now rows.now)) result }
{
    if !has_longer(rows) {
        return Ok(());
    }
    let mut tree = KeyTree::new(alloc);
    let mut left = parents;
    for row in rows {
        let own = row.own_parents(left);
        follow(alloc, &mut tree, own, row.key.as_str(), row.start)?;
        left = &left[own.len()..];
    }
    Ok(())
}

// Looks for a row that goes on from a value: among these rows, and then within the value of each.
#[cycle(looking)]
fn look_through<'de>(alloc: Global, parents: &[Key<'de>], rows: &[Row<'de>]) -> Result<(), Crossed>
    ensures { Looks (crossed_in (rows_seen parents.now rows.now)) result }
{
    look_between(alloc, parents, rows)?;
    for row in rows {
        look_into(alloc, &row.value)?;
    }
    Ok(())
}

// The same within a value. It is inlined, since most values are scalars.
#[cycle(looking)]
#[inline(always)]
fn look_into(alloc: Global, value: &Raw<'_>) -> Result<(), Crossed>
    ensures { Looks (crossed_of (raw_of value.now)) result }
{
    match value {
        Raw::Array(elements) => look_among(alloc, elements.as_slice()),
        Raw::Inline(rows) => look_through(alloc, &[], rows.as_slice()),
        Raw::Dotted(rows) => look_through(alloc, rows.parents.as_slice(), rows.rows.as_slice()),
        _ => Ok(()),
    }
}

// The same within the values of elements.
#[cycle(looking)]
#[inline(never)]
fn look_among(alloc: Global, elements: &[Element<'_>]) -> Result<(), Crossed>
    ensures { Looks (crossed_among (elements_view elements.now)) result }
{
    for element in elements {
        look_into(alloc, &element.value)?;
    }
    Ok(())
}

/// The byte offset where the first value begins that a later row of its table goes on from, in the rows of a section,
/// and none where no row does. After `a = 1` the row `a.b = 2` goes on from the value at `1` (TOML v0.5.0, "Table":
/// dotted keys).
///
/// The first is that of the first row that goes on from a value, and of several values on its way the one with the
/// fewest keys. The rows of a table among themselves come before those within their values.
///
/// # Errors
///
/// `AllocError` where memory is refused.
pub fn crossed_value(alloc: Global, section: &Section<'_>) -> Result<Option<usize>, AllocError>
    ensures { IfOk result (λ found. found ≡ crossed_in (section_of section.now).rows) }
{
    let rows = &section.rows;
    match look_through(alloc, rows.parents.as_slice(), rows.rows.as_slice()) {
        Ok(()) => Ok(None),
        Err(Crossed::Memory) => Err(AllocError),
        Err(Crossed::At(at)) => Ok(Some(at)),
    }
}

/// The same of the first of these sections in which a row goes on from a value.
///
/// # Errors
///
/// `AllocError` where memory is refused.
pub fn first_crossed_value(
    alloc: Global,
    sections: &[Section<'_>],
) -> Result<Option<usize>, AllocError>
    ensures { IfOk result (λ found. found ≡ first_crossed (map section_of sections.now)) }
{
    for section in sections {
        if let Some(at) = crossed_value(alloc, section)? {
            return Ok(Some(at));
        }
    }
    Ok(None)
}
