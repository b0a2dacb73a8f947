//! Leaves of the first of any texts, up to the first text that stands before it too.
//!
//! Texts that rise are appended. Where they no longer do and many are left, a part after another is sorted and merged
//! with the texts before it. A few that are left are put in one by one, and so are those of a part in which a text
//! repeats.
ghost use Rattle.std.specs.Prelude.{◌≡◌, ◌<◌, ◌≤◌, ◌++◌, length, take, true, IfOk, IfSome};
ghost use Rattle.basic_toml_index.specs.Keys.{is_among};
ghost use Rattle.basic_toml_index.specs.Index.{leaves_of, joined, are_filled, key_at};
ghost use Rattle.basic_toml_index.specs.SlotOrder.{IsRun, IsRunOfFirst, AreFirst};

use crate::leaves::sorted::{Means, is_before, merged, slot_of, sorted_part};
use crate::leaves::{LEAF, Leaf, Slot, insert, search};
use crate::{Found, Texts};
use std::alloc::{AllocError, Global};

// So many texts are sorted together at least.
const PART: usize = 64;

/// Leaves of the texts before the first one that is the same as one before it, and how many these are.
pub fn until_repeat<T: Texts>(alloc: Global, texts: &T) -> Result<(Vec<Leaf>, usize), AllocError>
    requires { 0 < length (T.texts texts.now) }
    ensures first { IfOk result (λ found. AreFirst (T.texts texts.now) found.1 (leaves_of found.0.items)) }
    ensures repeat { IfOk result (λ found. found.1 < length (T.texts texts.now)
        → is_among (take found.1 (T.texts texts.now)) (key_at (T.texts texts.now) found.1) ≡ true) }
{
    let (leaves, count) = rising(alloc, texts)?;
    let (mut leaves, count) = with_sorted(alloc, texts, leaves, count)?;
    let count = put_in(&mut leaves, texts, count)?;
    Ok((leaves, count))
}

// Leaves of the first texts, up to the first that is not above the one before it, and how many these are.
fn rising<T: Texts>(alloc: Global, texts: &T) -> Result<(Vec<Leaf>, usize), AllocError>
    requires { 0 < length (T.texts texts.now) }
    ensures { IfOk result (λ found. AreFirst (T.texts texts.now) found.1 (leaves_of found.0.items)) }
{
    let count = texts.count();
    let mut leaves = Vec::new(alloc);
    let mut leaf = Vec::with_capacity(alloc, count.min(LEAF))?;
    let mut last = slot_of(texts, 0);
    leaf.push(last)?;
    for position in 1..count {
        let slot = slot_of(texts, position);
        if !is_before(texts, last, slot) {
            leaves.push(leaf)?;
            return Ok((leaves, position));
        }
        leaf = with_room(alloc, &mut leaves, leaf)?;
        leaf.push(slot)?;
        last = slot;
    }
    leaves.push(leaf)?;
    Ok((leaves, count))
}

// The leaf that is filled; where it is full, it goes to the others, and another one begins.
#[inline(always)]
fn with_room(alloc: Global, leaves: &mut Vec<Leaf>, leaf: Leaf) -> Result<Leaf, AllocError>
    requires some { 0 < length leaf.items }
    requires filled { are_filled (leaves_of leaves.old.items) ≡ true }
    ensures row { IfOk result (λ next. joined (leaves_of leaves.new.items) ++ next.items
        ≡ joined (leaves_of leaves.old.items) ++ leaf.items) }
    ensures filled { are_filled (leaves_of leaves.new.items) ≡ true }
{
    if leaf.len() < LEAF {
        return Ok(leaf);
    }
    leaves.push(leaf)?;
    Vec::with_capacity(alloc, LEAF)
}

// The slots of the first texts, as many as `count`, sorted.
#[derive(Drop)]
struct Run {
    slots: Vec<Slot>,
    count: usize,
    // How many texts are sorted next. None where that takes longer than to put them in one by one.
    more: usize,
}

// The leaves with texts that follow, where these are many: as long as parts of them can be sorted and merged with those
// before. And how many texts these are.
fn with_sorted<T: Texts>(
    alloc: Global,
    texts: &T,
    leaves: Vec<Leaf>,
    count: usize,
) -> Result<(Vec<Leaf>, usize), AllocError>
    requires { AreFirst (T.texts texts.now) count (leaves_of leaves.items) }
    ensures { IfOk result (λ found. AreFirst (T.texts texts.now) found.1 (leaves_of found.0.items)) }
{
    if texts.count() - count <= count / 8 {
        return Ok((leaves, count));
    }
    let mut run = Run {
        slots: in_a_row(alloc, leaves)?,
        count,
        more: count.max(PART),
    };
    while run.count < texts.count() && run.more > 0 {
        let Some(longer) = with_part(alloc, texts, &run)? else {
            break;
        };
        run = longer;
    }
    Ok((cut(alloc, run.slots.as_slice())?, run.count))
}

// A run with a part of the texts that follow; `None` where one of these repeats.
fn with_part<T: Texts>(alloc: Global, texts: &T, run: &Run) -> Result<Option<Run>, AllocError>
    requires left { run.now.count < length (T.texts texts.now) }
    requires some { 0 < run.now.count }
    requires more { 0 < run.now.more }
    requires first { IsRunOfFirst (T.texts texts.now) run.now.count run.now.slots.items }
    ensures more { IfOk result (λ found. IfSome found (λ longer. run.now.count < longer.count)) }
    ensures first { IfOk result (λ found. IfSome found (λ longer.
        IsRunOfFirst (T.texts texts.now) longer.count longer.slots.items)) }
{
    let count = run.count;
    let next = count + run.more.min(texts.count() - count);
    let Some(part) = sorted_part(alloc, texts, count, next)? else {
        return Ok(None);
    };
    // Where texts are compared, many parts are merged. Runs that are all as long take the same memory again.
    let room = match part.means {
        Means::Endings => next,
        _ => texts.count(),
    };
    let longer = merged(
        alloc,
        texts,
        run.slots.as_slice(),
        part.slots.as_slice(),
        room,
    )?;
    let Some(slots) = longer else {
        return Ok(None);
    };
    Ok(Some(Run {
        slots,
        count: next,
        more: more_after(next, part.means),
    }))
}

// How many texts are sorted next: as many as there are. Fewer where texts are compared, so that not many of them are
// sorted in vain before one that repeats is met, and none where they are long.
fn more_after(count: usize, means: Means) -> usize {
    match means {
        Means::Endings => count.max(PART),
        Means::MoreBytes => (count / 2).max(PART),
        Means::Texts => (count / 4).max(PART),
        Means::LongTexts => 0,
    }
}

// The slots of leaves in a row.
fn in_a_row(alloc: Global, leaves: Vec<Leaf>) -> Result<Vec<Slot>, AllocError>
    ensures { IfOk result (λ row. row.items ≡ joined (leaves_of leaves.items)) }
{
    let mut row = Vec::new(alloc);
    for leaf in leaves {
        row.extend_from_slice(leaf.as_slice())?;
    }
    Ok(row)
}

// Slots cut into leaves, each with room for `LEAF` of them.
fn cut(alloc: Global, slots: &[Slot]) -> Result<Vec<Leaf>, AllocError>
    ensures row { IfOk result (λ leaves. joined (leaves_of leaves.items) ≡ slots.now) }
    ensures filled { IfOk result (λ leaves. are_filled (leaves_of leaves.items) ≡ true) }
{
    let mut leaves = Vec::with_capacity(alloc, slots.len() / LEAF + 1)?;
    let mut rest = slots;
    while !rest.is_empty() {
        let (first, more) = rest.split_at(rest.len().min(LEAF));
        let mut leaf = Vec::with_capacity(alloc, LEAF)?;
        leaf.extend_from_slice(first)?;
        leaves.push(leaf)?;
        rest = more;
    }
    Ok(leaves)
}

// Puts in the texts that follow one by one, up to the first that stands before it too, and answers how many there are
// then.
fn put_in<T: Texts>(leaves: &mut Vec<Leaf>, texts: &T, count: usize) -> Result<usize, AllocError>
    requires { AreFirst (T.texts texts.now) count (leaves_of leaves.old.items) }
    ensures first { IfOk result (λ end. AreFirst (T.texts texts.now) end (leaves_of leaves.new.items)) }
    ensures repeat { IfOk result (λ end. end < length (T.texts texts.now)
        → is_among (take end (T.texts texts.now)) (key_at (T.texts texts.now) end) ≡ true) }
{
    for position in count..texts.count() {
        match search(leaves.as_slice(), texts, texts.text(position)) {
            Found::At(_) => return Ok(position),
            Found::Absent(gap) => insert(leaves, gap, position)?,
        }
    }
    Ok(texts.count())
}
