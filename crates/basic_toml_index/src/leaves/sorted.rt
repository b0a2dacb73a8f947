//! Slots in order: a part of the texts sorted, and two sorted runs merged. Neither is done where two texts are the same.
//!
//! A part is sorted by numbers: the endings of the texts, and where that does not put it in order, eight bytes of each
//! besides. Where that does not either, halves are sorted by the texts and merged, so that no order of texts takes much
//! longer than another.
ghost use Rattle.std.specs.Prelude.{◌≡◌, ◌<◌, ◌≤◌, ◌+◌, ◌-◌, ◌++◌, length, map, take, drop, true, IsTrue, ◌↔◌, IfOk, IfSome};
ghost use Rattle.std.specs.List.{list_all};
ghost use Rattle.std.specs.List.Sorted.{IsPermutation};
ghost use Rattle.std.specs.Ordering.{nat_cmp};
ghost use Rattle.std.specs.Cmp.Lexicographic.{slice_cmp};
ghost use Rattle.basic_toml_index.specs.Index.{key_of, key_at, is_sound, slot_at};
ghost use Rattle.basic_toml_index.specs.SlotOrder.{slot_cmp, AreInOrder, IsRun, is_low};
ghost use Rattle.basic_toml_index.specs.SlotOrder as order;

use crate::Texts;
use crate::ending::ending_of;
use crate::leaves::Slot;
use std::alloc::{AllocError, Global};
use std::cmp::Ordering;

// So many slots are sorted by insertion.
const FEW: usize = 16;

// A text of more bytes than this takes long to compare.
const LONG: usize = 64;

/// The slot of the text at a position.
#[inline(always)]
pub fn slot_of<T: Texts>(texts: &T, position: usize) -> Slot
    requires { position < length (T.texts texts.now) }
    ensures position { result.position ≡ position }
    ensures sound { is_sound (T.texts texts.now) result ≡ true }
{
    Slot {
        ending: ending_of(texts.text(position)),
        position,
    }
}

/// What a part of the texts was sorted by.
#[derive(Clone, Copy, Drop)]
pub enum Means {
    /// The endings of the texts.
    Endings,
    /// Their endings, and eight more bytes of each.
    MoreBytes,
    /// The texts.
    Texts,
    /// The texts, which are long.
    LongTexts,
}

/// A part of the texts: their slots, sorted.
#[derive(Drop)]
pub struct Part {
    pub slots: Vec<Slot>,
    pub means: Means,
}

/// The texts from one position up to another, sorted; `None` where two of them are the same.
pub fn sorted_part<T: Texts>(
    alloc: Global,
    texts: &T,
    from: usize,
    to: usize,
) -> Result<Option<Part>, AllocError>
    requires { (from < to) × (to ≤ length (T.texts texts.now)) }
    ensures keys { IfOk result (λ found. IfSome found (λ part. IsPermutation
        (take (to - from) (drop from (T.texts texts.now))) (map (key_of (T.texts texts.now)) part.slots.items))) }
    ensures low { IfOk result (λ found. IfSome found (λ part. list_all (is_low to) part.slots.items ≡ true)) }
    ensures run { IfOk result (λ found. IfSome found (λ part. IsRun (T.texts texts.now) part.slots.items)) }
{
    let slots = by_ending(texts, slots_of(alloc, texts, from, to)?)?;
    if are_in_order(texts, slots.as_slice()) {
        return Ok(Some(Part {
            slots,
            means: Means::Endings,
        }));
    }
    let slots = by_more_bytes(texts, slots)?;
    if are_in_order(texts, slots.as_slice()) {
        return Ok(Some(Part {
            slots,
            means: Means::MoreBytes,
        }));
    }
    let Some(slots) = sorted(alloc, texts, slots.as_slice())? else {
        return Ok(None);
    };
    let means = if text_or_empty(texts, from).len() > LONG {
        Means::LongTexts
    } else {
        Means::Texts
    };
    Ok(Some(Part { slots, means }))
}

// The slots sorted by their endings; of texts that share one ending and fall, the slots from last to first.
fn by_ending<T: Texts>(texts: &T, slots: Vec<Slot>) -> Result<Vec<Slot>, AllocError>
    requires { 0 < length slots.items }
    ensures moved { IfOk result (λ other. IsPermutation slots.items other.items) }
{
    let mut slots = slots;
    slots.sort_by_key(|slot| slot.ending)?;
    if ends_before(texts, slots.as_slice(), slots.as_slice()) {
        slots.reverse();
    }
    Ok(slots)
}

// The slots sorted by their endings, and where these are the same by eight bytes of the texts: those behind what all the
// texts begin with.
fn by_more_bytes<T: Texts>(texts: &T, slots: Vec<Slot>) -> Result<Vec<Slot>, AllocError>
    ensures moved { IfOk result (λ other. IsPermutation slots.items other.items) }
{
    let mut slots = slots;
    let from = shared_length(texts, slots.as_slice());
    slots.sort_by_cached_key(|slot| {
        (
            slot.ending,
            eight_from(text_or_empty(texts, slot.position), from),
        )
    })?;
    Ok(slots)
}

// How many bytes all the texts begin with, of the first so many.
fn shared_length<T: Texts>(texts: &T, slots: &[Slot]) -> usize {
    let Some(first) = slots.first() else {
        return 0;
    };
    let first = text_or_empty(texts, first.position);
    let mut shared = first.len().min(LONG);
    for slot in slots {
        shared = common_length(first, text_or_empty(texts, slot.position), shared);
    }
    shared
}

// How many bytes two texts begin with, of the first so many.
fn common_length(a: &str, b: &str, most: usize) -> usize {
    let a = a.as_bytes();
    let b = b.as_bytes();
    let most = most.min(a.len()).min(b.len());
    for at in 0..most {
        if a[at] != b[at] {
            return at;
        }
    }
    most
}

// Eight bytes of a text as a number, zeros after a shorter one.
fn eight_from(text: &str, from: usize) -> u64 {
    let bytes = text.as_bytes();
    if from >= bytes.len() {
        return 0;
    }
    let rest = &bytes[from..];
    let mut eight = [0; 8];
    let count = rest.len().min(8);
    eight[..count].copy_from_slice(&rest[..count]);
    u64::from_be_bytes(eight)
}

// A slot for each text from one position up to another, in the order of the texts.
fn slots_of<T: Texts>(
    alloc: Global,
    texts: &T,
    from: usize,
    to: usize,
) -> Result<Vec<Slot>, AllocError>
    requires { (from ≤ to) × (to ≤ length (T.texts texts.now)) }
    ensures keys { IfOk result (λ slots. map (key_of (T.texts texts.now)) slots.items
        ≡ take (to - from) (drop from (T.texts texts.now))) }
    ensures sound { IfOk result (λ slots. list_all (is_sound (T.texts texts.now)) slots.items ≡ true) }
    ensures low { IfOk result (λ slots. list_all (is_low to) slots.items ≡ true) }
{
    let mut slots = Vec::with_capacity(alloc, to - from)?;
    for position in from..to {
        slots.push_reserved(slot_of(texts, position));
    }
    Ok(slots)
}

// The slots sorted, or `None` where two of their texts are the same.
fn sorted<T: Texts>(
    alloc: Global,
    texts: &T,
    slots: &[Slot],
) -> Result<Option<Vec<Slot>>, AllocError>
    requires sound { list_all (is_sound (T.texts texts.now)) slots.now ≡ true }
    ensures moved { IfOk result (λ found. IfSome found (λ run. IsPermutation slots.now run.items)) }
    ensures run { IfOk result (λ found. IfSome found (λ run. IsRun (T.texts texts.now) run.items)) }
{
    if slots.len() <= FEW {
        return few_sorted(alloc, texts, slots);
    }
    let (left, right) = slots.split_at(slots.len() / 2);
    let Some(left) = sorted(alloc, texts, left)? else {
        return Ok(None);
    };
    let Some(right) = sorted(alloc, texts, right)? else {
        return Ok(None);
    };
    merged(alloc, texts, left.as_slice(), right.as_slice(), slots.len())
}

// The same of a few slots.
fn few_sorted<T: Texts>(
    alloc: Global,
    texts: &T,
    slots: &[Slot],
) -> Result<Option<Vec<Slot>>, AllocError>
    requires sound { list_all (is_sound (T.texts texts.now)) slots.now ≡ true }
    ensures moved { IfOk result (λ found. IfSome found (λ run. IsPermutation slots.now run.items)) }
    ensures run { IfOk result (λ found. IfSome found (λ run. IsRun (T.texts texts.now) run.items)) }
{
    let mut run = Vec::from_slice(alloc, slots)?;
    run.sort_unstable_by(|a, b| compare(texts, *a, *b));
    if are_in_order(texts, run.as_slice()) {
        Ok(Some(run))
    } else {
        Ok(None)
    }
}

/// Two sorted runs as one, with room for so many slots; `None` where a text stands in both.
pub fn merged<T: Texts>(
    alloc: Global,
    texts: &T,
    left: &[Slot],
    right: &[Slot],
    room: usize,
) -> Result<Option<Vec<Slot>>, AllocError>
    requires some { (0 < length left.now) × (0 < length right.now) }
    requires room { length left.now + length right.now ≤ room }
    requires left { IsRun (T.texts texts.now) left.now }
    requires right { IsRun (T.texts texts.now) right.now }
    ensures moved { IfOk result (λ found. IfSome found (λ run. IsPermutation (left.now ++ right.now) run.items)) }
    ensures run { IfOk result (λ found. IfSome found (λ run. IsRun (T.texts texts.now) run.items)) }
{
    if ends_before(texts, left, right) {
        return Ok(Some(joined(alloc, left, right, room)?));
    }
    if ends_before(texts, right, left) {
        return Ok(Some(joined(alloc, right, left, room)?));
    }
    interleaved(alloc, texts, left, right, room)
}

// Whether the last slot of a run is before the first of another.
fn ends_before<T: Texts>(texts: &T, first: &[Slot], second: &[Slot]) -> bool
    requires { (0 < length first.now) × (0 < length second.now) }
    ensures { IsTrue result → IsTrue (order.is_before (T.texts texts.now) (slot_at first.now (length first.now - 1)) (slot_at second.now 0)) }
{
    is_before(texts, first[first.len() - 1], second[0])
}

// Slots after others.
fn joined(
    alloc: Global,
    first: &[Slot],
    second: &[Slot],
    room: usize,
) -> Result<Vec<Slot>, AllocError>
    ensures { IfOk result (λ run. run.items ≡ first.now ++ second.now) }
{
    let mut run = Vec::with_capacity(alloc, room)?;
    run.extend_from_slice(first)?;
    run.extend_from_slice(second)?;
    Ok(run)
}

// Two sorted runs slot by slot.
fn interleaved<T: Texts>(
    alloc: Global,
    texts: &T,
    left: &[Slot],
    right: &[Slot],
    room: usize,
) -> Result<Option<Vec<Slot>>, AllocError>
    requires room { length left.now + length right.now ≤ room }
    requires left { IsRun (T.texts texts.now) left.now }
    requires right { IsRun (T.texts texts.now) right.now }
    ensures moved { IfOk result (λ found. IfSome found (λ run. IsPermutation (left.now ++ right.now) run.items)) }
    ensures run { IfOk result (λ found. IfSome found (λ run. IsRun (T.texts texts.now) run.items)) }
{
    let mut run = Vec::with_capacity(alloc, room)?;
    let mut i = 0;
    let mut j = 0;
    while i < left.len() && j < right.len() {
        let a = &left[i];
        let b = &right[j];
        if a.ending == b.ending {
            match texts.text(a.position).cmp(texts.text(b.position)) {
                Ordering::Less => {
                    run.push_reserved(*a);
                    i += 1;
                }
                Ordering::Equal => return Ok(None),
                Ordering::Greater => {
                    run.push_reserved(*b);
                    j += 1;
                }
            }
        } else {
            // Without a branch, since which of them comes first is mostly by chance.
            let is_left = a.ending < b.ending;
            run.push_reserved(*(if is_left { a } else { b }));
            i += is_left as usize;
            j += !is_left as usize;
        }
    }
    run.extend_from_slice(&left[i..])?;
    run.extend_from_slice(&right[j..])?;
    Ok(Some(run))
}

/// Whether a slot is before another.
#[inline(always)]
pub fn is_before<T: Texts>(texts: &T, a: Slot, b: Slot) -> bool
    ensures { result ≡ order.is_before (T.texts texts.now) a b }
{
    compare(texts, a, b) == Ordering::Less
}

// How two slots compare: by their endings, and by their keys where these are the same.
#[inline(always)]
fn compare<T: Texts>(texts: &T, a: Slot, b: Slot) -> Ordering
    ensures { result ≡ slot_cmp (T.texts texts.now) a b }
{
    if a.ending == b.ending {
        compare_keys(texts, a.position, b.position)
    } else if a.ending < b.ending {
        Ordering::Less
    } else {
        Ordering::Greater
    }
}

// How the texts at two positions compare.
#[inline(never)]
fn compare_keys<T: Texts>(texts: &T, a: usize, b: usize) -> Ordering
    ensures { result ≡ slice_cmp nat_cmp (key_at (T.texts texts.now) a) (key_at (T.texts texts.now) b) }
{
    text_or_empty(texts, a).cmp(text_or_empty(texts, b))
}

// The text at a position, and an empty one where there is no such position.
fn text_or_empty<T: Texts>(texts: &T, position: usize) -> &str
    ensures { result.now ≡ key_at (T.texts texts.now) position }
{
    if position < texts.count() {
        texts.text(position)
    } else {
        ""
    }
}

// Whether each slot is before the next one.
fn are_in_order<T: Texts>(texts: &T, slots: &[Slot]) -> bool
    ensures { IsTrue result ↔ AreInOrder (T.texts texts.now) slots.now }
{
    for at in 1..slots.len() {
        if !is_before(texts, slots[at - 1], slots[at]) {
            return false;
        }
    }
    true
}
