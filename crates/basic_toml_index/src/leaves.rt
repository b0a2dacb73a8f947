//! Slots in leaves: the keys that they stand for rise from slot to slot and from leaf to leaf. No leaf is empty, and
//! one that gets a slot more than fills it is split in two; where memory is refused for that, it stays long.
ghost use Rattle.std.specs.Prelude.{◌≡◌, ◌≤◌, ◌<◌, ◌+◌, ◌-◌, ◌↔◌, [], ◌∷◌, ◌++◌, length, true, false};
ghost use Rattle.std.specs.Prelude.{IsTrue, IfOk, OnOk, OnErr, slice_get, Some, insert as insert_at};
ghost use Rattle.std.specs.List.{list_all};
ghost use Rattle.basic_toml_index.specs.Keys.{are_distinct, is_among};
ghost use Rattle.basic_toml_index.specs.Index as spec;
ghost use Rattle.basic_toml_index.specs.Index.{ending_of, is_sound, key_of, slot_at, first_key, leaves_of, leaf_at};
ghost use Rattle.basic_toml_index.specs.Index.{row_of, row_with, with_slot, joined, are_filled, IsRow};
ghost use Rattle.basic_toml_index.specs.Index.{IsSorted, IsPlace, HoldsAt, IfAt, IfAbsent};

mod first;
mod sorted;

use crate::ending::ending_of;
use crate::{Found, Gap, Texts};
pub use first::until_repeat;
use std::alloc::{AllocError, Global};

// How many slots any leaf has room for.
const LEAF: usize = 128;

// The position of a text, with the text's ending.
#[derive(Clone, Copy)]
pub struct Slot {
    ending: u64,
    position: usize,
}

pub type Leaf = Vec<Slot>;

// The position of a key that a slot stands for, or where it would go.
#[inline(always)]
pub fn search<T: Texts>(leaves: &[Leaf], texts: &T, key: &str) -> Found
    requires { IsRow (T.texts texts.now) (leaves_of leaves.now) }
    ensures found { IfAt result (λ position. slice_get (T.texts texts.now) position ≡ Some key.now) }
    ensures among { IfAt result (λ position. is_among (row_of (T.texts texts.now) (leaves_of leaves.now)) key.now ≡ true) }
    ensures absent { IfAbsent result (λ gap. is_among (row_of (T.texts texts.now) (leaves_of leaves.now)) key.now ≡ false) }
    ensures place { IfAbsent result (λ gap. IsPlace (T.texts texts.now) (leaves_of leaves.now) gap key.now) }
{
    let gap = gap(leaves, texts, key);
    let leaf = leaf(leaves, gap.leaf);
    if gap.slot < leaf.len() && is_at(texts, leaf[gap.slot], key, gap.ending) {
        return Found::At(leaf[gap.slot].position);
    }
    Found::Absent(gap)
}

// Where a key goes that no slot stands for, or the slot that stands for it.
pub fn gap<T: Texts>(leaves: &[Leaf], texts: &T, key: &str) -> Gap
    requires { IsRow (T.texts texts.now) (leaves_of leaves.now) }
    ensures ending { result.ending ≡ ending_of key.now }
    ensures in_leaves { result.leaf < length leaves.now }
    ensures in_leaf { result.slot ≤ length (leaf_at (leaves_of leaves.now) result.leaf) }
    ensures place { is_among (row_of (T.texts texts.now) (leaves_of leaves.now)) key.now ≡ false
        → IsPlace (T.texts texts.now) (leaves_of leaves.now) result key.now }
    ensures holds { is_among (row_of (T.texts texts.now) (leaves_of leaves.now)) key.now ≡ true
        → HoldsAt (T.texts texts.now) (leaves_of leaves.now) result key.now }
{
    let ending = ending_of(key);
    let at = leaves.len() - 1;
    let last = leaf(leaves, at);
    if is_below(texts, last[last.len() - 1], key, ending) {
        return Gap {
            leaf: at,
            slot: last.len(),
            ending,
        };
    }
    let at = leaf_for(leaves, texts, key, ending);
    let slot = slot_for(leaf(leaves, at), texts, key, ending);
    Gap {
        leaf: at,
        slot,
        ending,
    }
}

// The last leaf whose first key is not above `key`, or the first leaf.
fn leaf_for<T: Texts>(leaves: &[Leaf], texts: &T, key: &str, ending: u64) -> usize
    requires some { 0 < length leaves.now }
    requires filled { IsTrue (are_filled (leaves_of leaves.now)) }
    requires sound { IsTrue (list_all (is_sound (T.texts texts.now)) (joined (leaves_of leaves.now))) }
    requires ending { ending ≡ ending_of key.now }
    ensures bound { result < length leaves.now }
    ensures not_above { 0 < result
        → spec.is_below key.now (first_key (T.texts texts.now) (leaves_of leaves.now) result) ≡ false }
    ensures next_above { result + 1 < length leaves.now
        → spec.is_below key.now (first_key (T.texts texts.now) (leaves_of leaves.now) (result + 1)) ≡ true }
{
    let mut low = 0;
    let mut high = leaves.len();
    while high - low > 1 {
        let middle = low + (high - low) / 2;
        if is_above(texts, leaf(leaves, middle)[0], key, ending) {
            high = middle;
        } else {
            low = middle;
        }
    }
    low
}

// The first slot of a leaf whose key is not below `key`, or the leaf's length.
fn slot_for<T: Texts>(leaf: &[Slot], texts: &T, key: &str, ending: u64) -> usize
    requires sound { IsTrue (list_all (is_sound (T.texts texts.now)) leaf.now) }
    requires ending { ending ≡ ending_of key.now }
    ensures bound { result ≤ length leaf.now }
    ensures before { 0 < result
        → spec.is_below (key_of (T.texts texts.now) (slot_at leaf.now (result - 1))) key.now ≡ true }
    ensures after { result < length leaf.now
        → spec.is_below (key_of (T.texts texts.now) (slot_at leaf.now result)) key.now ≡ false }
{
    let mut low = 0;
    let mut high = leaf.len();
    while low < high {
        let middle = low + (high - low) / 2;
        if is_below(texts, leaf[middle], key, ending) {
            low = middle + 1;
        } else {
            high = middle;
        }
    }
    low
}

// Whether the key of a slot is below `key`.
fn is_below<T: Texts>(texts: &T, slot: Slot, key: &str, ending: u64) -> bool
    requires sound { IsTrue (is_sound (T.texts texts.now) slot) }
    requires ending { ending ≡ ending_of key.now }
    ensures { result ≡ spec.is_below (key_of (T.texts texts.now) slot) key.now }
{
    if slot.ending == ending {
        texts.text(slot.position) < key
    } else {
        slot.ending < ending
    }
}

// Whether the key of a slot is above `key`.
fn is_above<T: Texts>(texts: &T, slot: Slot, key: &str, ending: u64) -> bool
    requires sound { IsTrue (is_sound (T.texts texts.now) slot) }
    requires ending { ending ≡ ending_of key.now }
    ensures { result ≡ spec.is_below key.now (key_of (T.texts texts.now) slot) }
{
    if slot.ending == ending {
        key < texts.text(slot.position)
    } else {
        ending < slot.ending
    }
}

// Whether a slot stands for `key`.
fn is_at<T: Texts>(texts: &T, slot: Slot, key: &str, ending: u64) -> bool
    requires sound { IsTrue (is_sound (T.texts texts.now) slot) }
    requires ending { ending ≡ ending_of key.now }
    ensures { IsTrue result ↔ (key_of (T.texts texts.now) slot ≡ key.now) }
{
    slot.ending == ending && texts.text(slot.position) == key
}

fn leaf(leaves: &[Leaf], at: usize) -> &[Slot]
    requires { at < length leaves.now }
    ensures { result.now ≡ leaf_at (leaves_of leaves.now) at }
{
    leaves[at].as_slice()
}

// A slot for each text.
pub fn build<T: Texts>(alloc: Global, texts: &T) -> Result<Vec<Leaf>, AllocError>
    requires some { 0 < length (T.texts texts.now) }
    requires distinct { IsTrue (are_distinct (T.texts texts.now)) }
    ensures { IfOk result (λ leaves. IsSorted (T.texts texts.now) (leaves_of leaves.items)) }
{
    let count = texts.count();
    let first = Slot {
        ending: ending_of(texts.text(0)),
        position: 0,
    };
    let mut leaves = Vec::new(alloc);
    append(&mut leaves, first, count.min(LEAF))?;
    for position in 1..count {
        let gap = gap(leaves.as_slice(), texts, texts.text(position));
        insert(&mut leaves, gap, position)?;
    }
    Ok(leaves)
}

// A slot for each text, and one for a key that is none of them and is to stand after them. It is not inlined, since a
// table gets its leaves once.
#[cold]
#[inline(never)]
pub fn build_with<T: Texts>(alloc: Global, texts: &T, key: &str) -> Result<Vec<Leaf>, AllocError>
    requires some { 0 < length (T.texts texts.now) }
    requires distinct { IsTrue (are_distinct (T.texts texts.now)) }
    requires absent { is_among (T.texts texts.now) key.now ≡ false }
    ensures { IfOk result (λ leaves. IsSorted (T.texts texts.now ++ key.now ∷ []) (leaves_of leaves.items)) }
{
    let mut leaves = build(alloc, texts)?;
    let gap = gap(leaves.as_slice(), texts, key);
    insert(&mut leaves, gap, texts.count())?;
    Ok(leaves)
}

// Puts a slot for a position where its key goes.
pub fn insert(leaves: &mut Vec<Leaf>, gap: Gap, position: usize) -> Result<(), AllocError>
    requires in_leaves { gap.leaf < length leaves.old.items }
    requires in_leaf { gap.slot ≤ length (leaf_at (leaves_of leaves.old.items) gap.leaf) }
    requires filled { IsTrue (are_filled (leaves_of leaves.old.items)) }
    ensures row { OnOk result
        (joined (leaves_of leaves.new.items) ≡ row_with (leaves_of leaves.old.items) gap position) }
    ensures filled { IsTrue (are_filled (leaves_of leaves.new.items)) }
    ensures some { 0 < length leaves.new.items }
    ensures err_unchanged { OnErr result (leaves_of leaves.new.items ≡ leaves_of leaves.old.items) }
{
    let slot = Slot {
        ending: gap.ending,
        position,
    };
    let len = leaf(leaves.as_slice(), gap.leaf).len();
    let is_full = is_full(len, leaves.len());
    if is_full && gap.slot == len && gap.leaf + 1 == leaves.len() {
        return append(leaves, slot, LEAF);
    }
    place(leaves, gap.leaf, gap.slot, slot)?;
    if is_full {
        split(leaves, gap.leaf);
    }
    Ok(())
}

// Whether so many slots fill a leaf, one of so many leaves: `LEAF` slots, and twice the square root of the leaves, about.
// A split moves the list of leaves, so the more of them there are, the rarer it has to be.
fn is_full(slots: usize, leaves: usize) -> bool
    ensures { IsTrue result → 2 ≤ slots }
{
    slots >= LEAF && leaves / slots <= slots / 4
}

// Puts a slot into a leaf of its own after the others, with room for so many.
fn append(leaves: &mut Vec<Leaf>, slot: Slot, room: usize) -> Result<(), AllocError>
    ensures ok { OnOk result (leaves_of leaves.new.items ≡ leaves_of leaves.old.items ++ (slot ∷ []) ∷ []) }
    ensures err_unchanged { OnErr result (leaves_of leaves.new.items ≡ leaves_of leaves.old.items) }
{
    let mut leaf = Vec::with_capacity(*leaves.allocator(), room)?;
    leaf.push(slot)?;
    leaves.push(leaf)?;
    Ok(())
}

// Puts a slot into a leaf.
fn place(leaves: &mut Vec<Leaf>, at: usize, index: usize, slot: Slot) -> Result<(), AllocError>
    requires within { at < length leaves.old.items }
    requires in_leaf { index ≤ length (leaf_at (leaves_of leaves.old.items) at) }
    ensures ok { OnOk result (leaves_of leaves.new.items ≡ with_slot (leaves_of leaves.old.items) at index slot) }
    ensures err_unchanged { OnErr result (leaves_of leaves.new.items ≡ leaves_of leaves.old.items) }
{
    let leaf = &mut leaves[at];
    put(leaf, index, slot)?;
    Ok(())
}

// `Vec::insert`, which moves the slots after in one go.
#[tactic(auto, using(crate::proofs::InsertByShift::shifted_up))]
fn put(leaf: &mut Leaf, index: usize, slot: Slot) -> Result<(), AllocError>
    requires { index ≤ length leaf.old.items }
    ensures ok { OnOk result (leaf.new.items ≡ insert_at leaf.old.items index slot) }
    ensures err_unchanged { OnErr result (leaf.new.items ≡ leaf.old.items) }
{
    let len = leaf.len();
    leaf.push(slot)?;
    leaf.copy_within(index..len, index + 1);
    leaf[index] = slot;
    Ok(())
}

// Splits a leaf in two where memory allows; the slots stay as they are.
fn split(leaves: &mut Vec<Leaf>, at: usize)
    requires within { at < length leaves.old.items }
    requires two { 2 ≤ length (leaf_at (leaves_of leaves.old.items) at) }
    requires filled { IsTrue (are_filled (leaves_of leaves.old.items)) }
    ensures row { joined (leaves_of leaves.new.items) ≡ joined (leaves_of leaves.old.items) }
    ensures filled { IsTrue (are_filled (leaves_of leaves.new.items)) }
    ensures some { 0 < length leaves.new.items }
{
    if leaves.try_reserve(1).is_err() {
        return;
    }
    let leaf = &mut leaves[at];
    let middle = leaf.len() / 2;
    let Ok(right) = leaf.split_off(middle) else {
        return;
    };
    match leaves.insert(at + 1, right) {
        Ok(()) => {}
        Err(_) => unreachable!(),
    }
}

// A copy of leaves.
pub fn copy(alloc: Global, leaves: &[Leaf]) -> Result<Vec<Leaf>, AllocError>
    ensures { IfOk result (λ copies. leaves_of copies.items ≡ leaves_of leaves.now) }
{
    let mut copies = Vec::with_capacity(alloc, leaves.len())?;
    for leaf in leaves {
        copies.push(Vec::from_slice(alloc, leaf.as_slice())?)?;
    }
    Ok(copies)
}
