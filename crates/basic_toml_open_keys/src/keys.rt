//! The keys that are known of a table, and the key that is set.
//!
//! While the keys are few, or each is above those before it, there is no index of them: a key above the greatest is new
//! without a search, and else the keys are looked through one by one. More keys get an index once one of them is not
//! above the greatest.
ghost use Rattle.std.specs.Prelude.{◌≡◌, ℕ, ◌+◌, ◌<◌, ◌≤◌, true, false, not, is_some, unwrap_or, None, Some, List, [], ◌∷◌, ◌++◌, IfOk, OnErr, IsTrue, IsSome, MatchOption, length, take};
ghost use Rattle.basic_toml_index.specs.Keys.{are_distinct};
ghost use Rattle.basic_toml_index.specs.Index.{IsIndex};
ghost use Rattle.basic_toml_open_keys.specs.Keys.{is_below, with_key, with_keys, key_before, turned, IsGreatest};
ghost use Rattle.basic_toml_open_keys.specs.Kept as n;
ghost use Rattle.basic_toml_open_keys.specs.Kept.{kept_of};
ghost use Rattle.std.proofs.Props.{props};

use crate::names::Names;
use basic_toml_index::{Found, Index};
use std::alloc::{AllocError, Global};

// How many keys are looked through one by one.
const FEW: usize = 32;

// From how many bytes of names on they are not remembered.
const MUCH: usize = 4096;

// Whether the name that is set is among those that are kept.
#[tactic(auto, using(crate::proofs::KeyIsAdded::with_keys_take, crate::proofs::KeyIsAdded::with_keys_at))]
fn is_among(names: &Names) -> bool
    ensures { result ≡ with_keys (kept_of names.now) (n.pending_of names.now) }
{
    for position in 0..names.len() {
        if names.get(position) == names.pending() {
            return true;
        }
    }
    false
}

// Keeps the name that is set.
#[tactic(auto, using(crate::proofs::KeyIsAdded::with_keys_push, crate::proofs::KeyIsAdded::distinct_push))]
fn keep(names: &mut Names) -> Result<(), AllocError>
    ensures ok { IfOk result (λ _. kept_of names.new ≡ kept_of names.old ++ n.pending_of names.old ∷ []) }
    ensures keys { IfOk result
        (λ _. with_keys (kept_of names.new) ≡ with_key (n.pending_of names.old) (with_keys (kept_of names.old))) }
    ensures distinct { IfOk result (λ _. IsTrue (are_distinct (kept_of names.old))
        → with_keys (kept_of names.old) (n.pending_of names.old) ≡ false → IsTrue (are_distinct (kept_of names.new))) }
    ensures err { OnErr result (kept_of names.new ≡ kept_of names.old) }
{
    names.keep()
}

// Whether a key is above the greatest name.
fn is_above(names: &Names, greatest: usize, key: &str) -> bool
    requires { greatest ≤ length (kept_of names.now) }
    ensures { result ≡ is_below (key_before greatest (kept_of names.now)) key.now }
{
    match greatest {
        0 => !key.is_empty(),
        count => names.get(count - 1) < key,
    }
}

// How many of the first names stand up to the greatest of these.
#[tactic(auto, using(crate::proofs::Greatest::none_greatest, crate::proofs::Greatest::raised_at, crate::proofs::Greatest::kept_at))]
fn greatest_of(names: &Names, count: usize) -> usize
    requires { count ≤ length (kept_of names.now) }
    ensures within { result ≤ count }
    ensures greatest { IsGreatest (key_before result (kept_of names.now)) (with_keys (take count (kept_of names.now))) }
{
    let mut greatest = 0;
    for position in 0..count {
        if is_above(names, greatest, names.get(position)) {
            greatest = position + 1;
        }
    }
    greatest
}

// How many of the first of so many keys end in a key, where `count` of them did before it and its neighbour changed
// places.
#[tactic(auto, using(crate::proofs::Turned::before_other, crate::proofs::Turned::before_at, crate::proofs::Turned::before_after))]
fn turned_count(count: usize, position: usize, len: usize) -> usize
    requires { position + 1 < len }
    ensures within { count ≤ len → result ≤ len }
    ensures key { (keys : List (List ℕ)) → length keys ≡ len
        → key_before result (turned position keys) ≡ key_before count keys }
{
    if count == position + 1 {
        position + 2
    } else if count == position + 2 {
        position + 1
    } else {
        count
    }
}

fn forget(names: &mut Names, greatest: &mut usize, index: &mut Option<Index>)
    ensures names { kept_of names.new ≡ [] }
    ensures greatest { greatest.new ≡ 0 }
    ensures index { index.new ≡ None }
{
    names.clear();
    *greatest = 0;
    *index = None;
}

#[derive(Drop)]
pub struct Keys {
    names: Names,
    // How many names stand up to the greatest one, itself included, where there is no index.
    greatest: usize,
    index: Option<Index>,
    alloc: Global,
    ghost distinct: { IsTrue (are_distinct (kept_of names)) },
    ghost within: { greatest ≤ length (kept_of names) },
    ghost searched: { MatchOption index (IsGreatest (key_before greatest (kept_of names)) (with_keys (kept_of names))) (λ i. IsIndex (kept_of names) i) } by { Prim.hlevel props },
}

impl Keys {
    ghost use Rattle.basic_toml_open_keys.specs.PresentKeys.{keys_of, pending_of};

    pub fn new(alloc: Global) -> Keys
        ensures { kept_of result.names ≡ [] }
    {
        Keys {
            names: Names::new(alloc),
            greatest: 0,
            index: None,
            alloc,
        }
    }

    // Forgets all keys.
    pub fn clear(&mut self)
        ensures { kept_of self.new.names ≡ [] }
    {
        forget(&mut self.names, &mut self.greatest, &mut self.index);
    }

    pub fn names(&self) -> &Names
        ensures { result.now ≡ self.now.names }
    {
        &self.names
    }

    // Whether their memory is worth giving back.
    pub fn is_large(&self) -> bool {
        self.index.is_some() || self.names.size() > MUCH
    }

    // Forgets the keys from this one on.
    #[tactic(auto, using(crate::proofs::KeyIsAdded::distinct_take, crate::proofs::Greatest::greatest_shed, crate::proofs::Greatest::within_shed))]
    pub fn shed(&mut self, count: usize)
        requires { count ≤ length (kept_of self.old.names) }
        ensures { kept_of self.new.names ≡ take count (kept_of self.old.names) }
    {
        self.greatest = greatest_of(&self.names, count);
        self.names.shed(count);
        self.index = None;
    }

    // Whether there is an index of them.
    pub fn has_index(&self) -> bool
        ensures { result ≡ is_some self.now.index }
    {
        self.index.is_some()
    }

    // Puts a key behind the one that stands behind it.
    #[tactic(auto, using(crate::proofs::Turned::distinct_turned, crate::proofs::Turned::within_turned, crate::proofs::Turned::greatest_turned))]
    pub fn turn(&mut self, position: usize)
        requires within { position + 1 < length (kept_of self.old.names) }
        requires no_index { self.old.index ≡ None }
        ensures { kept_of self.new.names ≡ turned position (kept_of self.old.names) }
    {
        let len = self.names.len();
        self.names.turn(position);
        self.greatest = turned_count(self.greatest, position, len);
    }

    // Sets a key.
    pub fn set(&mut self, key: &str) -> Result<(), AllocError>
        ensures kept { kept_of self.new.names ≡ kept_of self.old.names }
        ensures pending { IfOk result (λ _. pending_of self.new ≡ key.now) }
    {
        self.names.set(key)
    }

    // Enters the key that is set. `false` where it is there already, and then nothing is changed.
    pub fn enter(&mut self) -> Result<bool, AllocError>
        ensures answer { IfOk result (λ is_new. is_new ≡ not (keys_of self.old (pending_of self.old))) }
        ensures kept { IfOk result (λ is_new. is_new ≡ true
            → kept_of self.new.names ≡ kept_of self.old.names ++ pending_of self.old ∷ []) }
        ensures unchanged { IfOk result (λ is_new. is_new ≡ false → self.new ≡ self.old) }
    {
        if self.index.is_some() {
            self.enter_indexed()
        } else {
            self.enter_few()
        }
    }

    // The same with an index.
    #[tactic(auto, using(crate::proofs::KeyIsAdded::key_found, crate::proofs::KeyIsAdded::key_absent))]
    fn enter_indexed(&mut self) -> Result<bool, AllocError>
        requires { IsSome self.old.index }
        ensures answer { IfOk result (λ is_new. is_new ≡ not (keys_of self.old (pending_of self.old))) }
        ensures kept { IfOk result (λ is_new. is_new ≡ true
            → kept_of self.new.names ≡ kept_of self.old.names ++ pending_of self.old ∷ []) }
        ensures unchanged { IfOk result (λ is_new. is_new ≡ false → self.new ≡ self.old) }
    {
        let Some(index) = &mut self.index else {
            return Err(AllocError);
        };
        let gap = match index.search(&self.names, self.names.pending()) {
            Found::At(_) => return Ok(false),
            Found::Absent(gap) => gap,
        };
        index.insert(self.alloc, &self.names, self.names.pending(), gap)?;
        if keep(&mut self.names).is_ok() {
            return Ok(true);
        }
        forget(&mut self.names, &mut self.greatest, &mut self.index);
        Err(AllocError)
    }

    // The same without one.
    #[tactic(auto, using(crate::proofs::Greatest::not_among))]
    fn enter_few(&mut self) -> Result<bool, AllocError>
        requires { self.old.index ≡ None }
        ensures answer { IfOk result (λ is_new. is_new ≡ not (keys_of self.old (pending_of self.old))) }
        ensures kept { IfOk result (λ is_new. is_new ≡ true
            → kept_of self.new.names ≡ kept_of self.old.names ++ pending_of self.old ∷ []) }
        ensures unchanged { IfOk result (λ is_new. is_new ≡ false → self.new ≡ self.old) }
    {
        if self.is_above() {
            keep(&mut self.names)?;
            let count = self.names.len();
            self.greatest = count;
            return Ok(true);
        }
        if is_among(&self.names) {
            return Ok(false);
        }
        keep(&mut self.names)?;
        if self.names.len() > FEW {
            self.index = Some(Index::of(self.alloc, &self.names)?);
        }
        Ok(true)
    }

    // Whether the key that is set is above the greatest.
    fn is_above(&self) -> bool
        ensures { result ≡ is_below (key_before self.now.greatest (kept_of self.now.names)) (pending_of self.now) }
    {
        is_above(&self.names, self.greatest, self.names.pending())
    }
}
