//! An index of keys, for whoever keeps texts by their positions: a table, the keys of an open table.
//!
//! Up to `FEW` texts stand without an index and are looked through. Beyond that their positions stand sorted, each
//! beside the ending of its text, so that most comparisons touch no text. A search is one walk: it answers the position
//! of a key, or the gap where the key would go, and `insert` takes the gap.
#![tactic(auto)]

ghost use Rattle.std.specs.Prelude.{◌≡◌, List, ℕ, [], ◌∷◌, ◌++◌, length, false, Some, IsTrue, IfOk, OnOk, OnErr};
ghost use Rattle.std.specs.Prelude.{slice_get, ◌<◌, ◌≤◌, true, take};
ghost use Rattle.basic_toml_index.specs.Keys.{are_distinct, is_among};
ghost use Rattle.basic_toml_index.specs.Index.{IsIndex, IsGap, IfAt, IfAbsent, key_at, few};

mod ending;
mod leaves;

use leaves::Leaf;
use std::alloc::{AllocError, Global};

// How many texts stand without an index.
const FEW: usize = 16;

/// Texts by their positions, from 0 on.
pub trait Texts {
    ghost use Rattle.std.specs.Prelude.{◌≡◌, ◌<◌, List, ℕ, length, Some, slice_get};

    ghost texts: { Self → List (List ℕ) };

    /// How many texts there are.
    fn count(&self) -> usize
        ensures { result ≡ length (texts self.now) };

    /// The text at a position.
    fn text(&self, position: usize) -> &str
        requires { position < length (texts self.now) }
        ensures { slice_get (texts self.now) position ≡ Some result.now };
}

/// What has a text of its own, as a pair has a key.
pub trait HasText {
    ghost use Rattle.std.specs.Prelude.{◌≡◌, List, ℕ};

    ghost text_of: { Self → List ℕ };

    /// The text.
    fn text(&self) -> &str
        ensures { result.now ≡ text_of self.now };
}

// The texts of a vector's elements.
impl<E: HasText> Texts for Vec<E> {
    ghost use Rattle.std.specs.Prelude.{map};

    ghost texts = { λ elements. map E.text_of elements.items };

    #[inline(always)]
    fn count(&self) -> usize {
        self.len()
    }

    #[inline(always)]
    fn text(&self, position: usize) -> &str {
        self[position].text()
    }
}

/// What a search for a key finds.
#[derive(Clone, Copy)]
pub enum Found {
    /// The key is the text at this position.
    At(usize),
    /// The key is none of the texts, and would go into this gap.
    Absent(Gap),
}

/// Where a key that is none of the texts goes in an index of them.
#[derive(Clone, Copy)]
pub struct Gap {
    leaf: usize,
    slot: usize,
    ending: u64,
}

impl Gap {
    // The gap where no index stands.
    fn none() -> Gap {
        Gap {
            leaf: 0,
            slot: 0,
            ending: 0,
        }
    }
}

/// An index of texts that differ, or that there is none yet.
///
/// It holds no text: each call is handed the texts that it is an index of.
#[derive(Drop)]
pub struct Index {
    leaves: Option<Box<Vec<Leaf>>>,
}

impl Index {
    /// No index, which takes no memory: it serves up to 16 texts that differ, and a search looks through them.
    pub fn none() -> Index
        ensures { (keys : List (List ℕ)) → IsTrue (are_distinct keys) → length keys ≤ few → IsIndex keys result }
    {
        Index { leaves: None }
    }

    /// An index of texts that differ, made at once; none where the texts are few.
    ///
    /// # Errors
    ///
    /// `AllocError` where memory was refused.
    pub fn of<T: Texts>(alloc: Global, texts: &T) -> Result<Index, AllocError>
        requires { IsTrue (are_distinct (T.texts texts.now)) }
        ensures { IfOk result (λ index. IsIndex (T.texts texts.now) index) }
    {
        if texts.count() <= FEW {
            return Ok(Index::none());
        }
        let leaves = leaves::build(alloc, texts)?;
        Ok(Index {
            leaves: Some(Box::new(alloc, leaves)?),
        })
    }

    /// An index of the texts before the first one that is the same as one before it, and how many these are: all, where
    /// no text repeats. It is made at once, by sorting, and serves very many texts: `of` and `insert` look for the place
    /// of each among those before it.
    ///
    /// # Errors
    ///
    /// `AllocError` where memory was refused.
    pub fn until_repeat<T: Texts>(alloc: Global, texts: &T) -> Result<(Index, usize), AllocError>
        ensures within { IfOk result (λ found. found.1 ≤ length (T.texts texts.now)) }
        ensures index { IfOk result (λ found. IsIndex (take found.1 (T.texts texts.now)) found.0) }
        ensures repeat { IfOk result (λ found. found.1 < length (T.texts texts.now)
            → is_among (take found.1 (T.texts texts.now)) (key_at (T.texts texts.now) found.1) ≡ true) }
    {
        if texts.count() == 0 {
            return Ok((Index::none(), 0));
        }
        let (leaves, count) = leaves::until_repeat(alloc, texts)?;
        let index = Index {
            leaves: Some(Box::new(alloc, leaves)?),
        };
        Ok((index, count))
    }

    /// The position of a key among the texts, or where it would go.
    #[inline(always)]
    pub fn search<T: Texts>(&self, texts: &T, key: &str) -> Found
        requires { IsIndex (T.texts texts.now) self.now }
        ensures found { IfAt result (λ position. slice_get (T.texts texts.now) position ≡ Some key.now) }
        ensures absent { IfAbsent result (λ gap. is_among (T.texts texts.now) key.now ≡ false) }
        ensures gap { IfAbsent result (λ gap. IsGap (T.texts texts.now) self.now key.now gap) }
    {
        match &self.leaves {
            Some(leaves) => leaves::search(leaves.as_slice(), texts, key),
            None => look_through(texts, key),
        }
    }

    /// Takes in a key that is to stand after the texts, where it goes.
    ///
    /// # Errors
    ///
    /// `AllocError` where memory was refused. The index stays one of the texts as they are.
    #[inline(always)]
    pub fn insert<T: Texts>(
        &mut self,
        alloc: Global,
        texts: &T,
        key: &str,
        gap: Gap,
    ) -> Result<(), AllocError>
        requires index { IsIndex (T.texts texts.now) self.old }
        requires gap { IsGap (T.texts texts.now) self.old key.now gap }
        ensures ok { OnOk result (IsIndex (T.texts texts.now ++ key.now ∷ []) self.new) }
        ensures err { OnErr result (IsIndex (T.texts texts.now) self.new) }
    {
        let count = texts.count();
        if let Some(leaves) = &mut self.leaves {
            return leaves::insert(leaves, gap, count);
        }
        if count >= FEW {
            let leaves = leaves::build_with(alloc, texts, key)?;
            self.leaves = Some(Box::new(alloc, leaves)?);
        }
        Ok(())
    }

    /// A copy, which serves the same texts.
    ///
    /// # Errors
    ///
    /// `AllocError` where memory was refused.
    pub fn clone(&self, alloc: Global) -> Result<Index, AllocError>
        ensures { IfOk result (λ copy. (keys : List (List ℕ)) → IsIndex keys self.now → IsIndex keys copy) }
    {
        match &self.leaves {
            Some(leaves) => {
                let copy = leaves::copy(alloc, leaves.as_slice())?;
                Ok(Index {
                    leaves: Some(Box::new(alloc, copy)?),
                })
            }
            None => Ok(Index::none()),
        }
    }
}

// The position of a key among texts, looked at one after the other.
#[tactic(auto, using(crate::proofs::DistinctKeys::keys_passed))]
#[inline(always)]
fn look_through<T: Texts>(texts: &T, key: &str) -> Found
    ensures found { IfAt result (λ position. slice_get (T.texts texts.now) position ≡ Some key.now) }
    ensures absent { IfAbsent result (λ gap. is_among (T.texts texts.now) key.now ≡ false) }
{
    for position in 0..texts.count() {
        if texts.text(position) == key {
            return Found::At(position);
        }
    }
    Found::Absent(Gap::none())
}
