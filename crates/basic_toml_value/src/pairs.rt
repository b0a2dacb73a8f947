//! A table: its pairs in one vector, and an index of their keys where there are more than a few.
ghost use Rattle.std.specs.Prelude.{◌≡◌, ◌==◌, ℕ, List, [], ◌∷◌, ◌++◌, length, OnOk, OnErr, IfErr, IsTrue, ◌↔◌};
ghost use Rattle.std.specs.Prelude.{string_bytes, false};
ghost use Rattle.std.specs.Option.{option_copied};
ghost use Rattle.basic_toml_index.specs.Keys.{are_distinct};
ghost use Rattle.basic_toml_index.specs.Index.{IsIndex, IsGap};
ghost use Rattle.basic_toml_value.specs.Entries.{seen, texts_of};
ghost use Rattle.basic_toml_value.specs.Pairs.{keys_of, has_key, value_at, Gains};

use crate::text::Text;
use basic_toml_index::{Found, Gap, HasText, Index};
use std::alloc::Global;
use std::fmt;
use std::marker::Model;

mod growth;

pub use growth::Place;

/// Why a pair was not put into a table.
#[derive(Clone, Copy, Debug, PartialEq, Eq)]
pub enum PushRefusal {
    /// The table has the key.
    KeyPresent,
    /// A growth of the table was refused memory.
    OutOfMemory,
}

/// A key with its value.
#[derive(Drop)]
pub struct Pair<V> {
    /// The key.
    pub key: Text,
    /// Its value.
    pub value: V,
}

impl<V> HasText for Pair<V> {
    ghost use Rattle.basic_toml_value.specs.Text.{text_bytes};

    ghost text_of = { λ pair. text_bytes pair.key };

    #[inline(always)]
    fn text(&self) -> &str {
        self.key.as_str()
    }
}

/// Keys with their values, in order, each key once (TOML v0.5.0, "Table").
///
/// `for (key, value) in &pairs` goes over them in that order, as `iter` does.
#[derive(Drop)]
pub struct Pairs<V> {
    // It stands first: then the words of a table within a value meet those of its other kinds, so that a move of a value
    // takes less.
    index: Index,
    entries: Vec<Pair<V>>,
}

impl<V> Model for Pairs<V> {
    ghost use Rattle.std.specs.Prelude.{List, ℕ};
    ghost use Rattle.basic_toml_value.specs.Pairs.{pairs_code};
    ghost use Rattle.basic_toml_index.specs.Index.{IsIndex};
    ghost use Rattle.basic_toml_value.specs.Entries.{seen, texts_of};

    ghost Value = { List (List ℕ × V) };

    ghost coded = { pairs_code V.code };

    ghost view = { λ p. seen p.entries.items };

    ghost invariant = { λ p. IsIndex (texts_of p.entries.items) p.index };
}

impl<V> Pairs<V> {
    ghost use Rattle.basic_toml_value.specs.Iter.{rest};

    /// An empty table, which takes no memory yet.
    pub fn new(alloc: Global) -> Pairs<V>
        ensures { result ≡ [] }
    {
        Pairs {
            entries: Vec::new(alloc),
            index: Index::none(),
        }
    }

    /// A table of pairs whose keys differ, with an index of the keys, which only up to 16 do without.
    pub fn from_parts(entries: Vec<Pair<V>>, index: Index) -> Pairs<V>
        requires { IsIndex (texts_of entries.items) index }
        ensures { result ≡ seen entries.items }
    {
        Pairs { entries, index }
    }

    /// How many pairs there are.
    pub fn len(&self) -> usize
        ensures { result ≡ length self.now }
    {
        self.entries.len()
    }

    /// Whether there is no pair.
    pub fn is_empty(&self) -> bool
        ensures { result ≡ (length self.now == 0) }
    {
        self.entries.is_empty()
    }

    /// The value at a key, and `None` where the key is not there.
    #[tactic(auto, using(crate::proofs::SeenPairs::seen_pairs))]
    pub fn get(&self, key: &str) -> Option<&V>
        ensures { option_copied result ≡ value_at self.now key.now }
    {
        match self.index.search(&self.entries, key) {
            Found::At(position) => Some(&self.entries[position].value),
            Found::Absent(_) => None,
        }
    }

    /// Puts a pair last, unless its key is there.
    ///
    /// # Errors
    ///
    /// `KeyPresent` where the key is there, and `OutOfMemory` where a growth was refused. A push that fails hands the
    /// pair back and leaves the table as it was.
    #[tactic(auto, using(crate::proofs::SeenPairs::seen_pairs))]
    pub fn push(&mut self, key: String, value: V) -> Result<(), (PushRefusal, String, V)>
        ensures ok { OnOk result (self.new ≡ self.old ++ (string_bytes key, value) ∷ []) }
        ensures gains { OnOk result (Gains self.old (string_bytes key) value self.new) }
        ensures absent { OnOk result (has_key self.old (string_bytes key) ≡ false) }
        ensures present { IfErr result
            (λ e. (e.0 ≡ PushRefusal.KeyPresent) ↔ IsTrue (has_key self.old (string_bytes key))) }
        ensures err_unchanged { OnErr result (self.new ≡ self.old) }
        ensures pair_back { IfErr result (λ e. (e.1 ≡ key) × (e.2 ≡ value)) }
    {
        match self.index.search(&self.entries, key.as_str()) {
            Found::At(_) => Err((PushRefusal::KeyPresent, key, value)),
            Found::Absent(gap) => match put(&mut self.entries, &mut self.index, gap, key, value) {
                Ok(()) => Ok(()),
                Err((key, value)) => Err((PushRefusal::OutOfMemory, key, value)),
            },
        }
    }

    /// The pairs in order.
    #[tactic(auto, using(crate::proofs::SeenPairs::seen_pairs))]
    pub fn entries(&self) -> &[Pair<V>]
        ensures pairs { seen result.now ≡ self.now }
        ensures distinct { IsTrue (are_distinct (keys_of self.now)) }
    {
        self.entries.as_slice()
    }

    /// The pairs in order, moved out of the table.
    #[tactic(auto, using(crate::proofs::SeenPairs::seen_pairs))]
    pub fn into_entries(self) -> Vec<Pair<V>>
        ensures pairs { seen result.items ≡ self }
        ensures distinct { IsTrue (are_distinct (texts_of result.items)) }
    {
        self.entries
    }

    /// The index of the keys.
    #[tactic(auto, using(crate::proofs::SeenPairs::seen_pairs))]
    pub fn index(&self) -> &Index
        ensures { IsIndex (keys_of self.now) result.now }
    {
        &self.index
    }

    // The allocator that the table keeps.
    pub(crate) fn allocator(&self) -> Global {
        *self.entries.allocator()
    }

    /// The pairs in order, each once.
    #[tactic(auto, using(crate::proofs::SeenPairs::seen_pairs))]
    pub fn iter(&self) -> Iter<'_, V>
        ensures pairs { rest result ≡ self.now }
        ensures distinct { IsTrue (are_distinct (keys_of self.now)) }
    {
        Iter {
            entries: self.entries.as_slice(),
            at: 0,
        }
    }
}

// Puts a pair last whose key goes into the gap.
fn put<V>(
    entries: &mut Vec<Pair<V>>,
    index: &mut Index,
    gap: Gap,
    key: String,
    value: V,
) -> Result<(), (String, V)>
    requires index { IsIndex (texts_of entries.old.items) index.old }
    requires gap { IsGap (texts_of entries.old.items) index.old (string_bytes key) gap }
    ensures ok { OnOk result (seen entries.new.items ≡ seen entries.old.items ++ (string_bytes key, value) ∷ []) }
    ensures index { IsIndex (texts_of entries.new.items) index.new }
    ensures err_unchanged { OnErr result (entries.new.items ≡ entries.old.items) }
    ensures pair_back { IfErr result (λ e. (e.0 ≡ key) × (e.1 ≡ value)) }
{
    if entries.try_reserve(1).is_err() {
        return Err((key, value));
    }
    let alloc = *entries.allocator();
    if index.insert(alloc, entries, key.as_str(), gap).is_err() {
        return Err((key, value));
    }
    let key = Text::of(key);
    entries.push_reserved(Pair { key, value });
    Ok(())
}

impl<V: fmt::Debug> fmt::Debug for Pairs<V> {
    fn fmt<W: fmt::Write>(&self, f: &mut fmt::Formatter<W>) -> fmt::Result {
        let mut out = f.debug_map();
        for (key, value) in self {
            out.entry(&key, value);
        }
        out.finish()
    }
}

impl<'t, V> IntoIterator for &'t Pairs<V> {
    ghost use Rattle.basic_toml_value.specs.Iter.{rest};

    type Item = (&'t str, &'t V);

    type IntoIter = Iter<'t, V>;

    ghost into_iter_gives = { λ pairs it. (rest it ≡ pairs.now) × IsTrue (are_distinct (keys_of pairs.now)) };

    fn into_iter(self) -> Iter<'t, V> {
        self.iter()
    }
}

/// The pairs of a table in order, each once.
#[derive(Drop)]
pub struct Iter<'t, V> {
    entries: &'t [Pair<V>],
    at: usize,
}

impl<'t, V> Iterator for Iter<'t, V> {
    ghost use Rattle.std.specs.Iterator.{YieldsFirstBy, item_count};
    ghost use Rattle.basic_toml_value.specs.Iter.{rest, pair_of};

    type Item = (&'t str, &'t V);

    ghost next_gives = { YieldsFirstBy pair_of rest };

    ghost remaining = { item_count rest };

    fn next(&mut self) -> Option<(&'t str, &'t V)> {
        let entries = self.entries;
        let Some(pair) = entries.get(self.at) else {
            return None;
        };
        self.at += 1;
        Some((pair.key.as_str(), &pair.value))
    }
}
