//! How a table grows and changes in place: a key is entered where it is not there, and values change at their positions.
ghost use Rattle.std.specs.Prelude.{◌≡◌, ◌<◌, IfErr, IfOk, OnOk, Some, slice_get, vec_capacity, vec_len};
ghost use Rattle.std.specs.Borrow.{sem};
ghost use Rattle.basic_toml_value.specs.Entries.{seen, texts_of};
ghost use Rattle.basic_toml_index.specs.Index.{IsGap, IsIndex};
ghost use Rattle.basic_toml_value.specs.Growth.{EntersKey, FindsOrAdds, Gives, new_place, values_of};

use crate::pairs::{Pair, Pairs};
use crate::text::Text;
use basic_toml_index::{Found, Gap, Index};
use std::alloc::{AllocError, Global};

// Below so many pairs the room doubles from one, as many tables are small: a vector begins with room for four.
const FEW: usize = 4;

// Makes room for one more pair.
fn make_room<V>(pairs: &mut Vec<Pair<V>>) -> Result<(), AllocError>
    ensures items { pairs.new.items ≡ pairs.old.items }
    ensures room { OnOk result (vec_len pairs.new < vec_capacity pairs.new) }
{
    let count = pairs.len();
    if count < pairs.capacity() {
        return Ok(());
    }
    if count < FEW {
        return pairs.try_reserve_exact(count.max(1));
    }
    pairs.try_reserve(1)
}

// Puts a key last with a value. Where memory is refused, all stays as it was.
#[inline(always)]
fn add<V: Drop>(
    pairs: &mut Vec<Pair<V>>,
    index: &mut Index,
    key: &str,
    gap: Gap,
    value: V,
) -> Result<usize, AllocError>
    requires index { IsIndex (texts_of pairs.old.items) index.old }
    requires gap { IsGap (texts_of pairs.old.items) index.old key.now gap }
    ensures entered { IfOk result (λ position.
        EntersKey key.now value (seen pairs.old.items) (seen pairs.new.items) position) }
    ensures stands { IfOk result (λ position.
        slice_get (values_of (seen pairs.new.items)) position ≡ Some value) }
    ensures kept { IfErr result (λ _. pairs.new.items ≡ pairs.old.items) }
    ensures index { IsIndex (texts_of pairs.new.items) index.new }
{
    let alloc = *pairs.allocator();
    let position = pairs.len();
    let key = Text::from_str(alloc, key)?;
    make_room(pairs)?;
    index.insert(alloc, pairs, key.as_str(), gap)?;
    pairs.push_reserved(Pair { key, value });
    Ok(position)
}

// The same, with a value that is made. It stands apart, so that a key that is there is found without its room.
#[inline(never)]
fn make_last<V: Drop, F: FnOnce(Option<&V>) -> Result<V, AllocError>>(
    pairs: &mut Vec<Pair<V>>,
    index: &mut Index,
    key: &str,
    gap: Gap,
    make: F,
) -> Result<usize, AllocError>
    requires make { F.IsAlwaysCallable make }
    requires index { IsIndex (texts_of pairs.old.items) index.old }
    requires gap { IsGap (texts_of pairs.old.items) index.old key.now gap }
    ensures entered { IfOk result (λ position. FindsOrAdds (Gives (F.post make)) key.now (seen pairs.old.items)
        (seen pairs.new.items) (new_place position)) }
    ensures kept { IfErr result (λ _. pairs.new.items ≡ pairs.old.items) }
    ensures index { IsIndex (texts_of pairs.new.items) index.new }
{
    let value = make(pairs.last().map(|pair| &pair.value))?;
    add(pairs, index, key, gap, value)
}

/// Where a key stands that was entered.
#[derive(Clone, Copy, Debug, PartialEq, Eq)]
pub struct Place {
    /// Its position.
    pub position: usize,
    /// Whether it is new.
    pub is_new: bool,
}

impl<V: Drop> Pairs<V> {
    ghost use Rattle.std.specs.Prelude.{◌≡◌, ◌<◌, ◌↔◌, [], ◌∷◌, ◌++◌, false, true, length, IfErr, IfSome, IsOk, IsTrue, MatchOption, None, OnErr, OnOk, slice_get, Some};
    ghost use Rattle.basic_toml_index.specs.Keys.{are_distinct};
    ghost use Rattle.basic_toml_value.specs.Pairs.{keys_of, has_key, value_at};
    ghost use Rattle.basic_toml_value.specs.Text.{text_bytes};
    ghost use Rattle.basic_toml_value.specs.Entries.{seen, texts_of};
    ghost use Rattle.basic_toml_index.specs.Index.{IsIndex};
    ghost use Rattle.basic_toml_value.specs.Growth.{with_value, values_of};
    ghost use Rattle.basic_toml_value.specs.Lends.{lends_value};

    /// Makes room for so many more keys.
    ///
    /// # Errors
    ///
    /// `AllocError` where memory was refused. The table stays as it was.
    pub fn reserve(&mut self, more: usize) -> Result<(), AllocError>
        ensures { self.new ≡ self.old }
    {
        self.entries.try_reserve_exact(more)
    }

    /// The pair of a key.
    #[tactic(auto, using(crate::proofs::KeysSeen::keys_seen))]
    pub fn pair(&self, key: &str) -> Option<&Pair<V>>
        ensures value { MatchOption result (value_at self.now key.now ≡ None)
            (λ pair. value_at self.now key.now ≡ Some pair.now.value) }
        ensures same { IfSome result (λ pair. text_bytes pair.now.key ≡ key.now) }
    {
        match self.index.search(&self.entries, key) {
            Found::At(position) => Some(&self.entries[position]),
            Found::Absent(_) => None,
        }
    }

    /// The key at a position.
    #[tactic(auto, using(crate::proofs::KeysSeen::keys_seen))]
    pub fn key(&self, position: usize) -> &str
        requires { position < length self.now }
        ensures { slice_get (keys_of self.now) position ≡ Some result.now }
    {
        self.entries[position].key.as_str()
    }

    /// The value at a position.
    pub fn value(&self, position: usize) -> &V
        requires { position < length self.now }
        ensures { slice_get (values_of self.now) position ≡ Some result.now }
    {
        &self.entries[position].value
    }

    /// The value at a position, to be changed.
    pub fn value_mut(&mut self, position: usize) -> &mut V
        requires { position < length self.old }
        ensures* changed { sem 𝓛 (lends_value V.row self.entry position result) }
        ensures value { slice_get (values_of self.old) position ≡ Some result.now }
    {
        let pair = &mut self.entries[position];
        &mut pair.value
    }

    /// The place of a key, which is put last with this value where it is not there. Else the value is gone.
    ///
    /// # Errors
    ///
    /// `AllocError` where the key is not there and memory was refused. The table stays as it was.
    #[inline(always)]
    pub fn enter_value(&mut self, key: &str, value: V) -> Result<Place, AllocError>
        ensures entered { IfOk result (FindsOrAdds (λ there. there ≡ value) key.now self.old self.new) }
        ensures within { IfOk result (λ place. place.position < length self.new) }
        ensures found { has_key self.old key.now ≡ true → IsOk result }
        ensures kept { IfErr result (λ _. self.new ≡ self.old) }
    {
        match self.index.search(&self.entries, key) {
            Found::At(position) => Ok(Place {
                position,
                is_new: false,
            }),
            Found::Absent(gap) => {
                let position = add(&mut self.entries, &mut self.index, key, gap, value)?;
                Ok(Place {
                    position,
                    is_new: true,
                })
            }
        }
    }

    /// The place of a key, which is put last where it is not there: then `make` gives its value. It is handed the last
    /// value of those before.
    ///
    /// # Errors
    ///
    /// `AllocError` where the key is not there, and memory was refused or `make` gives it. The table stays as it was.
    pub fn enter<F: FnOnce(Option<&V>) -> Result<V, AllocError>>(
        &mut self,
        key: &str,
        make: F,
    ) -> Result<Place, AllocError>
        requires { F.IsAlwaysCallable make }
        ensures entered { IfOk result (FindsOrAdds (Gives (F.post make)) key.now self.old self.new) }
        ensures within { IfOk result (λ place. place.position < length self.new) }
        ensures found { has_key self.old key.now ≡ true → IsOk result }
        ensures kept { IfErr result (λ _. self.new ≡ self.old) }
    {
        match self.index.search(&self.entries, key) {
            Found::At(position) => Ok(Place {
                position,
                is_new: false,
            }),
            Found::Absent(gap) => {
                let position = make_last(&mut self.entries, &mut self.index, key, gap, make)?;
                Ok(Place {
                    position,
                    is_new: true,
                })
            }
        }
    }

    /// The same, where the key is likely the last one: it is looked at first.
    ///
    /// # Errors
    ///
    /// As `enter`.
    #[inline(always)]
    pub fn enter_again<F: FnOnce(Option<&V>) -> Result<V, AllocError>>(
        &mut self,
        key: &str,
        make: F,
    ) -> Result<Place, AllocError>
        requires { F.IsAlwaysCallable make }
        ensures entered { IfOk result (FindsOrAdds (Gives (F.post make)) key.now self.old self.new) }
        ensures within { IfOk result (λ place. place.position < length self.new) }
        ensures found { has_key self.old key.now ≡ true → IsOk result }
        ensures kept { IfErr result (λ _. self.new ≡ self.old) }
    {
        if let Some(last) = self.entries.last() {
            if last.key.as_str() == key {
                return Ok(Place {
                    position: self.entries.len() - 1,
                    is_new: false,
                });
            }
        }
        self.enter(key, make)
    }

    /// The pairs, and the index of their keys.
    pub fn into_parts(self) -> (Vec<Pair<V>>, Index)
        ensures pairs { seen result.0.items ≡ self }
        ensures index { IsIndex (texts_of result.0.items) result.1 }
    {
        let Pairs { entries, index } = self;
        (entries, index)
    }
}
