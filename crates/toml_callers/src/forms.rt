//! Types that are no record: an array, an entry under a key of its own, a newtype, an option that is there. None takes a
//! proof.
ghost use Rattle.basic_toml.specs.Parts.{a_record, an_array, an_element, a_key, a_value, a_some, the_end};

use basic_toml::{Serialize, Serializer, WriteError};
use std::alloc::Global;

/// An array of two elements.
#[derive(Drop)]
pub struct Point {
    pub x: i64,
    pub name: Option<String>,
}

impl Serialize for Point {
    ghost calls = { λ p. an_array
        (an_element (⟦<i64 as Serialize>⟧.calls p.x)
        (an_element (⟦<Option<String> as Serialize>⟧.calls p.name) the_end)) };

    fn serialize(&self, _alloc: Global, ser: &mut Serializer) -> Result<(), WriteError> {
        ser.serialize_tuple(2)?;
        ser.serialize_element(&self.x)?;
        ser.serialize_element(&self.name)?;
        ser.end()
    }
}

/// A table of one entry, whose key is a text of its own.
#[derive(Drop)]
pub struct Entry {
    pub key: String,
    pub value: Vec<Point>,
}

impl Serialize for Entry {
    ghost calls = { λ e. a_record
        (a_key (⟦<String as Serialize>⟧.calls e.key)
        (a_value (⟦<Vec<Point> as Serialize>⟧.calls e.value) the_end)) };

    fn serialize(&self, _alloc: Global, ser: &mut Serializer) -> Result<(), WriteError> {
        ser.serialize_map(Some(1))?;
        ser.serialize_key(&self.key)?;
        ser.serialize_value(&self.value)?;
        ser.end()
    }
}

/// A newtype.
#[derive(Drop)]
pub struct Wrapper(pub Entry);

impl Serialize for Wrapper {
    ghost calls = { λ w. ⟦<Entry as Serialize>⟧.calls w.0 };

    fn serialize(&self, _alloc: Global, ser: &mut Serializer) -> Result<(), WriteError> {
        ser.serialize_newtype_struct("Wrapper", &self.0)
    }
}

/// An option that is there.
#[derive(Drop)]
pub struct Present(pub Wrapper);

impl Serialize for Present {
    ghost calls = { λ p. a_some (⟦<Wrapper as Serialize>⟧.calls p.0) };

    fn serialize(&self, _alloc: Global, ser: &mut Serializer) -> Result<(), WriteError> {
        ser.serialize_some(&self.0)
    }
}
