//! The items that a value is sent as, kept in a list.
ghost use Rattle.std.specs.Prelude.{◌≡◌, [], ◌∷◌, IfOk, OnOk};
ghost use Rattle.basic_toml_serde.specs.Pieces.{items_of};
ghost use Rattle.basic_toml_serde.specs.Listed.{item_of, AreListed};
ghost use Rattle.basic_toml_serde.specs.Recorded.{Records};

use crate::failure::Failure;
use crate::piece::Piece;
use crate::sink::Sink;
use basic_toml::{Float, Serialize, Serializer, WriteError};
use std::alloc::Global;

/// An item, with what it holds.
#[derive(Drop)]
pub(crate) enum Item {
    Boolean(bool),
    Integer(i64),
    /// An integer that is too large for a text.
    Large(u64),
    Float(Float),
    /// A text, which may be a key.
    Text(String),
    /// A text that may not.
    OtherText(String),
    Octets(Vec<u8>),
    Absent,
    /// A number that no text has a form for.
    NoForm,
    OpenArray,
    OpenTable,
    /// The end of the innermost array or table.
    Close,
    /// The next item is the key of an entry.
    Key,
    /// The key of an entry.
    Field(String),
    /// The next item is an element, or begins one.
    Element,
}

#[tactic(auto, using(crate::proofs::ItemsAreTaken::item_sent))]
impl Serialize for Item {
    ghost calls = { λ item. item_of item ∷ [] };

    fn serialize(&self, _alloc: Global, ser: &mut Serializer) -> Result<(), WriteError> {
        match self {
            Item::Boolean(truth) => ser.serialize_bool(*truth),
            Item::Integer(number) => ser.serialize_i64(*number),
            Item::Large(number) => ser.serialize_u64(*number),
            Item::Float(float) => ser.serialize_float(float),
            Item::Text(text) => ser.serialize_str(text.as_str()),
            Item::OtherText(text) => ser.serialize_unit_variant("", 0, text.as_str()),
            Item::Octets(octets) => ser.serialize_bytes(octets.as_slice()),
            Item::Absent => ser.serialize_none(),
            Item::NoForm => ser.serialize_unit(),
            Item::OpenArray => ser.serialize_seq(None),
            Item::OpenTable => ser.serialize_map(None),
            Item::Close => ser.end(),
            Item::Key => ser.serialize_key(&Later),
            Item::Field(name) => ser.serialize_field(name.as_str(), &Later),
            Item::Element => ser.serialize_element(&Later),
        }
    }
}

/// What stands behind a key, or is an element: it is sent later. It is a type of its own, so that the calls that a
/// sender makes with `KeyAlone` are the only ones of their kind, and inlined.
#[derive(Clone, Copy, Drop)]
struct Later;

impl Serialize for Later {
    ghost calls = { λ _. [] };

    #[inline(always)]
    fn serialize(&self, _alloc: Global, _ser: &mut Serializer) -> Result<(), WriteError> {
        Ok(())
    }
}

#[tactic(auto, using(crate::proofs::ItemsAreListed::items_listed))]
impl Sink for Vec<Item> {
    ghost has_recorded = { AreListed };

    fn add_value(&mut self, alloc: Global, piece: &Piece<'_>) -> Result<(), Failure> {
        let item = item_for(alloc, piece)?;
        add(self, item)
    }

    fn add_key(&mut self, alloc: Global, piece: &Piece<'_>) -> Result<(), Failure> {
        let item = item_for(alloc, piece)?;
        add(self, Item::Key)?;
        add(self, item)
    }

    fn add_field(&mut self, alloc: Global, name: &str) -> Result<(), Failure> {
        let name = String::from_str(alloc, name)?;
        add(self, Item::Field(name))
    }

    fn add_end(&mut self) -> Result<(), Failure> {
        add(self, Item::Close)
    }

    /// It keeps none: it takes what a text could refuse.
    fn into_error(self) -> Option<WriteError> {
        None
    }
}

#[tactic(auto, using(crate::proofs::ItemsAreListed::items_listed))]
fn add(list: &mut Vec<Item>, item: Item) -> Result<(), Failure>
    ensures { OnOk result (Records AreListed (item_of item ∷ []) list.old list.new) }
{
    match list.push(item) {
        Ok(()) => Ok(()),
        Err(_) => Err(Failure::OutOfMemory),
    }
}

/// The item of a piece.
fn item_for(alloc: Global, piece: &Piece<'_>) -> Result<Item, Failure>
    ensures { IfOk result (λ item. items_of piece.now ≡ item_of item ∷ []) }
{
    match piece {
        Piece::Boolean(truth) => Ok(Item::Boolean(*truth)),
        Piece::Signed(number) => Ok(Item::Integer(*number)),
        Piece::Unsigned(number) => match i64::try_from(*number) {
            Ok(number) => Ok(Item::Integer(number)),
            Err(_) => Ok(Item::Large(*number)),
        },
        Piece::Float(float) => Ok(Item::Float(Float::clone(*float)?)),
        Piece::Text(text) => Ok(Item::Text(String::from_str(alloc, *text)?)),
        Piece::Character(character) => {
            let mut text = String::new(alloc);
            text.push(*character)?;
            Ok(Item::OtherText(text))
        }
        Piece::VariantName(name) => Ok(Item::OtherText(String::from_str(alloc, *name)?)),
        Piece::Octets(octets) => Ok(Item::Octets(Vec::from_slice(alloc, *octets)?)),
        Piece::Absent => Ok(Item::Absent),
        Piece::OpensArray => Ok(Item::OpenArray),
        Piece::OpensTable => Ok(Item::OpenTable),
        Piece::NoForm => Ok(Item::NoForm),
    }
}
