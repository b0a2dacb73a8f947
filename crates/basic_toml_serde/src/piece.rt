//! Values and beginnings of values, as `basic_toml` writes them.
ghost use Rattle.std.specs.Prelude.{[]};
ghost use Rattle.basic_toml_serde.specs.Pieces.{items_of};

use basic_toml::{Float, Serialize, Serializer, WriteError};
use std::alloc::Global;

/// A value that is one item, or the beginning of an array or a table, which a later call ends.
#[derive(Clone, Copy, Drop)]
pub(crate) enum Piece<'a> {
    Boolean(bool),
    Signed(i64),
    Unsigned(u64),
    Float(&'a Float),
    Text(&'a str),
    /// A character, which may not be a key.
    Character(char),
    /// The name of a variant, which may not be a key.
    VariantName(&'a str),
    /// An array of bytes.
    Octets(&'a [u8]),
    /// An option that is not there.
    Absent,
    OpensArray,
    OpensTable,
    /// A number that no text has a form for.
    NoForm,
}

impl Serialize for Piece<'_> {
    ghost calls = { items_of };

    #[inline(always)]
    fn serialize(&self, _alloc: Global, ser: &mut Serializer) -> Result<(), WriteError> {
        match self {
            Piece::Boolean(truth) => ser.serialize_bool(*truth),
            Piece::Signed(number) => ser.serialize_i64(*number),
            Piece::Unsigned(number) => ser.serialize_u64(*number),
            Piece::Float(float) => ser.serialize_float(*float),
            Piece::Text(text) => ser.serialize_str(*text),
            Piece::Character(character) => ser.serialize_char(*character),
            Piece::VariantName(name) => ser.serialize_unit_variant("", 0, *name),
            Piece::Octets(octets) => ser.serialize_bytes(*octets),
            Piece::Absent => ser.serialize_none(),
            Piece::OpensArray => ser.serialize_seq(None),
            Piece::OpensTable => ser.serialize_map(None),
            Piece::NoForm => ser.serialize_unit(),
        }
    }
}

/// The value of a key that is sent alone: it is sent later.
#[derive(Clone, Copy, Drop)]
pub(crate) struct KeyAlone;

impl Serialize for KeyAlone {
    ghost calls = { λ _. [] };

    #[inline(always)]
    fn serialize(&self, _alloc: Global, _ser: &mut Serializer) -> Result<(), WriteError> {
        Ok(())
    }
}
