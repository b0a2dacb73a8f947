//! The events that a writer was sent. They exist only in proofs.
ghost use Rattle.std.specs.Prelude.{◌≡◌, List, [], ◌∷◌, ◌++◌};
ghost use base.Fml.{ftrue};
ghost use Rattle.serde.specs.Event.{Event};

use serde::Case;
use std::marker::Model;

/// The events so far.
#[derive(Drop)]
pub(crate) struct Log {
    ghost events: { List Event },
}

impl Model for Log {
    ghost also_owns = { λ _. ftrue };
}

/// An event, which is one call of a method of `serde`'s `Serializer`.
#[derive(Clone, Copy, Drop)]
pub(crate) enum Note<'a> {
    Bool(bool),
    I64(i64),
    U64(u64),
    I128(i128),
    U128(u128),
    Single(f32),
    Double(f64),
    Char(char),
    Text(&'a str),
    Bytes(&'a [u8]),
    Unit,
    UnitVariant(&'a str, Case),
    BeginSeq(Option<usize>),
    EndSeq,
    BeginMap(Option<usize>),
    EndMap,
    FieldKey(&'a str, Case),
    VariantKey(&'a str, Case),
    BeginKey,
    EndKey,
    Flatten,
}

impl Log {
    ghost use Rattle.basic_toml_serde.specs.Noted.{event_of};

    pub(crate) fn new() -> Log
        ensures { result.events ≡ [] }
    {
        Log {}
    }

    /// The log with one event more.
    #[inline(always)]
    pub(crate) fn then(&self, _note: &Note<'_>) -> Log
        ensures { result.events ≡ self.now.events ++ event_of _note.now ∷ [] }
    {
        Log {}
    }
}
