//! What each event of a value is sent as: items, which a sink takes.
ghost use Rattle.std.specs.Prelude.{◌≡◌, List, [], ◌∷◌, ◌++◌, OnOk, true, false};
ghost use Rattle.serde.specs.Event.{boolean, signed, unsigned, single, double, character, text, octets, nothing, unit_variant, seq_ends, map_ends, field_key, variant_key, key_begins, key_ends, flattens};
ghost use Rattle.basic_toml_serde.specs.Pieces.{items_of};
ghost use Rattle.basic_toml_serde.specs.Sent.{Adds, AddsKey, AddsFloat, AddsFloatText, AddsName, BeginsArray, BeginsMap, Sends};
ghost use Rattle.basic_toml_serde.specs.Sending.{SendsBy, HasSent};

use crate::failure::Failure;
use crate::piece::Piece;
use crate::sink::Sink;
use basic_toml::Float;
use serde::{Case, NameKind};
use std::alloc::Global;
use std::fmt::Display;
use std::str;

/// What comes next.
#[derive(Clone, Copy, Drop)]
pub(crate) enum Next {
    /// A value, or the key of a field.
    Value,
    /// The key of an entry, as a value.
    Key,
    /// The members of a map, which go into the map that is open.
    Members,
}

/// Gives a sink the items of each event.
#[derive(Drop)]
pub(crate) struct Sender<S> {
    alloc: Global,
    sink: S,
    /// Of each map that is open, whether its members go into the one around it.
    maps: Vec<bool>,
    next: Next,
}

#[tactic(auto, using(crate::proofs::EventsAreSent::parts_sent))]
impl<S: Sink> Sender<S> {
    /// Nothing is sent, and the sink has taken nothing.
    pub(crate) fn new(alloc: Global, sink: S) -> Sender<S>
        requires { S.has_recorded sink [] }
        ensures { HasSent S.has_recorded [] result }
    {
        Sender {
            alloc,
            sink,
            maps: Vec::new(alloc),
            next: Next::Value,
        }
    }

    /// What has taken the items.
    pub(crate) fn into_sink(self) -> S
        ensures { result ≡ self.sink }
    {
        self.sink
    }

    /// A value or a key, or what begins it.
    #[inline(always)]
    fn value(&mut self, piece: &Piece<'_>) -> Result<(), Failure>
        ensures { OnOk result (SendsBy S.has_recorded (Adds (items_of piece.now)) self.old self.new) }
    {
        let Next::Value = self.next else {
            return self.entry_key(piece);
        };
        self.sink.add_value(self.alloc, piece)
    }

    /// The key of an entry, as a value.
    #[inline(never)]
    fn entry_key(&mut self, piece: &Piece<'_>) -> Result<(), Failure>
        ensures { OnOk result (SendsBy S.has_recorded (Adds (items_of piece.now)) self.old self.new) }
    {
        match self.next {
            Next::Key => self.sink.add_key(self.alloc, piece),
            Next::Value | Next::Members => Err(Failure::Unsupported),
        }
    }

    /// The key of a field or of a variant's data.
    #[inline(always)]
    fn name(&mut self, kind: NameKind, name: &str, case: Case) -> Result<(), Failure>
        ensures { OnOk result (SendsBy S.has_recorded (AddsName kind name.now case) self.old self.new) }
    {
        if case == Case::AsIs {
            return self.key(name);
        }
        self.name_in_case(kind, name, case)
    }

    #[cold]
    #[inline(never)]
    fn name_in_case(&mut self, kind: NameKind, name: &str, case: Case) -> Result<(), Failure>
        ensures { OnOk result (SendsBy S.has_recorded (AddsName kind name.now case) self.old self.new) }
    {
        let mut text = String::new(self.alloc);
        case.append(kind, name, &mut text)?;
        self.key(text.as_str())
    }

    /// The key of the next entry, without its value.
    #[inline(never)]
    fn key(&mut self, key: &str) -> Result<(), Failure>
        ensures { OnOk result (SendsBy S.has_recorded (AddsKey key.now) self.old self.new) }
    {
        self.sink.add_field(self.alloc, key)
    }

    /// A map is open, whose members go into the one around it or not.
    fn push(&mut self, is_joined: bool) -> Result<(), Failure>
        ensures { OnOk result (self.new ≡ record self.old { maps = self.new.maps })
            × OnOk result (self.new.maps.items ≡ self.old.maps.items ++ is_joined ∷ []) }
    {
        match self.maps.push(is_joined) {
            Ok(()) => Ok(()),
            Err(_) => Err(Failure::OutOfMemory),
        }
    }

    /// A float by its shortest text; `wide` is the same number.
    fn float<T: Display + Drop>(&mut self, value: T, wide: f64) -> Result<(), Failure>
        ensures { OnOk result (SendsBy S.has_recorded (AddsFloat) self.old self.new) }
    {
        let mut text = String::new(self.alloc);
        if wide.is_nan() {
            text.push_str("nan")?;
        } else {
            write!(text, "{value}")?;
            if wide.is_finite() && !text.as_str().contains('.') {
                text.push_str(".0")?;
            }
        }
        self.float_text(text.as_str())
    }

    /// A float by its text.
    fn float_text(&mut self, text: &str) -> Result<(), Failure>
        ensures { OnOk result (SendsBy S.has_recorded (AddsFloatText text.now) self.old self.new) }
    {
        match Float::parse(self.alloc, text)? {
            Some(float) => self.value(&Piece::Float(&float)),
            None => self.value(&Piece::NoForm),
        }
    }
}

/// The events.
#[tactic(auto, using(crate::proofs::EventsAreSent::events_sent))]
impl<S: Sink> Sender<S> {
    #[inline(always)]
    pub(crate) fn bool(&mut self, v: bool) -> Result<(), Failure>
        ensures { OnOk result (SendsBy S.has_recorded (Sends (boolean v)) self.old self.new) }
    {
        self.value(&Piece::Boolean(v))
    }

    #[inline(always)]
    pub(crate) fn i64(&mut self, v: i64) -> Result<(), Failure>
        ensures { OnOk result (SendsBy S.has_recorded (Sends (signed v)) self.old self.new) }
    {
        self.value(&Piece::Signed(v))
    }

    #[inline(always)]
    pub(crate) fn u64(&mut self, v: u64) -> Result<(), Failure>
        ensures { OnOk result (SendsBy S.has_recorded (Sends (unsigned v)) self.old self.new) }
    {
        self.value(&Piece::Unsigned(v))
    }

    pub(crate) fn i128(&mut self, v: i128) -> Result<(), Failure>
        ensures { OnOk result (SendsBy S.has_recorded (Sends (signed v)) self.old self.new) }
    {
        match i64::try_from(v) {
            Ok(number) => self.value(&Piece::Signed(number)),
            Err(_) => self.value(&Piece::NoForm),
        }
    }

    pub(crate) fn u128(&mut self, v: u128) -> Result<(), Failure>
        ensures { OnOk result (SendsBy S.has_recorded (Sends (unsigned v)) self.old self.new) }
    {
        match i64::try_from(v) {
            Ok(number) => self.value(&Piece::Signed(number)),
            Err(_) => self.value(&Piece::NoForm),
        }
    }

    pub(crate) fn f32(&mut self, v: f32) -> Result<(), Failure>
        ensures { OnOk result (SendsBy S.has_recorded (Sends (single v)) self.old self.new) }
    {
        self.float(v, f64::from(v))
    }

    pub(crate) fn f64(&mut self, v: f64) -> Result<(), Failure>
        ensures { OnOk result (SendsBy S.has_recorded (Sends (double v)) self.old self.new) }
    {
        self.float(v, v)
    }

    pub(crate) fn char(&mut self, v: char) -> Result<(), Failure>
        ensures { OnOk result (SendsBy S.has_recorded (Sends (character v)) self.old self.new) }
    {
        self.value(&Piece::Character(v))
    }

    #[inline(always)]
    pub(crate) fn str(&mut self, v: &str) -> Result<(), Failure>
        ensures { OnOk result (SendsBy S.has_recorded (Sends (text v.now)) self.old self.new) }
    {
        self.value(&Piece::Text(v))
    }

    /// An array of bytes; or a float by its text, where the members of a map would come.
    pub(crate) fn bytes(&mut self, v: &[u8]) -> Result<(), Failure>
        ensures { OnOk result (SendsBy S.has_recorded (Sends (octets v.now)) self.old self.new) }
    {
        let Next::Members = self.next else {
            return self.value(&Piece::Octets(v));
        };
        self.next = Next::Value;
        match str::from_utf8(v) {
            Ok(text) => self.float_text(text),
            Err(_) => Err(Failure::Unsupported),
        }
    }

    /// An option that is not there, or a unit, which cannot be told apart.
    pub(crate) fn unit(&mut self) -> Result<(), Failure>
        ensures { OnOk result (SendsBy S.has_recorded (Sends nothing) self.old self.new) }
    {
        let Next::Members = self.next else {
            return self.value(&Piece::Absent);
        };
        self.next = Next::Value;
        Ok(())
    }

    pub(crate) fn str_cased(&mut self, name: &str, case: Case) -> Result<(), Failure>
        ensures { OnOk result (SendsBy S.has_recorded (Sends (unit_variant name.now case)) self.old self.new) }
    {
        if case == Case::AsIs {
            return self.value(&Piece::VariantName(name));
        }
        let mut text = String::new(self.alloc);
        case.append(NameKind::Variant, name, &mut text)?;
        self.value(&Piece::VariantName(text.as_str()))
    }

    pub(crate) fn begin_seq(&mut self) -> Result<(), Failure>
        ensures { OnOk result (SendsBy S.has_recorded BeginsArray self.old self.new) }
    {
        self.value(&Piece::OpensArray)
    }

    pub(crate) fn end_seq(&mut self) -> Result<(), Failure>
        ensures { OnOk result (SendsBy S.has_recorded (Sends seq_ends) self.old self.new) }
    {
        self.sink.add_end()
    }

    pub(crate) fn begin_map(&mut self) -> Result<(), Failure>
        ensures { OnOk result (SendsBy S.has_recorded BeginsMap self.old self.new) }
    {
        let Next::Members = self.next else {
            self.value(&Piece::OpensTable)?;
            return self.push(false);
        };
        self.next = Next::Value;
        self.push(true)
    }

    pub(crate) fn end_map(&mut self) -> Result<(), Failure>
        ensures { OnOk result (SendsBy S.has_recorded (Sends map_ends) self.old self.new) }
    {
        if self.maps.pop().unwrap_or(false) {
            return Ok(());
        }
        self.sink.add_end()
    }

    #[inline(always)]
    pub(crate) fn key_cased(&mut self, name: &str, case: Case) -> Result<(), Failure>
        ensures { OnOk result (SendsBy S.has_recorded (Sends (field_key name.now case)) self.old self.new) }
    {
        self.name(NameKind::Field, name, case)
    }

    pub(crate) fn variant_key(&mut self, name: &str, case: Case) -> Result<(), Failure>
        ensures { OnOk result (SendsBy S.has_recorded (Sends (variant_key name.now case)) self.old self.new) }
    {
        self.name(NameKind::Variant, name, case)
    }

    pub(crate) fn begin_key(&mut self)
        ensures { SendsBy S.has_recorded (Sends key_begins) self.old self.new }
    {
        self.next = Next::Key;
    }

    pub(crate) fn end_key(&mut self)
        ensures { SendsBy S.has_recorded (Sends key_ends) self.old self.new }
    {
        self.next = Next::Value;
    }

    pub(crate) fn flatten_next(&mut self)
        ensures { SendsBy S.has_recorded (Sends flattens) self.old self.new }
    {
        self.next = Next::Members;
    }
}
