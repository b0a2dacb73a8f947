//! The steps of a reading.
ghost use Rattle.std.specs.Prelude.{◌≡◌, ⊤, IfOk, IfSome, MatchOption, encode_utf8, slice_get};
ghost use Rattle.basic_toml_serde.specs.Ahead.{item_at, container_at, IsAt, ComesBack};
ghost use Rattle.basic_toml_serde.specs.Reports.{ReportsAt, ReportsUnknown, AfterStep};
ghost use Rattle.basic_toml_serde.specs.declared.notes.Step.TheVariants as step;
ghost use Rattle.basic_toml_serde.specs.Taken.{Stays, TakesInteger, PassesKey, Reads, Picks, Looks};

use crate::fault::Fault;
use crate::notes::Step;
use crate::reader::Reader;
use crate::source::Source;
use crate::walk::Mark;
use serde::{Format, Kind, Name, find};
use std::alloc::Global;
use std::num::{nearest_f64_to_f32_with_nan, nearest_i64_to_f64};
use std::str::FromStr;

/// The character that a text is.
fn only_char(text: &str) -> Option<char>
    ensures { IfSome result (λ c. text.now ≡ encode_utf8 c) }
{
    let mut chars = text.chars();
    match (chars.next(), chars.next()) {
        (Some(c), None) => Some(c),
        _ => None,
    }
}

/// The bytes of a text.
fn copy_of(alloc: Global, text: &str) -> Result<Vec<u8>, Fault>
    ensures { IfOk result (λ bytes. bytes.items ≡ text.now) }
{
    match Vec::from_slice(alloc, text.as_bytes()) {
        Ok(bytes) => Ok(bytes),
        Err(_) => Err(Fault::OutOfMemory),
    }
}

impl<N: Source> Reader<N> {
    /// The float that comes next, or the integer as one. One whose digits are beyond every number has none.
    fn float(&mut self, expected: &str) -> Result<f64, Fault>
        ensures { Stays self.old self.new }
    {
        self.note(Step::Other);
        let Some(item) = self.walk.peek_value() else {
            return Err(self.wrong_type(expected));
        };
        if let Some(text) = item.float() {
            return match f64::from_str(text) {
                Ok(number) if !number.is_infinite() || text.ends_with("inf") => Ok(number),
                _ => Err(self.wrong_value(expected)),
            };
        }
        match item.integer() {
            Some(number) => Ok(nearest_i64_to_f64(number)),
            None => Err(self.wrong_type(expected)),
        }
    }

    /// The integer that comes next, for a type that takes wide ones.
    fn wide(&mut self, expected: &str) -> Result<i128, Fault>
        ensures { IfOk result (λ z. TakesInteger N.data_of self.old z self.new) }
    {
        self.note(Step::Other);
        match self.next_integer() {
            Some(number) => Ok(i128::from(number)),
            None => Err(self.wrong_type(expected)),
        }
    }

    /// The bytes that an array of integers has.
    fn bytes_of(&self, alloc: Global, array: N) -> Result<Vec<u8>, Fault> {
        let mut elements = Vec::new(alloc);
        if array.add_elements(&mut elements).is_err() {
            return Err(Fault::OutOfMemory);
        }
        let mut bytes = Vec::new(alloc);
        for element in &elements {
            let Some(number) = element.integer() else {
                return Err(self.wrong_type("a byte array"));
            };
            let Ok(byte) = u8::try_from(number) else {
                return Err(self.wrong_value("a byte array"));
            };
            if bytes.push(byte).is_err() {
                return Err(Fault::OutOfMemory);
            }
        }
        Ok(bytes)
    }

    /// The kind of what comes next.
    fn kind(&self) -> Kind {
        let Some(item) = self.walk.peek_value() else {
            return Kind::Str;
        };
        if item.string().is_some() {
            return Kind::Str;
        }
        if item.is_table() {
            return Kind::Map;
        }
        if item.is_array() {
            return Kind::Seq;
        }
        if item.truth().is_some() {
            return Kind::Bool;
        }
        match item.integer() {
            Some(number) if number < 0 => Kind::Signed,
            Some(_) => Kind::Unsigned,
            None => Kind::Float,
        }
    }
}

impl<N: Source> Format for Reader<N> {
    type Error = Fault;

    type Mark = Mark;

    ghost gives = { λ old _ e new. Reads N.key_of N.data_of old e new };

    ghost picks = { λ old _ is_key names at new. Picks N.key_of N.data_of old is_key names at new };

    ghost stays = { Looks };

    fn bool(&mut self, _input: &[u8]) -> Result<bool, Fault> {
        self.note(Step::Other);
        if let Some(item) = self.walk.peek_value() {
            if let Some(truth) = item.truth() {
                return Ok(truth);
            }
        }
        Err(self.wrong_type("a boolean"))
    }

    #[inline]
    fn i64(&mut self, _input: &[u8]) -> Result<i64, Fault> {
        self.integer(true)
    }

    #[inline]
    fn u64(&mut self, _input: &[u8]) -> Result<u64, Fault> {
        match u64::try_from(self.integer(false)?) {
            Ok(number) => Ok(number),
            Err(_) => Err(self.wrong_integer(false)),
        }
    }

    fn i128(&mut self, _input: &[u8]) -> Result<i128, Fault> {
        self.wide("i128")
    }

    fn u128(&mut self, _input: &[u8]) -> Result<u128, Fault> {
        match u128::try_from(self.wide("u128")?) {
            Ok(number) => Ok(number),
            Err(_) => Err(self.wrong_value("u128")),
        }
    }

    fn f32(&mut self, _input: &[u8]) -> Result<f32, Fault> {
        Ok(nearest_f64_to_f32_with_nan(self.float("f32")?))
    }

    fn f64(&mut self, _input: &[u8]) -> Result<f64, Fault> {
        self.float("f64")
    }

    fn char(&mut self, _input: &[u8]) -> Result<char, Fault> {
        self.note(Step::Other);
        let Some(text) = self.walk.peek_text() else {
            return Err(self.wrong_type("a character"));
        };
        match only_char(text) {
            Some(c) => {
                self.walk.pass_key();
                Ok(c)
            }
            None => Err(self.wrong_value("a character")),
        }
    }

    fn plain_str(&mut self, input: &[u8]) -> Result<(usize, usize), Fault> {
        self.note(Step::Other);
        match self.walk.peek_span(input) {
            Some(span) => {
                self.walk.pass_key();
                Ok(span)
            }
            None => Err(self.wrong_type("a borrowed string")),
        }
    }

    fn plain_bytes(&mut self, input: &[u8]) -> Result<(usize, usize), Fault> {
        self.plain_str(input)
    }

    #[inline]
    fn string(&mut self, alloc: Global, _input: &[u8]) -> Result<String, Fault> {
        self.note(Step::Other);
        let Some(text) = self.walk.peek_text() else {
            return Err(self.wrong_type("a string"));
        };
        match String::from_str(alloc, text) {
            Ok(copy) => {
                self.walk.pass_key();
                Ok(copy)
            }
            Err(_) => Err(Fault::OutOfMemory),
        }
    }

    /// The integers of an array, the bytes of a string, or those of a float's text.
    fn byte_buf(&mut self, alloc: Global, _input: &[u8]) -> Result<Vec<u8>, Fault> {
        self.note(Step::Other);
        if let Some(item) = self.walk.peek_value() {
            if item.is_array() {
                self.walk.pass_key();
                return self.bytes_of(alloc, item);
            }
            if let Some(text) = item.float() {
                self.walk.pass_key();
                return copy_of(alloc, text);
            }
        }
        let Some(text) = self.walk.peek_text() else {
            return Err(self.wrong_type("a byte array"));
        };
        let bytes = copy_of(alloc, text)?;
        self.walk.pass_key();
        Ok(bytes)
    }

    fn peek(&mut self, _input: &[u8]) -> Result<Kind, Fault> {
        self.note(Step::Look);
        Ok(self.kind())
    }

    /// TOML has no unit.
    fn take_unit(&mut self, _input: &[u8]) -> Result<bool, Fault> {
        Err(self.wrong_type("unit"))
    }

    /// An option that is not there is a key that is left out.
    #[inline(always)]
    fn take_none(&mut self, _input: &[u8]) -> Result<bool, Fault> {
        Ok(false)
    }

    fn begin_seq(&mut self, _input: &[u8]) -> Result<(), Fault> {
        self.note(Step::Other);
        self.begin_array()
    }

    #[inline]
    fn next_item(&mut self, _input: &[u8]) -> Result<bool, Fault> {
        if self.walk.advance() {
            self.note(Step::Element);
            return Ok(true);
        }
        self.walk.leave();
        self.note(Step::Other);
        Ok(false)
    }

    fn end_tuple(&mut self, input: &[u8]) -> Result<(), Fault> {
        if self.next_item(input)? {
            Err(self.wrong_len())
        } else {
            Ok(())
        }
    }

    fn begin_map(&mut self, _input: &[u8]) -> Result<(), Fault> {
        let may_be_enum = self.may_be_enum();
        self.note(Step::Other);
        self.begin_table(if may_be_enum {
            "a string or a map"
        } else {
            "a map"
        })
    }

    /// An array gives the fields in their order.
    #[inline(always)]
    fn begin_struct(&mut self, _input: &[u8]) -> Result<bool, Fault> {
        self.note(Step::Other);
        if let Some(item) = self.walk.peek_value() {
            if item.is_array() {
                self.begin_array()?;
                return Ok(true);
            }
        }
        self.begin_table("a map")?;
        Ok(false)
    }

    #[inline(always)]
    fn next_key(&mut self, _input: &[u8], names: &[Name<'_>]) -> Result<Option<usize>, Fault> {
        if !self.walk.advance() {
            self.walk.leave();
            self.note_names(names, Step::End)?;
            return Ok(None);
        }
        let Some(key) = self.walk.peek_key() else {
            return Err(self.wrong_type("a map"));
        };
        let at = find(names, key);
        self.note_names(names, Step::Key)?;
        Ok(Some(at))
    }

    fn next_entry(&mut self, _input: &[u8]) -> Result<bool, Fault> {
        if self.walk.advance_to_key() {
            self.note(Step::Other);
            return Ok(true);
        }
        self.walk.leave();
        self.note(Step::Other);
        Ok(false)
    }

    fn variant(&mut self, _input: &[u8], names: &[Name<'_>]) -> Result<usize, Fault> {
        let Some(text) = self.walk.peek_text() else {
            return Err(self.wrong_type("a string"));
        };
        let at = find(names, text);
        self.note_names(names, Step::Variant)?;
        self.walk.pass_key();
        Ok(at)
    }

    #[inline]
    fn skip(&mut self, _input: &[u8]) -> Result<(), Fault>
        ensures { PassesKey self.old self.new }
    {
        self.walk.pass_key();
        Ok(())
    }

    fn mark(&mut self) -> Mark
        ensures { IsAt self.old.walk result × (self.new ≡ self.old) }
    {
        self.walk.mark()
    }

    fn rewind(&mut self, mark: Mark)
        ensures { ComesBack mark self.old.walk self.new.walk × (self.new.trial ≡ self.old.trial) }
    {
        self.walk.rewind(mark);
        self.note(Step::Return);
    }

    fn release(&mut self, _mark: Mark) {}

    fn is_fatal(&self, error: &Fault) -> bool {
        error.is_out_of_memory()
    }

    fn missing(&self, name: &str) -> Fault
        ensures { ReportsAt N.fails_at (item_at self.now.walk) result }
    {
        match &self.notes {
            Some(notes) => self.missing_field(notes, name),
            None => Fault::Misfit,
        }
    }

    fn duplicate(&self, name: &str) -> Fault
        ensures { ReportsAt N.fails_at (container_at self.now.walk) result }
    {
        match &self.notes {
            Some(notes) => self.duplicate_field(notes, name),
            None => Fault::Misfit,
        }
    }

    fn unknown_key(&self) -> Fault
        ensures { ReportsUnknown N.fails_at (container_at self.now.walk) result }
    {
        match &self.notes {
            Some(notes) => self.unknown_field(notes),
            None => Fault::Misfit,
        }
    }

    fn unknown_variant(&self) -> Fault
        ensures { MatchOption self.now.notes ⊤ (λ notes. let item = slice_get self.now.walk.list.items notes.variant_at in
            AfterStep step.Return notes.last (ReportsAt N.fails_at item result) (ReportsAt N.fails_around item result)) }
    {
        match &self.notes {
            Some(notes) => self.unknown_name(notes),
            None => Fault::Misfit,
        }
    }

    fn wrong_len(&self) -> Fault
        ensures { MatchOption self.now.notes ⊤ (λ notes. AfterStep step.Element notes.last
            (ReportsAt N.fails_at (container_at self.now.walk) result) (ReportsAt N.fails_at (item_at self.now.walk) result)) }
    {
        match &self.notes {
            Some(notes) => self.wrong_length(notes),
            None => Fault::Misfit,
        }
    }

    fn invalid(&self) -> Fault
        ensures { MatchOption self.now.notes ⊤ (λ notes. AfterStep step.Key notes.last
            (ReportsAt N.fails_at (container_at self.now.walk) result) (ReportsAt N.fails_at (item_at self.now.walk) result)) }
    {
        match &self.notes {
            Some(notes) => self.invalid_value(notes),
            None => Fault::Misfit,
        }
    }

    fn no_memory(&self) -> Fault {
        Fault::OutOfMemory
    }

    fn custom(&self, message: &str) -> Fault
        ensures { ReportsAt N.fails_at (item_at self.now.walk) result }
    {
        self.own_message(message)
    }
}
