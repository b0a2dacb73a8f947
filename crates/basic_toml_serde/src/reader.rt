//! The state of a reading, and its errors.
ghost use Rattle.std.specs.Prelude.{◌≡◌, None, Some, IfOk, IsNone, slice_get};
ghost use Rattle.basic_toml_serde.specs.Ahead.{BeginsAt, item_at, container_at};
ghost use Rattle.basic_toml_serde.specs.Reports.{Reports, StandsAt, ReportsAt, ReportsUnknown, AfterStep};
ghost use Rattle.basic_toml_serde.specs.declared.notes.Step.TheVariants as step;
ghost use Rattle.basic_toml_serde.specs.Taken.{integer_at, Stays, TakesInteger, BeginsArray, BeginsTable};

use crate::fault::Fault;
use crate::notes::{Notes, Step, Trial, type_name};
use crate::source::Source;
use crate::walk::Walk;
use basic_toml::Error;
use serde::Name;
use std::alloc::{AllocError, Global};
use std::fmt;

/// Takes the steps of a reading, and tells what is wrong.
#[derive(Drop)]
pub(crate) struct Reader<N> {
    pub(crate) alloc: Global,
    pub(crate) walk: Walk<N>,
    /// The integer in whose place another number is answered.
    pub(crate) trial: Option<Trial>,
    /// What is kept for the error, in a reading that is made for it.
    pub(crate) notes: Option<Notes>,
}

/// The text of a key, with a backslash before each quote and each backslash.
#[derive(Clone, Copy)]
struct Quoted<'a>(&'a str);

impl<'a> fmt::Display for Quoted<'a> {
    fn fmt<W: fmt::Write>(&self, f: &mut fmt::Formatter<W>) -> fmt::Result {
        for c in self.0.chars() {
            if c == '"' || c == '\\' {
                f.write_char('\\')?;
            }
            f.write_char(c)?;
        }
        Ok(())
    }
}

impl<N: Source> Reader<N> {
    /// A reading of a tree from its root; without notes it makes no messages.
    pub(crate) fn new(
        alloc: Global,
        root: N,
        notes: Option<Notes>,
        trial: Option<Trial>,
    ) -> Result<Reader<N>, Fault>
        ensures { IfOk result (λ reader. BeginsAt root reader.walk × (reader.trial ≡ trial)) }
    {
        match Walk::new(alloc, root, notes.is_some()) {
            Ok(walk) => Ok(Reader {
                alloc,
                walk,
                trial,
                notes,
            }),
            Err(_) => Err(Fault::OutOfMemory),
        }
    }

    /// Keeps the last step.
    #[inline(always)]
    pub(crate) fn note(&mut self, step: Step)
        ensures { Stays self.old self.new }
    {
        if let Some(notes) = &mut self.notes {
            notes.last = step;
        }
    }

    /// Keeps the names among which the key or the text of what comes next was looked up.
    #[inline(always)]
    pub(crate) fn note_names(&mut self, names: &[Name<'_>], step: Step) -> Result<(), Fault>
        ensures { Stays self.old self.new }
    {
        let (alloc, item) = (self.alloc, self.walk.position());
        let is_key = self.walk.is_at_key() || !matches!(step, Step::Variant);
        let Some(notes) = &mut self.notes else {
            return Ok(());
        };
        notes.last = step;
        match notes.keep(alloc, names, item, is_key) {
            Ok(()) => Ok(()),
            Err(_) => Err(Fault::OutOfMemory),
        }
    }

    /// Counts an integer that is asked for.
    #[inline(always)]
    fn count(&mut self, is_signed: bool)
        ensures { Stays self.old self.new }
    {
        if let Some(notes) = &mut self.notes {
            notes.count(is_signed);
        }
    }

    /// The number that is tried in place of the last integer.
    #[inline(always)]
    fn active_trial(&self) -> Option<Trial>
        ensures { self.now.trial ≡ None → IsNone result }
    {
        let Some(trial) = self.trial else {
            return None;
        };
        match &self.notes {
            Some(notes) if notes.integers == trial.count => Some(trial),
            _ => None,
        }
    }

    /// The integer that comes next.
    #[inline(always)]
    pub(crate) fn next_integer(&self) -> Option<i64>
        ensures { result ≡ integer_at N.data_of self.now.walk }
    {
        match self.walk.peek_value() {
            Some(item) => item.integer(),
            None => None,
        }
    }

    /// The integer that comes next, or the number that is tried in its place.
    #[inline(always)]
    pub(crate) fn integer(&mut self, is_signed: bool) -> Result<i64, Fault>
        ensures { IfOk result (λ z. TakesInteger N.data_of self.old z self.new) }
    {
        self.count(is_signed);
        if let Some(trial) = self.active_trial() {
            return Ok(trial.integer_type.too_large());
        }
        match self.next_integer() {
            Some(number) => Ok(number),
            None => Err(self.wrong_integer(is_signed)),
        }
    }

    /// Opens the array that comes next.
    #[inline(always)]
    pub(crate) fn begin_array(&mut self) -> Result<(), Fault>
        ensures { IfOk result (λ _. BeginsArray N.key_of N.data_of self.old self.new) }
    {
        match self.walk.peek_value() {
            Some(array) if array.is_array() => match self.walk.open_array(array) {
                Ok(()) => Ok(()),
                Err(_) => Err(Fault::OutOfMemory),
            },
            _ => Err(self.wrong_type("a sequence")),
        }
    }

    /// Opens the table that comes next.
    #[inline(always)]
    pub(crate) fn begin_table(&mut self, expected: &str) -> Result<(), Fault>
        ensures { IfOk result (λ _. BeginsTable N.key_of N.data_of self.old self.new) }
    {
        match self.walk.peek_value() {
            Some(table) if table.is_table() => match self.walk.open_table(table) {
                Ok(()) => Ok(()),
                Err(_) => Err(Fault::OutOfMemory),
            },
            _ => Err(self.wrong_type(expected)),
        }
    }

    /// A type that looks first and then asks for a table mostly is an enum, which takes a string too.
    pub(crate) fn may_be_enum(&self) -> bool {
        let (Some(notes), Some(item)) = (&self.notes, self.walk.peek_value()) else {
            return false;
        };
        match notes.last {
            Step::Look => item.string().is_none(),
            _ => false,
        }
    }
}

// Errors. None is made in a reading that makes no messages.
impl<N: Source> Reader<N> {
    #[cold]
    fn report(&self, error: Error) -> Fault
        ensures { Reports (λ failure. failure ≡ error) result }
    {
        Fault::report(self.alloc, error, None)
    }

    /// A message at an item.
    #[cold]
    fn message(&self, item: N, message: Result<String, AllocError>) -> Fault
        ensures { ReportsAt N.fails_at (Some item) result }
    {
        match message {
            Ok(message) => self.report(item.custom(self.alloc, message.as_str())),
            Err(_) => Fault::OutOfMemory,
        }
    }

    /// A message of the type's own, at what was read last.
    #[cold]
    pub(crate) fn own_message(&self, message: &str) -> Fault
        ensures { ReportsAt N.fails_at (item_at self.now.walk) result }
    {
        match self.walk.peek() {
            Some(item) if self.notes.is_some() => self.report(item.custom(self.alloc, message)),
            _ => Fault::Misfit,
        }
    }

    /// What comes next is not of the type that was expected.
    #[cold]
    pub(crate) fn wrong_type(&self, expected: &str) -> Fault
        ensures { ReportsAt N.fails_at (item_at self.now.walk) result }
    {
        match self.walk.peek() {
            Some(item) if self.notes.is_some() => self.report(self.type_error(item, expected)),
            _ => Fault::Misfit,
        }
    }

    fn type_error(&self, item: N, expected: &str) -> Error
        ensures { StandsAt N.fails_at item result }
    {
        let key = match item.key() {
            Some(key) if self.walk.is_at_key() => Quoted(key),
            _ => return item.wrong_type(self.alloc, expected),
        };
        match format!(in self.alloc; "invalid type: string \"{key}\", expected {expected}") {
            Ok(message) => item.custom(self.alloc, message.as_str()),
            Err(e) => Error::from(e),
        }
    }

    /// What was read last is of the type that was expected, and not a value of it.
    #[cold]
    pub(crate) fn wrong_value(&self, expected: &str) -> Fault
        ensures { ReportsAt N.fails_at (item_at self.now.walk) result }
    {
        match self.walk.peek() {
            Some(_) if self.walk.is_at_key() => self.wrong_type(expected),
            Some(item) if self.notes.is_some() => {
                self.report(item.wrong_value(self.alloc, expected))
            }
            _ => Fault::Misfit,
        }
    }

    /// What comes next is no integer of the type that asked for one.
    #[cold]
    pub(crate) fn wrong_integer(&self, is_signed: bool) -> Fault
        ensures { ReportsAt N.fails_at (item_at self.now.walk) result }
    {
        let (Some(notes), Some(item)) = (&self.notes, self.walk.peek()) else {
            return Fault::Misfit;
        };
        let found = self.next_integer();
        let expected = type_name(self.active_trial(), is_signed, found);
        let error = match found {
            Some(_) => item.wrong_value(self.alloc, expected),
            None => self.type_error(item, expected),
        };
        Fault::report(self.alloc, error, Some(notes.integer(is_signed)))
    }

    /// The error of a type that took the last step and then refused what it gave.
    #[cold]
    pub(crate) fn invalid_value(&self, notes: &Notes) -> Fault
        ensures { AfterStep step.Key notes.now.last (ReportsAt N.fails_at (container_at self.now.walk) result)
            (ReportsAt N.fails_at (item_at self.now.walk) result) }
    {
        let (Some(item), Some(container)) = (self.walk.peek(), self.walk.container()) else {
            return Fault::Misfit;
        };
        match notes.last {
            Step::Integer(is_signed) => self.wrong_integer(is_signed),
            Step::Return => self.own_message("data did not match any variant of untagged enum"),
            Step::Variant => {
                self.own_message("invalid type: unit variant, expected a variant with data")
            }
            Step::Key => { self.report(container.wrong_value(self.alloc, "map with a single key")) }
            Step::End => match notes.fields.only_key() {
                Some(key) => self.report(item.missing(self.alloc, key)),
                None => self.wrong_value("map with a single key"),
            },
            _ => self.wrong_value("another value"),
        }
    }

    /// A table lacks a field.
    #[cold]
    pub(crate) fn missing_field(&self, notes: &Notes, name: &str) -> Fault
        ensures { ReportsAt N.fails_at (item_at self.now.walk) result }
    {
        match self.walk.peek() {
            Some(item) => {
                let key = notes.fields.key_of(name);
                self.report(item.missing(self.alloc, key))
            }
            None => Fault::Misfit,
        }
    }

    /// A table has a field twice, by an alias.
    #[cold]
    pub(crate) fn duplicate_field(&self, notes: &Notes, name: &str) -> Fault
        ensures { ReportsAt N.fails_at (container_at self.now.walk) result }
    {
        match self.walk.container() {
            Some(table) => {
                let key = notes.fields.key_of(name);
                self.message(table, format!(in self.alloc; "duplicate field `{key}`"))
            }
            None => Fault::Misfit,
        }
    }

    /// A key is none of the fields.
    #[cold]
    pub(crate) fn unknown_field(&self, notes: &Notes) -> Fault
        ensures { ReportsUnknown N.fails_at (container_at self.now.walk) result }
    {
        let (Some(table), Some(item)) = (self.walk.container(), self.walk.item(notes.field_at))
        else {
            return Fault::Misfit;
        };
        let key = item.key().unwrap_or("");
        match notes.fields.keys(self.alloc) {
            Ok(keys) => self.report(table.unknown_field(self.alloc, key, keys.as_slice())),
            Err(_) => Fault::OutOfMemory,
        }
    }

    /// A text is none of the variants. That of a tag, which is read ahead, stands where it is; another around it.
    #[cold]
    pub(crate) fn unknown_name(&self, notes: &Notes) -> Fault
        ensures { let item = slice_get self.now.walk.list.items notes.now.variant_at in
            AfterStep step.Return notes.now.last (ReportsAt N.fails_at item result) (ReportsAt N.fails_around item result) }
    {
        let Some(item) = self.walk.item(notes.variant_at) else {
            return Fault::Misfit;
        };
        let text = if notes.is_key {
            item.key()
        } else {
            item.string()
        };
        let name = text.unwrap_or("");
        match notes.variants.keys(self.alloc) {
            Ok(keys) => match notes.last {
                Step::Return => self.unknown_tag(item, name, keys.as_slice()),
                _ => self.unknown_text(item, name, keys.as_slice()),
            },
            Err(_) => Fault::OutOfMemory,
        }
    }

    #[cold]
    fn unknown_tag(&self, item: N, name: &str, keys: &[&str]) -> Fault
        ensures { ReportsAt N.fails_at (Some item) result }
    {
        let error = item.unknown_variant(self.alloc, name, keys);
        if error.is_out_of_memory() {
            return Fault::OutOfMemory;
        }
        self.message(item, error.message().to_string(self.alloc))
    }

    #[cold]
    fn unknown_text(&self, item: N, name: &str, keys: &[&str]) -> Fault
        ensures { ReportsAt N.fails_around (Some item) result }
    {
        self.report(item.unknown_variant(self.alloc, name, keys))
    }

    /// An array is longer than its type, where the last step gave an element; else it is longer or shorter.
    #[cold]
    pub(crate) fn wrong_length(&self, notes: &Notes) -> Fault
        ensures { AfterStep step.Element notes.now.last (ReportsAt N.fails_at (container_at self.now.walk) result)
            (ReportsAt N.fails_at (item_at self.now.walk) result) }
    {
        let (Some(item), Some(container)) = (self.walk.peek(), self.walk.container()) else {
            return Fault::Misfit;
        };
        let (array, expected) = match notes.last {
            Step::Element => (container, "a shorter array"),
            _ => (item, "an array of another length"),
        };
        self.report(array.wrong_len(self.alloc, array.len(), expected))
    }
}
