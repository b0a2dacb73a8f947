//! What a reading keeps that is made for its error.
//!
//! A first reading keeps nothing and makes no messages, so that a variant that does not fit costs little. Where it
//! fails, a second one takes the same steps and keeps these notes, from which the error is made. Where that error is
//! about an integer, some more try which type asked for it: each answers at that step a number that is too large for
//! one type.
ghost use Rattle.std.specs.Prelude.{◌≡◌};
ghost use Rattle.basic_toml_serde.specs.Integers.{least_above};

use crate::fault::IntegerStep;
use crate::names::Names;
use serde::{Name, NameKind};
use std::alloc::{AllocError, Global};

/// The last step of a reading, where its error needs it.
#[derive(Clone, Copy, Drop)]
pub(crate) enum Step {
    /// A look at what comes.
    Look,
    /// An integer, signed or not.
    Integer(bool),
    /// The name of a variant, as a string.
    Variant,
    /// A key of a table.
    Key,
    /// The end of a table.
    End,
    /// An element of an array.
    Element,
    /// A return to a place that was marked.
    Return,
    Other,
}

/// The integer types, but those that hold every number of a text.
#[derive(Clone, Copy, Drop)]
pub(crate) enum Narrow {
    I8,
    I16,
    I32,
    U8,
    U16,
    U32,
}

impl Narrow {
    /// The least number above it.
    pub(crate) fn too_large(self) -> i64
        ensures { result ≡ least_above self }
    {
        match self {
            Narrow::I8 => 0x80,
            Narrow::I16 => 0x8000,
            Narrow::I32 => 0x8000_0000,
            Narrow::U8 => 0x100,
            Narrow::U16 => 0x1_0000,
            Narrow::U32 => 0x1_0000_0000,
        }
    }

    pub(crate) fn name(self) -> &'static str {
        match self {
            Narrow::I8 => "i8",
            Narrow::I16 => "i16",
            Narrow::I32 => "i32",
            Narrow::U8 => "u8",
            Narrow::U16 => "u16",
            Narrow::U32 => "u32",
        }
    }
}

/// The types that may have asked for an integer, the narrowest first.
pub(crate) fn narrow_types(is_signed: bool) -> [Narrow; 3] {
    if is_signed {
        [Narrow::I8, Narrow::I16, Narrow::I32]
    } else {
        [Narrow::U8, Narrow::U16, Narrow::U32]
    }
}

/// Whether this type asks for the integer of this count: a number that it does not hold is answered in place of it.
#[derive(Clone, Copy, Drop)]
pub(crate) struct Trial {
    pub(crate) count: u64,
    pub(crate) integer_type: Narrow,
}

/// The name of an integer type as far as it is known, from the type that is tried; `found` is what stands there.
pub(crate) fn type_name(trial: Option<Trial>, is_signed: bool, found: Option<i64>) -> &'static str {
    if let Some(trial) = trial {
        return trial.integer_type.name();
    }
    match found {
        Some(number) if is_signed || number >= 0 => "another integer",
        _ if is_signed => "i64",
        _ => "u64",
    }
}

#[derive(Drop)]
pub(crate) struct Notes {
    pub(crate) last: Step,
    /// The keys that were looked for last, and the item whose key was found.
    pub(crate) fields: Names,
    pub(crate) field_at: usize,
    /// The variants that were looked for last, and the item whose key or text was found.
    pub(crate) variants: Names,
    pub(crate) variant_at: usize,
    pub(crate) is_key: bool,
    /// How many integers were asked for.
    pub(crate) integers: u64,
}

impl Notes {
    pub(crate) fn new(alloc: Global) -> Notes {
        Notes {
            last: Step::Other,
            fields: Names::new(alloc),
            field_at: 0,
            variants: Names::new(alloc),
            variant_at: 0,
            is_key: false,
            integers: 0,
        }
    }

    /// Keeps the names among which the key or the text of this item was looked up.
    pub(crate) fn keep(
        &mut self,
        alloc: Global,
        names: &[Name<'_>],
        item: usize,
        is_key: bool,
    ) -> Result<(), AllocError> {
        let copies = Names::of(alloc, names)?;
        match names.first() {
            Some(name) if name.kind == NameKind::Variant => {
                self.fields = Names::new(alloc);
                self.variants = copies;
                self.variant_at = item;
                self.is_key = is_key;
            }
            _ => {
                self.fields = copies;
                self.field_at = item;
            }
        }
        Ok(())
    }

    /// Counts an integer.
    pub(crate) fn count(&mut self, is_signed: bool) {
        self.last = Step::Integer(is_signed);
        self.integers = self.integers.wrapping_add(1);
    }

    /// The last integer.
    pub(crate) fn integer(&self, is_signed: bool) -> IntegerStep {
        IntegerStep {
            count: self.integers,
            is_signed,
        }
    }
}
