//! The serializer.
ghost use Rattle.std.specs.Prelude.{◌≡◌, ℕ, List, [], ◌∷◌, ⊤, pos, IfOk, IfErr, MatchOption, is_some, encode_utf8};
ghost use Rattle.basic_toml_emit.specs.Items.{Item, a_scalar, an_absent, open_array, open_table, close, key, field, some_prefix, value_prefix, element_prefix};
ghost use Rattle.basic_toml_layout.specs.Written as w;
ghost use Rattle.basic_toml_emit.specs.Emitter.{HandsOut};
ghost use Rattle.basic_toml_write.specs.declared.error.WriteError.TheVariants.{CallOrder};

mod taking;

use crate::fits::table_fits;
use crate::{Serialize, WriteError};
use basic_toml_emit::{Call, Emitter, Scalar};
use basic_toml_layout::{Style, document_text};
use basic_toml_value::{Float, Table};
use std::alloc::Global;

/// Turns calls into TOML text (TOML v0.5.0).
///
/// The calls open and close arrays and tables, set keys and write values; a key comes before its value. Scalars,
/// arrays of values and empty arrays are rows; tables and arrays of tables are sections, which come after the rows of
/// their table.
///
/// # Errors
///
/// A call answers the first of these that applies: `KeyNotString` (no text where a key is due), `CallOrder`,
/// `UnsupportedType` (a kind of value without a form), `UnsupportedNone`, `UnsupportedType` (a root or an element that
/// does not fit), `DuplicateKey`, `ValueAfterTable`, `NestedTooDeeply`; and `OutOfMemory`. After an error every later
/// call but [`has_refused`](Serializer::has_refused) answers that error, or `OutOfMemory` where its key finds no
/// memory, and no text is handed out. An error whose key finds no memory when it is met is `OutOfMemory` from then on.
/// An error of a part's own is answered and not kept. Where nothing was refused before, `OutOfMemory` comes only of a
/// call that grows something: one that opens an array or a table, sets a key, or lengthens the text, or would if no
/// rule refused it; or of a part that asks for memory of its own.
///
/// ```text
/// let mut ser = Serializer::new(alloc);
/// ser.serialize_map(None)?;
/// ser.serialize_field("answer", &42u8)?;
/// ser.end()?;
/// let text = ser.finish()?; // answer = 42
/// ```
///
/// This is from `toml_vectors`, whose tests make each call.
#[derive(Drop)]
pub struct Serializer {
    emitter: Emitter,
    error: Option<WriteError>,
    alloc: Global,
}

impl Serializer {
    ghost use Rattle.basic_toml_value.specs.Data as d;
    ghost use Rattle.basic_toml_value.specs.View.{entries};
    ghost use Rattle.basic_toml_write.specs.Impls.{data_calls};
    ghost use Rattle.basic_toml_write.specs.Serializer.{Sends, HasRecorded, NoFault, Takes, Passes, MemoryHasCause, Finishes, error_of};
    ghost use Rattle.basic_toml_write.specs.Parts.{Opens, FailsToOpen, Adds, FailsToAdd, Never, the_end, a_some};
    ghost use Rattle.basic_toml_write.specs.Write.{IsLayout, Succeeds};

    /// A serializer without any calls yet. Takes no memory.
    #[tactic(auto, using(crate::proofs::ListsAreSentInTurn::records_nothing))]
    pub fn new(alloc: Global) -> Serializer
        ensures { HasRecorded result [] }
    {
        Serializer {
            emitter: Emitter::new(alloc),
            error: None,
            alloc,
        }
    }

    /// Whether a call was refused. Takes no memory and changes nothing.
    pub fn has_refused(&self) -> bool
        ensures { result ≡ is_some (error_of self.now) }
    {
        self.error.is_some()
    }

    /// Writes a boolean.
    pub fn serialize_bool(&mut self, v: bool) -> Result<(), WriteError>
        ensures { Takes (a_scalar (w.boolean v) ∷ []) self.old self.new result }
    {
        self.take(Call::Scalar(Scalar::Boolean(v)))
    }

    /// Writes an integer.
    pub fn serialize_i8(&mut self, v: i8) -> Result<(), WriteError>
        ensures { Takes (a_scalar (w.integer v) ∷ []) self.old self.new result }
    {
        self.serialize_i16(i16::from(v))
    }

    /// Writes an integer.
    pub fn serialize_i16(&mut self, v: i16) -> Result<(), WriteError>
        ensures { Takes (a_scalar (w.integer v) ∷ []) self.old self.new result }
    {
        self.serialize_i32(i32::from(v))
    }

    /// Writes an integer.
    pub fn serialize_i32(&mut self, v: i32) -> Result<(), WriteError>
        ensures { Takes (a_scalar (w.integer v) ∷ []) self.old self.new result }
    {
        self.serialize_i64(i64::from(v))
    }

    /// Writes an integer.
    pub fn serialize_i64(&mut self, v: i64) -> Result<(), WriteError>
        ensures { Takes (a_scalar (w.integer v) ∷ []) self.old self.new result }
    {
        self.take(Call::Scalar(Scalar::Signed(v)))
    }

    /// Writes an integer.
    pub fn serialize_u8(&mut self, v: u8) -> Result<(), WriteError>
        ensures { Takes (a_scalar (w.integer (pos v)) ∷ []) self.old self.new result }
    {
        self.serialize_u16(u16::from(v))
    }

    /// Writes an integer.
    pub fn serialize_u16(&mut self, v: u16) -> Result<(), WriteError>
        ensures { Takes (a_scalar (w.integer (pos v)) ∷ []) self.old self.new result }
    {
        self.serialize_u32(u32::from(v))
    }

    /// Writes an integer.
    pub fn serialize_u32(&mut self, v: u32) -> Result<(), WriteError>
        ensures { Takes (a_scalar (w.integer (pos v)) ∷ []) self.old self.new result }
    {
        self.serialize_u64(u64::from(v))
    }

    /// Writes an integer. `UnsupportedType` where it is above 9223372036854775807.
    pub fn serialize_u64(&mut self, v: u64) -> Result<(), WriteError>
        ensures { Takes (a_scalar (w.integer (pos v)) ∷ []) self.old self.new result }
    {
        self.take(Call::Scalar(Scalar::Unsigned(v)))
    }

    /// Writes a float by its canonical text.
    pub fn serialize_float(&mut self, v: &Float) -> Result<(), WriteError>
        ensures { Takes (a_scalar (w.float v.now) ∷ []) self.old self.new result }
    {
        self.take(Call::Scalar(Scalar::Float(v.as_str())))
    }

    /// Writes a string of one character, which may not be a key.
    pub fn serialize_char(&mut self, v: char) -> Result<(), WriteError>
        ensures { Takes (a_scalar (w.other_text (encode_utf8 v)) ∷ []) self.old self.new result }
    {
        let mut bytes = [0; 4];
        self.take(Call::Scalar(Scalar::OtherText(v.encode_utf8(&mut bytes))))
    }

    /// Writes a string; at a key, sets the key.
    pub fn serialize_str(&mut self, v: &str) -> Result<(), WriteError>
        ensures { Takes (a_scalar (w.text v.now) ∷ []) self.old self.new result }
    {
        self.take(Call::Scalar(Scalar::Text(v)))
    }

    /// Writes an array of integers.
    pub fn serialize_bytes(&mut self, v: &[u8]) -> Result<(), WriteError>
        ensures { Takes (a_scalar (w.bytes v.now) ∷ []) self.old self.new result }
    {
        self.take(Call::Scalar(Scalar::Bytes(v)))
    }

    /// Writes the name of a variant as a string, which may not be a key.
    pub fn serialize_unit_variant(
        &mut self,
        _name: &str,
        _index: u32,
        variant: &str,
    ) -> Result<(), WriteError>
        ensures { Takes (a_scalar (w.other_text variant.now) ∷ []) self.old self.new result }
    {
        self.take(Call::Scalar(Scalar::OtherText(variant)))
    }

    /// Refuses a unit: `UnsupportedType` where a value may stand.
    pub fn serialize_unit(&mut self) -> Result<(), WriteError>
        ensures { Takes (a_scalar w.refused ∷ []) self.old self.new result }
    {
        self.take(Call::Scalar(Scalar::Refused))
    }

    /// Refuses a unit: `UnsupportedType` where a value may stand.
    pub fn serialize_unit_struct(&mut self, _name: &str) -> Result<(), WriteError>
        ensures { Takes (a_scalar w.refused ∷ []) self.old self.new result }
    {
        self.serialize_unit()
    }

    /// Refuses a variant that holds a value, which is not looked at: `UnsupportedType` where a value may stand.
    pub fn serialize_newtype_variant<T: Serialize>(
        &mut self,
        name: &str,
        index: u32,
        variant: &str,
        _value: &T,
    ) -> Result<(), WriteError>
        ensures { Takes (a_scalar w.refused ∷ []) self.old self.new result }
    {
        self.serialize_tuple_variant(name, index, variant, 1)
    }

    /// Refuses a variant that holds values: `UnsupportedType` where a value may stand.
    pub fn serialize_tuple_variant(
        &mut self,
        name: &str,
        _index: u32,
        _variant: &str,
        _len: usize,
    ) -> Result<(), WriteError>
        ensures { Takes (a_scalar w.refused ∷ []) self.old self.new result }
    {
        self.serialize_unit_struct(name)
    }

    /// Refuses a variant that holds values: `UnsupportedType` where a value may stand.
    pub fn serialize_struct_variant(
        &mut self,
        name: &str,
        index: u32,
        variant: &str,
        len: usize,
    ) -> Result<(), WriteError>
        ensures { Takes (a_scalar w.refused ∷ []) self.old self.new result }
    {
        self.serialize_tuple_variant(name, index, variant, len)
    }

    /// An absent option: an entry with it is left out. `UnsupportedNone` elsewhere.
    pub fn serialize_none(&mut self) -> Result<(), WriteError>
        ensures { Takes (an_absent ∷ []) self.old self.new result }
    {
        self.take(Call::Absent)
    }

    /// Opens an array; its length is not looked at.
    #[tactic(auto, using(crate::proofs::RecordIsSent::opens_array, crate::proofs::RecordIsSent::fails_to_open))]
    pub fn serialize_seq(&mut self, _len: Option<usize>) -> Result<(), WriteError>
        ensures takes { Takes (open_array ∷ []) self.old self.new result }
        ensures opens { IfOk result (λ _. Opens open_array self.old self.new) }
        ensures fails { IfErr result (FailsToOpen open_array self.old self.new) }
    {
        self.take(Call::OpenArray)
    }

    /// Opens an array; its length is not looked at.
    pub fn serialize_tuple(&mut self, len: usize) -> Result<(), WriteError>
        ensures takes { Takes (open_array ∷ []) self.old self.new result }
        ensures opens { IfOk result (λ _. Opens open_array self.old self.new) }
        ensures fails { IfErr result (FailsToOpen open_array self.old self.new) }
    {
        self.serialize_seq(Some(len))
    }

    /// Opens an array; its length is not looked at.
    pub fn serialize_tuple_struct(&mut self, _name: &str, len: usize) -> Result<(), WriteError>
        ensures takes { Takes (open_array ∷ []) self.old self.new result }
        ensures opens { IfOk result (λ _. Opens open_array self.old self.new) }
        ensures fails { IfErr result (FailsToOpen open_array self.old self.new) }
    {
        self.serialize_tuple(len)
    }

    /// Opens a table; its length is not looked at.
    #[tactic(auto, using(crate::proofs::RecordIsSent::opens_table, crate::proofs::RecordIsSent::fails_to_open))]
    pub fn serialize_map(&mut self, _len: Option<usize>) -> Result<(), WriteError>
        ensures takes { Takes (open_table ∷ []) self.old self.new result }
        ensures opens { IfOk result (λ _. Opens open_table self.old self.new) }
        ensures fails { IfErr result (FailsToOpen open_table self.old self.new) }
    {
        self.take(Call::OpenTable)
    }

    /// Opens a table; its length is not looked at.
    pub fn serialize_struct(&mut self, _name: &str, len: usize) -> Result<(), WriteError>
        ensures takes { Takes (open_table ∷ []) self.old self.new result }
        ensures opens { IfOk result (λ _. Opens open_table self.old self.new) }
        ensures fails { IfErr result (FailsToOpen open_table self.old self.new) }
    {
        self.serialize_map(Some(len))
    }

    /// Closes the innermost array or table.
    #[tactic(auto, using(crate::proofs::RecordIsSent::closes))]
    pub fn end(&mut self) -> Result<(), WriteError>
        ensures takes { Takes (close ∷ []) self.old self.new result }
        ensures closes { Sends the_end NoFault self.old self.new result }
    {
        self.take(Call::Close)
    }

    // Lays a table of data out, where no call was made before and no rule refuses the table. Else `None`, and nothing
    // is changed.
    #[tactic(auto, using(crate::proofs::TableIsLaidOut::sends_laid, crate::proofs::TableIsLaidOut::sends_short, crate::proofs::MemoryHasCause::memory_laid))]
    pub(crate) fn lay_out(&mut self, table: &Table) -> Option<Result<(), WriteError>>
        ensures sends { MatchOption result (self.new ≡ self.old)
            (λ answer. Sends (data_calls (d.table (entries table.now))) NoFault self.old self.new answer) }
        ensures memory { MatchOption result ⊤
            (λ answer. MemoryHasCause (data_calls (d.table (entries table.now))) self.old self.new answer) }
    {
        if self.has_refused() || !self.emitter.is_fresh() || !table_fits(table, 0) {
            return None;
        }
        match document_text(self.alloc, Style::Plain, table) {
            Ok(text) => {
                self.emitter = Emitter::with_whole(self.alloc, text);
                Some(Ok(()))
            }
            Err(_) => Some(self.refuse(WriteError::OutOfMemory)),
        }
    }

    /// Writes an option that is there.
    #[tactic(auto, using(crate::proofs::RecordIsSent::sends_whole))]
    pub fn serialize_some<T: Serialize>(&mut self, value: &T) -> Result<(), WriteError>
        ensures passes { Passes (some_prefix ∷ []) (T.calls value.now) (T.gives_up value.now) self.old self.new result }
        ensures alone { Never (T.gives_up value.now) → Sends (a_some (T.calls value.now)) NoFault self.old self.new
            result }
        ensures holds { IfOk result (λ _. T.holds value.now) }
        ensures memory { T.asks_no_memory value.now → MemoryHasCause (some_prefix ∷ T.calls value.now) self.old
            self.new result }
    {
        self.after(Call::SomePrefix, value)
    }

    /// Writes the value that a newtype holds.
    #[tactic(auto, using(crate::proofs::RecordIsSent::sends_same, crate::proofs::RecordIsSent::sends_whole))]
    pub fn serialize_newtype_struct<T: Serialize>(
        &mut self,
        _name: &str,
        value: &T,
    ) -> Result<(), WriteError>
        ensures passes { Passes [] (T.calls value.now) (T.gives_up value.now) self.old self.new result }
        ensures same { Sends (T.calls value.now) (T.gives_up value.now) self.old self.new result }
        ensures alone { Never (T.gives_up value.now) → Sends (T.calls value.now) NoFault self.old self.new result }
        ensures holds { IfOk result (λ _. T.holds value.now) }
        ensures memory { T.asks_no_memory value.now → MemoryHasCause (T.calls value.now) self.old self.new result }
    {
        self.part(value)
    }

    /// Sets the key of the next entry to a text that is given by its own calls. `KeyNotString` where they make no text.
    #[tactic(auto, using(crate::proofs::RecordIsSent::adds, crate::proofs::RecordIsSent::fails_to_add))]
    pub fn serialize_key<T: Serialize>(&mut self, value: &T) -> Result<(), WriteError>
        ensures passes { Passes (key ∷ []) (T.calls value.now) (T.gives_up value.now) self.old self.new result }
        ensures adds { IfOk result (λ _. Adds key (T.calls value.now) self.old self.new) }
        ensures fails { IfErr result (FailsToAdd key (T.calls value.now) (T.gives_up value.now) self.old self.new) }
        ensures holds { IfOk result (λ _. T.holds value.now) }
        ensures memory { T.asks_no_memory value.now → MemoryHasCause (key ∷ T.calls value.now) self.old
            self.new result }
    {
        self.after(Call::Key, value)
    }

    /// Writes the value of the entry whose key is set.
    #[tactic(auto, using(crate::proofs::RecordIsSent::adds, crate::proofs::RecordIsSent::fails_to_add))]
    pub fn serialize_value<T: Serialize>(&mut self, value: &T) -> Result<(), WriteError>
        ensures passes { Passes (value_prefix ∷ []) (T.calls value.now) (T.gives_up value.now) self.old self.new result }
        ensures adds { IfOk result (λ _. Adds value_prefix (T.calls value.now) self.old self.new) }
        ensures fails { IfErr result (FailsToAdd value_prefix (T.calls value.now) (T.gives_up value.now) self.old self.new) }
        ensures holds { IfOk result (λ _. T.holds value.now) }
        ensures memory { T.asks_no_memory value.now → MemoryHasCause (value_prefix ∷ T.calls value.now) self.old
            self.new result }
    {
        self.after(Call::ValuePrefix, value)
    }

    /// Sets the key of the next entry, and writes its value.
    #[tactic(auto, using(crate::proofs::RecordIsSent::adds, crate::proofs::RecordIsSent::fails_to_add))]
    pub fn serialize_field<T: Serialize>(&mut self, name: &str, value: &T) -> Result<(), WriteError>
        ensures passes { Passes (field name.now ∷ []) (T.calls value.now) (T.gives_up value.now) self.old self.new result }
        ensures adds { IfOk result (λ _. Adds (field name.now) (T.calls value.now) self.old self.new) }
        ensures fails { IfErr result (FailsToAdd (field name.now) (T.calls value.now) (T.gives_up value.now) self.old self.new) }
        ensures holds { IfOk result (λ _. T.holds value.now) }
        ensures memory { T.asks_no_memory value.now → MemoryHasCause (field name.now ∷ T.calls value.now) self.old
            self.new result }
    {
        self.after(Call::Field(name), value)
    }

    /// Writes an element of the innermost array.
    #[tactic(auto, using(crate::proofs::RecordIsSent::adds, crate::proofs::RecordIsSent::fails_to_add))]
    pub fn serialize_element<T: Serialize>(&mut self, value: &T) -> Result<(), WriteError>
        ensures passes { Passes (element_prefix ∷ []) (T.calls value.now) (T.gives_up value.now) self.old self.new result }
        ensures adds { IfOk result (λ _. Adds element_prefix (T.calls value.now) self.old self.new) }
        ensures fails { IfErr result (FailsToAdd element_prefix (T.calls value.now) (T.gives_up value.now) self.old self.new) }
        ensures holds { IfOk result (λ _. T.holds value.now) }
        ensures memory { T.asks_no_memory value.now → MemoryHasCause (element_prefix ∷ T.calls value.now) self.old
            self.new result }
    {
        self.after(Call::ElementPrefix, value)
    }

    /// The text, where the calls spelled a whole table; else the error that was answered before, or `CallOrder`.
    pub fn finish(self) -> Result<String, WriteError>
        ensures answer { Finishes self result }
        ensures text { (is : List Item) → HasRecorded self is → IsLayout is result }
        ensures succeeds { (is : List Item) → HasRecorded self is → Succeeds is NoFault result }
    {
        self.hand_out()
    }

    // The error that was kept, or else the text.
    fn hand_out(self) -> Result<String, WriteError>
        ensures { Finishes self result }
    {
        let Serializer {
            emitter,
            error,
            alloc: _,
        } = self;
        match error {
            Some(error) => Err(error),
            None => handed_out(emitter),
        }
    }
}

// The text of what was emitted, where it is a whole table; else `CallOrder`.
fn handed_out(emitter: Emitter) -> Result<String, WriteError>
    ensures { HandsOut CallOrder emitter result }
{
    match emitter.finish() {
        Ok(text) => Ok(text),
        Err(_) => Err(WriteError::CallOrder),
    }
}
