//! The calls of each type.
ghost use Rattle.std.specs.Prelude.{◌≡◌, ◌<◌, ◌^◌, ℕ, List, [], ◌∷◌, ◌++◌, ⊤, true, IfOk, MatchOption, pos, string_bytes, string_cmp, encode_utf8};
ghost use Rattle.std.specs.BTreeMap.{IsOrdered};
ghost use Rattle.std.specs.List.{AllByRecursion};
ghost use Rattle.basic_toml_layout.specs.Written as w;
ghost use Rattle.basic_toml_write.specs.Serializer.{Sends, MemoryHasCause};
ghost use Rattle.basic_toml_write.specs.Impls.{data_calls, is_within, scalar_calls, option_calls, OptionGivesUp, array_calls, ArrayGivesUp, table_calls, TableGivesUp, map_calls, MapGivesUp};
ghost use Rattle.basic_toml_value.specs.View.{view};

use crate::{Serialize, Serializer, WriteError};
use basic_toml_value::{Float, Pairs, Table, Value};
use std::alloc::Global;
use std::collections::BTreeMap;

impl Serialize for bool {
    ghost calls = { λ b. scalar_calls (w.boolean b) };

    ghost asks_no_memory = { λ _. ⊤ };

    fn serialize(&self, _alloc: Global, ser: &mut Serializer) -> Result<(), WriteError> {
        ser.serialize_bool(*self)
    }
}

impl Serialize for i8 {
    ghost calls = { λ n. scalar_calls (w.integer n) };

    ghost holds = { λ n. is_within 7 n ≡ true };

    ghost asks_no_memory = { λ _. ⊤ };

    fn serialize(&self, _alloc: Global, ser: &mut Serializer) -> Result<(), WriteError> {
        ser.serialize_i8(*self)
    }
}

impl Serialize for i16 {
    ghost calls = { λ n. scalar_calls (w.integer n) };

    ghost holds = { λ n. is_within 15 n ≡ true };

    ghost asks_no_memory = { λ _. ⊤ };

    fn serialize(&self, _alloc: Global, ser: &mut Serializer) -> Result<(), WriteError> {
        ser.serialize_i16(*self)
    }
}

impl Serialize for i32 {
    ghost calls = { λ n. scalar_calls (w.integer n) };

    ghost holds = { λ n. is_within 31 n ≡ true };

    ghost asks_no_memory = { λ _. ⊤ };

    fn serialize(&self, _alloc: Global, ser: &mut Serializer) -> Result<(), WriteError> {
        ser.serialize_i32(*self)
    }
}

impl Serialize for i64 {
    ghost calls = { λ n. scalar_calls (w.integer n) };

    ghost holds = { λ n. is_within 63 n ≡ true };

    ghost asks_no_memory = { λ _. ⊤ };

    fn serialize(&self, _alloc: Global, ser: &mut Serializer) -> Result<(), WriteError> {
        ser.serialize_i64(*self)
    }
}

impl Serialize for u8 {
    ghost calls = { λ n. scalar_calls (w.integer (pos n)) };

    ghost holds = { λ n. n < 2 ^ 8 };

    ghost asks_no_memory = { λ _. ⊤ };

    fn serialize(&self, _alloc: Global, ser: &mut Serializer) -> Result<(), WriteError> {
        ser.serialize_u8(*self)
    }
}

impl Serialize for u16 {
    ghost calls = { λ n. scalar_calls (w.integer (pos n)) };

    ghost holds = { λ n. n < 2 ^ 16 };

    ghost asks_no_memory = { λ _. ⊤ };

    fn serialize(&self, _alloc: Global, ser: &mut Serializer) -> Result<(), WriteError> {
        ser.serialize_u16(*self)
    }
}

impl Serialize for u32 {
    ghost calls = { λ n. scalar_calls (w.integer (pos n)) };

    ghost holds = { λ n. n < 2 ^ 32 };

    ghost asks_no_memory = { λ _. ⊤ };

    fn serialize(&self, _alloc: Global, ser: &mut Serializer) -> Result<(), WriteError> {
        ser.serialize_u32(*self)
    }
}

impl Serialize for u64 {
    ghost calls = { λ n. scalar_calls (w.integer (pos n)) };

    ghost holds = { λ n. n < 2 ^ 64 };

    ghost asks_no_memory = { λ _. ⊤ };

    fn serialize(&self, _alloc: Global, ser: &mut Serializer) -> Result<(), WriteError> {
        ser.serialize_u64(*self)
    }
}

impl Serialize for char {
    ghost calls = { λ c. scalar_calls (w.other_text (encode_utf8 c)) };

    ghost asks_no_memory = { λ _. ⊤ };

    fn serialize(&self, _alloc: Global, ser: &mut Serializer) -> Result<(), WriteError> {
        ser.serialize_char(*self)
    }
}

impl Serialize for &str {
    ghost calls = { λ s. scalar_calls (w.text s.now) };

    ghost asks_no_memory = { λ _. ⊤ };

    fn serialize(&self, _alloc: Global, ser: &mut Serializer) -> Result<(), WriteError> {
        ser.serialize_str(*self)
    }
}

impl Serialize for String {
    ghost calls = { λ s. scalar_calls (w.text (string_bytes s)) };

    ghost asks_no_memory = { λ _. ⊤ };

    fn serialize(&self, _alloc: Global, ser: &mut Serializer) -> Result<(), WriteError> {
        ser.serialize_str(self.as_str())
    }
}

impl Serialize for Float {
    ghost calls = { λ f. scalar_calls (w.float f) };

    ghost asks_no_memory = { λ _. ⊤ };

    fn serialize(&self, _alloc: Global, ser: &mut Serializer) -> Result<(), WriteError> {
        ser.serialize_float(self)
    }
}

impl<T: Serialize> Serialize for Option<T> {
    ghost calls = { option_calls T.calls };

    ghost gives_up = { OptionGivesUp T.gives_up };

    ghost holds = { λ o. MatchOption o ⊤ T.holds };

    ghost asks_no_memory = { λ o. MatchOption o ⊤ T.asks_no_memory };

    #[tactic(auto, using(crate::proofs::RecordIsSent::option_sent, crate::proofs::ListsAreSentInTurn::sends_never))]
    fn serialize(&self, _alloc: Global, ser: &mut Serializer) -> Result<(), WriteError> {
        match self {
            None => ser.serialize_none(),
            Some(value) => ser.serialize_some(value),
        }
    }
}

// The calls of an array.
fn serialize_elements<T: Serialize>(elements: &[T], ser: &mut Serializer) -> Result<(), WriteError>
    ensures sends { Sends (array_calls T.calls elements.now) (ArrayGivesUp T.calls T.gives_up elements.now) ser.old
        ser.new result }
    ensures holds { IfOk result (λ _. AllByRecursion T.holds elements.now) }
    ensures memory { MemoryHasCause (array_calls T.calls elements.now) ser.old ser.new result }
{
    ser.serialize_seq(Some(elements.len()))?;
    for element in elements {
        ser.serialize_element(element)?;
    }
    ser.end()
}

impl<T: Serialize> Serialize for &[T] {
    ghost calls = { λ xs. array_calls T.calls xs.now };

    ghost gives_up = { λ xs. ArrayGivesUp T.calls T.gives_up xs.now };

    ghost holds = { λ xs. AllByRecursion T.holds xs.now };

    ghost asks_no_memory = { λ _. ⊤ };

    fn serialize(&self, _alloc: Global, ser: &mut Serializer) -> Result<(), WriteError> {
        serialize_elements(*self, ser)
    }
}

impl<T: Serialize> Serialize for Vec<T> {
    ghost calls = { λ xs. array_calls T.calls xs.items };

    ghost gives_up = { λ xs. ArrayGivesUp T.calls T.gives_up xs.items };

    ghost holds = { λ xs. AllByRecursion T.holds xs.items };

    ghost asks_no_memory = { λ _. ⊤ };

    fn serialize(&self, _alloc: Global, ser: &mut Serializer) -> Result<(), WriteError> {
        serialize_elements(self.as_slice(), ser)
    }
}

// The calls of a table.
fn serialize_entries<V: Serialize>(pairs: &Pairs<V>, ser: &mut Serializer) -> Result<(), WriteError>
    ensures sends { Sends (table_calls V.calls pairs.now) (TableGivesUp V.calls V.gives_up pairs.now) ser.old ser.new
        result }
    ensures memory { MemoryHasCause (table_calls V.calls pairs.now) ser.old ser.new result }
{
    ser.serialize_map(Some(pairs.len()))?;
    for (key, value) in pairs.iter() {
        ser.serialize_field(key, value)?;
    }
    ser.end()
}

// A whole table is laid out at once where it can be: its keys differ, so no key need be looked for.
impl Serialize for Table {
    ghost calls = { table_calls (λ v. data_calls (view v)) };

    ghost asks_no_memory = { λ _. ⊤ };

    #[cycle(data)]
    fn serialize(&self, _alloc: Global, ser: &mut Serializer) -> Result<(), WriteError> {
        match ser.lay_out(self) {
            Some(answer) => answer,
            None => serialize_entries(self, ser),
        }
    }
}

impl<V: Serialize> Serialize for BTreeMap<String, V> {
    ghost calls = { λ m. map_calls V.calls m.entries };

    ghost gives_up = { λ m. MapGivesUp V.calls V.gives_up m.entries };

    ghost holds = { λ m. IsOrdered string_cmp m × AllByRecursion (λ e. V.holds e.1) m.entries };

    ghost asks_no_memory = { λ _. ⊤ };

    fn serialize(&self, _alloc: Global, ser: &mut Serializer) -> Result<(), WriteError> {
        ser.serialize_map(Some(self.len()))?;
        for (name, value) in self.iter() {
            ser.serialize_field(name.as_str(), value)?;
        }
        ser.end()
    }
}

impl Serialize for Value {
    ghost calls = { λ v. data_calls (view v) };

    ghost asks_no_memory = { λ _. ⊤ };

    #[cycle(data)]
    fn serialize(&self, alloc: Global, ser: &mut Serializer) -> Result<(), WriteError> {
        match self {
            Value::Integer(n) => ser.serialize_i64(*n),
            Value::Float(float) => ser.serialize_float(float),
            Value::Boolean(b) => ser.serialize_bool(*b),
            Value::String(text) => ser.serialize_str(text.as_str()),
            Value::Array(values) => values.serialize(alloc, ser),
            Value::Table(table) => table.serialize(alloc, ser),
        }
    }
}
