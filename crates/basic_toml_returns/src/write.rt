//! Records: the fields of a table, written one after another.
ghost use Rattle.std.specs.Prelude.{◌≡◌, ◌++◌, ◌∷◌, [], IfErr, IfOk, List};
ghost use Rattle.basic_toml.specs.Items.{Item};
ghost use Rattle.basic_toml.specs.Parts.{Never, a_field, the_end};
ghost use Rattle.basic_toml.specs.Serializer.{NoFault, Sends};
ghost use Rattle.basic_toml_returns.specs.RoundTrips.{calls_of, record_calls, record_holds};
ghost use Rattle.basic_toml_returns.specs.WrittenFields.{AllHold, AreAdded, FailToBeAdded};

use crate::RoundTrip;
use basic_toml::{And, Four, Serialize, Serializer, WriteError};

/// One or more fields of a record, as [`write_record!`](crate::write_record!) lists them.
pub trait WriteFields: Sized + Drop {
    // What they spell in front of what follows them.
    ghost spells: { Self → List Item → List Item };

    // None of them gives up with an error of its own.
    ghost never: { Self → Type 0 };

    // What holds of each value that was written.
    ghost holds: { Self → List (Type 0) };

    /// Writes the fields in their order.
    ///
    /// # Errors
    ///
    /// The first that a field meets.
    fn write(self, ser: &mut Serializer) -> Result<(), WriteError>
        ensures adds { IfOk result (λ _. AreAdded (spells self) ser.old ser.new) }
        ensures fails { IfErr result (λ e. never self → FailToBeAdded (spells self) ser.old ser.new e) }
        ensures holds { IfOk result (λ _. AllHold (holds self)) };
}

/// A field with its key: [`serialize_field`](Serializer::serialize_field).
#[derive(Drop)]
pub struct WriteField<'a, T> {
    pub key: &'a str,
    pub value: &'a T,
}

impl<T: Serialize> WriteFields for WriteField<'_, T> {
    ghost spells = { λ f. a_field f.key.now (T.calls f.value.now) };

    ghost never = { λ f. Never (T.gives_up f.value.now) };

    ghost holds = { λ f. T.holds f.value.now ∷ [] };

    #[tactic(auto, using(crate::proofs::FieldsSent::one_field))]
    fn write(self, ser: &mut Serializer) -> Result<(), WriteError> {
        ser.serialize_field(self.key, self.value)
    }
}

impl<A: WriteFields, B: WriteFields> WriteFields for And<A, B> {
    ghost spells = { λ f more. A.spells f.first (B.spells f.rest more) };

    ghost never = { λ f. A.never f.first × B.never f.rest };

    ghost holds = { λ f. A.holds f.first ++ B.holds f.rest };

    #[tactic(auto, using(crate::proofs::FieldsSent::fields_in_turn))]
    fn write(self, ser: &mut Serializer) -> Result<(), WriteError> {
        let And { first, rest } = self;
        first.write(ser)?;
        rest.write(ser)
    }
}

impl<A: WriteFields, B: WriteFields, C: WriteFields, D: WriteFields> WriteFields
    for Four<A, B, C, D> {
    ghost spells = { λ f more.
        A.spells f.first (B.spells f.second (C.spells f.third (D.spells f.fourth more))) };

    ghost never = { λ f. A.never f.first × B.never f.second × C.never f.third × D.never f.fourth };

    ghost holds = { λ f.
        A.holds f.first ++ (B.holds f.second ++ (C.holds f.third ++ D.holds f.fourth)) };

    #[tactic(auto, using(crate::proofs::FieldsSent::fields_in_turn))]
    fn write(self, ser: &mut Serializer) -> Result<(), WriteError> {
        let Four {
            first,
            second,
            third,
            fourth,
        } = self;
        first.write(ser)?;
        second.write(ser)?;
        third.write(ser)?;
        fourth.write(ser)
    }
}

/// Writes a record: its fields in their order. [`write_record!`](crate::write_record!) lists them.
///
/// # Errors
///
/// The first that a field meets, and that of a table which may not stand there.
pub fn write_record<R: RoundTrip, F: WriteFields>(
    ser: &mut Serializer,
    value: &R,
    fields: F,
) -> Result<(), WriteError>
    requires never { F.never fields }
    requires same { F.spells fields the_end ≡ calls_of R.fields value.now }
    requires holds { AllHold (F.holds fields) → record_holds R.fields value.now }
    ensures sends { Sends (record_calls R.fields value.now) NoFault ser.old ser.new result }
    ensures holds { IfOk result (λ _. record_holds R.fields value.now) }
{
    ser.serialize_map(None)?;
    fields.write(ser)?;
    ser.end()
}

/// Writes a record as a table: its fields, each with the key that it is written at.
///
/// ```text
/// write_record!(ser, self, Settings {
///     host = "host",
///     port = "port",
///     log = "log",
/// })
/// ```
///
/// The record says by [`RoundTrip`] the same of its fields.
#[macro_export]
macro_rules! write_record {
    ($ser:expr, $value:expr, $record:ident { $($name:ident = $key:expr),+ $(,)? }) => {
        $crate::write_record::<$record, _>(
            $ser,
            $value,
            basic_toml_typed::all_of!($(($crate::WriteField { key: $key, value: &$value.$name }))+),
        )
    };
}
