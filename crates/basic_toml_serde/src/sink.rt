//! What takes the items that a value is sent as: `basic_toml`'s serializer, or a list of them.
ghost use Rattle.std.specs.Prelude.{◌≡◌, List, [], ◌∷◌, Ok, OnOk};
ghost use Rattle.basic_toml_emit.specs.Items.{Item, key, field, close};
ghost use Rattle.basic_toml_write.specs.Serializer.{HasRecorded};
ghost use Rattle.basic_toml_serde.specs.Pieces.{items_of};
ghost use Rattle.basic_toml_serde.specs.Recorded.{Records};

use crate::failure::Failure;
use crate::piece::{KeyAlone, Piece};
use basic_toml::{Serialize, Serializer, WriteError};
use std::alloc::Global;

/// Takes items one after another.
pub(crate) trait Sink: Drop {
    /// Which items it has taken, from the first on.
    ghost has_recorded: { Self → List Item → Type 0 };

    /// Takes a value or an element, or what begins it.
    fn add_value(&mut self, alloc: Global, piece: &Piece<'_>) -> Result<(), Failure>
        ensures { OnOk result (Records has_recorded (items_of piece.now) self.old self.new) };

    /// Takes the key of an entry, as a value.
    fn add_key(&mut self, alloc: Global, piece: &Piece<'_>) -> Result<(), Failure>
        ensures { OnOk result (Records has_recorded (key ∷ items_of piece.now) self.old self.new) };

    /// Takes the key of an entry, without its value.
    fn add_field(&mut self, alloc: Global, name: &str) -> Result<(), Failure>
        ensures { OnOk result (Records has_recorded (field name.now ∷ []) self.old self.new) };

    /// Takes the end of the innermost array or table.
    fn add_end(&mut self) -> Result<(), Failure>
        ensures { OnOk result (Records has_recorded (close ∷ []) self.old self.new) };

    /// The error that it keeps, if it refused an item.
    fn into_error(self) -> Option<WriteError>;
}

#[tactic(auto, using(crate::proofs::EventsAreSent::items_recorded))]
impl Sink for Serializer {
    ghost has_recorded = { HasRecorded };

    #[inline(always)]
    fn add_value(&mut self, alloc: Global, piece: &Piece<'_>) -> Result<(), Failure> {
        let answer = piece.serialize(alloc, self);
        if answer.is_ok() && !self.has_refused() {
            return Ok(());
        }
        Err(Failure::Refused)
    }

    fn add_key(&mut self, _alloc: Global, piece: &Piece<'_>) -> Result<(), Failure> {
        taken(self.serialize_key(piece))
    }

    #[inline(always)]
    fn add_field(&mut self, _alloc: Global, name: &str) -> Result<(), Failure> {
        taken(self.serialize_field(name, &KeyAlone))
    }

    #[inline(always)]
    fn add_end(&mut self) -> Result<(), Failure> {
        taken(self.end())
    }

    fn into_error(self) -> Option<WriteError> {
        self.finish().err()
    }
}

/// The answer of a call, whose error the serializer keeps.
#[inline(always)]
fn taken(answer: Result<(), WriteError>) -> Result<(), Failure>
    ensures { OnOk result (answer ≡ Ok tt) }
{
    if answer.is_ok() {
        return Ok(());
    }
    Err(Failure::Refused)
}
