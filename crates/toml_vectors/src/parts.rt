// Types whose calls the tests make.
ghost use Rattle.std.specs.Prelude.{[], ◌∷◌, codes};
ghost use Rattle.basic_toml_write.specs.Error.{IsCustom};
ghost use Rattle.basic_toml_emit.specs.Items.{open_table};
ghost use Rattle.basic_toml_write.specs.Serializer.{GivesUpAfter};

use basic_toml_write::{Serialize, Serializer, WriteError};
use std::alloc::Global;

// A part that makes no call.
pub struct Silent;

impl Serialize for Silent {
    ghost calls = { λ _. [] };

    #[tactic(auto, using(basic_toml_write::proofs::OneCallIsSent::sends_nothing))]
    fn serialize(&self, alloc: Global, ser: &mut Serializer) -> Result<(), WriteError> {
        let _ = alloc;
        let _ = ser;
        Ok(())
    }
}

// Opens a table and gives up.
pub struct Halting;

impl Serialize for Halting {
    ghost calls = { λ _. open_table ∷ [] };

    ghost gives_up = { λ _. GivesUpAfter (open_table ∷ []) (IsCustom (codes "no")) };

    #[tactic(auto, using(basic_toml_write::proofs::OneCallIsSent::sends_gave_up))]
    fn serialize(&self, alloc: Global, ser: &mut Serializer) -> Result<(), WriteError> {
        let _ = ser.serialize_map(None);
        Err(WriteError::custom(alloc, "no"))
    }
}
