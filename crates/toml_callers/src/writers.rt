//! Types that give up, one that asks for no memory of its own, and callers of `to_string`, proved by its contract
//! alone.
ghost use Rattle.std.specs.Prelude.{◌≡◌, ◌⊎◌, ⊤, List, [], ◌∷◌, codes, Err, IfErr, OnOk};
ghost use Rattle.basic_toml_write.specs.Error.{IsCustom};
ghost use Rattle.basic_toml_write.specs.declared.error.WriteError.{WriteError};
ghost use Rattle.basic_toml.specs.Fault.{want_of_memory, without_offset, unsupported_type};
ghost use Rattle.basic_toml.specs.Items.{Item, a_scalar};
ghost use Rattle.basic_toml.specs.Parts.{a_record, a_field, the_end};
ghost use Rattle.basic_toml.specs.Ser.{IsFirstFault};
ghost use Rattle.basic_toml.specs.Serializer.{GivesUpAfter, ran};
ghost use Rattle.basic_toml.specs.Written.{refused};

use basic_toml::{Error, Serialize, Serializer, WriteError, to_string};
use std::alloc::Global;

/// The text of a value whose type gives up only once a call was refused: else the first error that its calls meet, and
/// never one of the type's own.
#[tactic(auto, using(crate::proofs::RefusalGoesFirst::first_error))]
pub fn text_or_first_error<T: Serialize>(alloc: Global, value: &T) -> Result<String, Error>
    requires { (sent : List Item) (e : WriteError) → T.gives_up value.now sent e → OnOk (ran sent) ⊥ }
    ensures { IfErr result (λ f. (f ≡ want_of_memory) ⊎ IsFirstFault (T.calls value.now) f) }
{
    to_string(alloc, value)
}

/// Passes over the error of its call, and answers one of its own.
pub struct Careless;

impl Serialize for Careless {
    ghost calls = { λ _. a_scalar refused ∷ [] };

    ghost gives_up = { λ _. GivesUpAfter (a_scalar refused ∷ []) (IsCustom (codes "no")) };

    #[tactic(auto, using(basic_toml_write::proofs::OneCallIsSent::sends_gave_up))]
    fn serialize(&self, alloc: Global, ser: &mut Serializer) -> Result<(), WriteError> {
        let _ = ser.serialize_unit();
        Err(WriteError::custom(alloc, "no"))
    }
}

/// What is written of it: the error that it passed over, and never its own.
#[tactic(auto, using(crate::proofs::RefusalGoesFirst::careless_text))]
pub fn text_of_careless(alloc: Global) -> Result<String, Error>
    ensures { (result ≡ Err want_of_memory) ⊎ (result ≡ Err (without_offset unsupported_type)) }
{
    to_string(alloc, &Careless)
}

/// A string is no table, so it has no text of its own. It is refused for that, and never for want of memory.
#[tactic(auto, using(crate::proofs::RefusalGoesFirst::words_refused))]
pub fn text_of_words(alloc: Global, words: &str) -> Result<String, Error>
    ensures { result ≡ Err (without_offset unsupported_type) }
{
    to_string(alloc, &words)
}

/// A label, which asks for no memory but by its calls.
#[derive(Clone, Copy)]
pub struct Label<'a> {
    pub name: &'a str,
    pub place: Option<&'a str>,
}

impl<'a> Serialize for Label<'a> {
    ghost calls = { λ label. a_record
        (a_field (codes "name") (⟦<&'a str as Serialize>⟧.calls label.name)
        (a_field (codes "place") (⟦<Option<&'a str> as Serialize>⟧.calls label.place) the_end)) };

    ghost asks_no_memory = { λ _. ⊤ };

    fn serialize(&self, _alloc: Global, ser: &mut Serializer) -> Result<(), WriteError> {
        ser.serialize_struct("Label", 2)?;
        ser.serialize_field("name", &self.name)?;
        ser.serialize_field("place", &self.place)?;
        ser.end()
    }
}
