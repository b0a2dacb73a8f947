//! Rules for a checker, as a caller's own types write them.
ghost use Rattle.std.specs.Prelude.{codes};
ghost use Rattle.basic_toml.specs.Parts.{a_record, a_field, the_end};
ghost use Rattle.basic_toml.specs.ReadBack.{RoundTrips};
ghost use Rattle.basic_toml.specs.Ser.{Writes};

use basic_toml::{Error, Serialize, Serializer, Table, WriteError, round_trip, to_string};
use std::alloc::Global;

/// What a checker looks for, and how long a match may be at most.
#[derive(Drop)]
pub struct Rule {
    pub pattern: String,
    pub limit: u32,
}

impl Serialize for Rule {
    ghost calls = { λ r. a_record
        (a_field (codes "pattern") (⟦<String as Serialize>⟧.calls r.pattern)
        (a_field (codes "limit") (⟦<u32 as Serialize>⟧.calls r.limit) the_end)) };

    fn serialize(&self, _alloc: Global, ser: &mut Serializer) -> Result<(), WriteError> {
        ser.serialize_struct("Rule", 2)?;
        ser.serialize_field("pattern", &self.pattern)?;
        ser.serialize_field("limit", &self.limit)?;
        ser.end()
    }
}

/// A file of rules.
#[derive(Drop)]
pub struct RuleFile {
    pub title: String,
    pub rules: Vec<Rule>,
}

impl Serialize for RuleFile {
    ghost calls = { λ f. a_record
        (a_field (codes "title") (⟦<String as Serialize>⟧.calls f.title)
        (a_field (codes "rule") (⟦<Vec<Rule> as Serialize>⟧.calls f.rules) the_end)) };

    fn serialize(&self, _alloc: Global, ser: &mut Serializer) -> Result<(), WriteError> {
        ser.serialize_struct("RuleFile", 2)?;
        ser.serialize_field("title", &self.title)?;
        ser.serialize_field("rule", &self.rules)?;
        ser.end()
    }
}

/// The text of a file of rules.
///
/// # Errors
///
/// Those of [`to_string`].
pub fn text_of(alloc: Global, file: &RuleFile) -> Result<String, Error>
    ensures { Writes (⟦<RuleFile as Serialize>⟧.calls file.now) (⟦<RuleFile as Serialize>⟧.gives_up file.now) result }
{
    to_string(alloc, file)
}

/// What a reader of that text finds: exactly what was written.
///
/// # Errors
///
/// Those of [`round_trip`].
pub fn read_again(alloc: Global, file: &RuleFile) -> Result<Table, Error>
    ensures { RoundTrips (⟦<RuleFile as Serialize>⟧.calls file.now) (⟦<RuleFile as Serialize>⟧.gives_up file.now)
        result }
{
    round_trip(alloc, file)
}
