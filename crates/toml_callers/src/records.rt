//! Records of 2, of 5 and of 16 fields, and an enum, as a caller has them. None takes a proof. `returned.rt` writes the
//! first two.
ghost use Rattle.std.specs.Prelude.{codes};
ghost use Rattle.basic_toml.specs.Parts.{a_record, a_field, the_end};

use basic_toml::{Float, Serialize, Serializer, WriteError};
use std::alloc::Global;
use std::collections::BTreeMap;

/// A record of 2 fields: what a checker looks for, and how long a match may be at most.
#[derive(Drop)]
pub struct Rule {
    pub pattern: String,
    pub limit: u32,
}

/// A record of 5 fields: where a server listens, and what it looks for.
#[derive(Drop)]
pub struct Server {
    pub verbose: bool,
    pub port: Option<u16>,
    pub host_name: String,
    pub rules: Vec<Rule>,
    pub backup: Option<Vec<Rule>>,
}

/// A rule by its name, or a whole one.
#[derive(Drop)]
pub enum Choice {
    Named(String),
    Whole(Rule),
}

impl Serialize for Choice {
    ghost use Rattle.toml_callers.specs.declared.records.Choice.TheVariants.{Named, Whole};

    ghost calls = { λ c. elim c [
      | Named name ↦ ⟦<String as Serialize>⟧.calls name
      | Whole rule ↦ ⟦<Rule as Serialize>⟧.calls rule
    ] };

    fn serialize(&self, alloc: Global, ser: &mut Serializer) -> Result<(), WriteError> {
        match self {
            Choice::Named(name) => name.serialize(alloc, ser),
            Choice::Whole(rule) => rule.serialize(alloc, ser),
        }
    }
}

/// A record of 16 fields.
#[derive(Drop)]
pub struct Job {
    pub name: String,
    pub priority: i32,
    pub retries: u8,
    pub seed: u64,
    pub enabled: bool,
    pub mark: char,
    pub owner: Option<String>,
    pub timeout: Option<u32>,
    pub ratio: Option<Float>,
    pub tags: Vec<String>,
    pub grid: Vec<Vec<i64>>,
    pub choice: Choice,
    pub limits: BTreeMap<String, u32>,
    pub server: Server,
    pub fallback: Option<Server>,
    pub rules: BTreeMap<String, Vec<Rule>>,
}

impl Serialize for Job {
    ghost calls = { λ j. a_record
        (a_field (codes "name") (⟦<String as Serialize>⟧.calls j.name)
        (a_field (codes "priority") (⟦<i32 as Serialize>⟧.calls j.priority)
        (a_field (codes "retries") (⟦<u8 as Serialize>⟧.calls j.retries)
        (a_field (codes "seed") (⟦<u64 as Serialize>⟧.calls j.seed)
        (a_field (codes "enabled") (⟦<bool as Serialize>⟧.calls j.enabled)
        (a_field (codes "mark") (⟦<char as Serialize>⟧.calls j.mark)
        (a_field (codes "owner") (⟦<Option<String> as Serialize>⟧.calls j.owner)
        (a_field (codes "timeout") (⟦<Option<u32> as Serialize>⟧.calls j.timeout)
        (a_field (codes "ratio") (⟦<Option<Float> as Serialize>⟧.calls j.ratio)
        (a_field (codes "tags") (⟦<Vec<String> as Serialize>⟧.calls j.tags)
        (a_field (codes "grid") (⟦<Vec<Vec<i64>> as Serialize>⟧.calls j.grid)
        (a_field (codes "choice") (⟦<Choice as Serialize>⟧.calls j.choice)
        (a_field (codes "limits") (⟦<BTreeMap<String, u32> as Serialize>⟧.calls j.limits)
        (a_field (codes "server") (⟦<Server as Serialize>⟧.calls j.server)
        (a_field (codes "fallback") (⟦<Option<Server> as Serialize>⟧.calls j.fallback)
        (a_field (codes "rules") (⟦<BTreeMap<String, Vec<Rule>> as Serialize>⟧.calls j.rules)
        the_end)))))))))))))))) };

    fn serialize(&self, _alloc: Global, ser: &mut Serializer) -> Result<(), WriteError> {
        ser.serialize_struct("Job", 16)?;
        ser.serialize_field("name", &self.name)?;
        ser.serialize_field("priority", &self.priority)?;
        ser.serialize_field("retries", &self.retries)?;
        ser.serialize_field("seed", &self.seed)?;
        ser.serialize_field("enabled", &self.enabled)?;
        ser.serialize_field("mark", &self.mark)?;
        ser.serialize_field("owner", &self.owner)?;
        ser.serialize_field("timeout", &self.timeout)?;
        ser.serialize_field("ratio", &self.ratio)?;
        ser.serialize_field("tags", &self.tags)?;
        ser.serialize_field("grid", &self.grid)?;
        ser.serialize_field("choice", &self.choice)?;
        ser.serialize_field("limits", &self.limits)?;
        ser.serialize_field("server", &self.server)?;
        ser.serialize_field("fallback", &self.fallback)?;
        ser.serialize_field("rules", &self.rules)?;
        ser.end()
    }
}
