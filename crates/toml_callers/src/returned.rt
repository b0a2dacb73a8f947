//! Records of 2, of 5 and of 16 fields, and an enum, that are read back from what they write. None takes a proof.
ghost use Rattle.std.specs.Prelude.{[], ◌∷◌, codes, refl};
ghost use Rattle.basic_toml.specs.Records.{record_faults, record_reads};
ghost use Rattle.basic_toml_returns.proofs.RecordsReturn.{record_back};
ghost use Rattle.basic_toml_returns.specs.RoundTrips.{as_read, done, maybe, needed, record_calls, record_holds};
ghost use Rattle.basic_toml_returns.specs.Variants.{variant_back, variant_calls, variant_faults, variant_reads};

use crate::records::{Rule, Server};
use crate::types::{Color, Service};
use basic_toml::{
    Deserialize, Error, Float, Node, Record, Serialize, Serializer, Tree, Value, WriteError,
    from_str, variant,
};
use basic_toml_returns::{Choice, Returns, Root, RoundTrip, write_record, write_variant};
use basic_toml_typed::read_record;
use std::alloc::Global;
use std::collections::BTreeMap;

impl RoundTrip for Rule {
    ghost fields = { (needed ⟦<String as Returns<'static>>⟧ "pattern" (λ s. s.pattern)
        (needed ⟦<u32 as Returns<'static>>⟧ "limit" (λ s. s.limit)
        done)) };
}

impl Record for Rule {
    ghost fields = { as_read ⟦<Rule as RoundTrip>⟧.fields };
}

impl<'de> Deserialize<'de> for Rule {
    ghost reads = { record_reads ⟦<Rule as Record>⟧.fields };

    ghost faults = { record_faults ⟦<Rule as Record>⟧.fields };

    fn deserialize(alloc: Global, node: Node<'_, 'de>) -> Result<Rule, Error> {
        read_record!(alloc, node, Rule {
            pattern = needed("pattern"),
            limit = needed("limit"),
        })
    }

    fn from_tree(alloc: Global, tree: Tree<'de>) -> Result<Rule, Error> {
        Rule::deserialize(alloc, tree.root())
    }
}

impl Serialize for Rule {
    ghost calls = { record_calls ⟦<Rule as RoundTrip>⟧.fields };

    ghost holds = { record_holds ⟦<Rule as RoundTrip>⟧.fields };

    fn serialize(&self, _alloc: Global, ser: &mut Serializer) -> Result<(), WriteError> {
        write_record!(ser, self, Rule {
            pattern = "pattern",
            limit = "limit",
        })
    }
}

impl<'de> Returns<'de> for Rule {
    ghost read_back = { record_back ⟦<Rule as RoundTrip>⟧.fields (λ s. refl) };

    ghost returns = { ⟦<Rule as Returns<'static>>⟧.read_back.returns };
}

impl RoundTrip for Server {
    ghost fields = { (needed ⟦<bool as Returns<'static>>⟧ "verbose" (λ s. s.verbose)
        (maybe ⟦<u16 as Returns<'static>>⟧ "port" (λ s. s.port)
        (needed ⟦<String as Returns<'static>>⟧ "host_name" (λ s. s.host_name)
        (needed ⟦<Vec<Rule> as Returns<'static>>⟧ "rules" (λ s. s.rules)
        (maybe ⟦<Vec<Rule> as Returns<'static>>⟧ "backup" (λ s. s.backup)
        done))))) };
}

impl Record for Server {
    ghost fields = { as_read ⟦<Server as RoundTrip>⟧.fields };
}

impl<'de> Deserialize<'de> for Server {
    ghost reads = { record_reads ⟦<Server as Record>⟧.fields };

    ghost faults = { record_faults ⟦<Server as Record>⟧.fields };

    fn deserialize(alloc: Global, node: Node<'_, 'de>) -> Result<Server, Error> {
        read_record!(alloc, node, Server {
            verbose = needed("verbose"),
            port = maybe("port"),
            host_name = needed("host_name"),
            rules = needed("rules"),
            backup = maybe("backup"),
        })
    }

    fn from_tree(alloc: Global, tree: Tree<'de>) -> Result<Server, Error> {
        Server::deserialize(alloc, tree.root())
    }
}

impl Serialize for Server {
    ghost calls = { record_calls ⟦<Server as RoundTrip>⟧.fields };

    ghost holds = { record_holds ⟦<Server as RoundTrip>⟧.fields };

    fn serialize(&self, _alloc: Global, ser: &mut Serializer) -> Result<(), WriteError> {
        write_record!(ser, self, Server {
            verbose = "verbose",
            port = "port",
            host_name = "host_name",
            rules = "rules",
            backup = "backup",
        })
    }
}

impl<'de> Returns<'de> for Server {
    ghost read_back = { record_back ⟦<Server as RoundTrip>⟧.fields (λ s. refl) };

    ghost returns = { ⟦<Server as Returns<'static>>⟧.read_back.returns };
}

impl<'de> Root<'de> for Server {
    fn from_text(alloc: Global, text: &str) -> Result<Server, Error> {
        from_str(alloc, text)
    }
}

/// Its map goes last, since no row may stand behind a section.
impl RoundTrip for Service {
    ghost fields = { (needed ⟦<String as Returns<'static>>⟧ "name" (λ s. s.name)
        (needed ⟦<bool as Returns<'static>>⟧ "enabled" (λ s. s.enabled)
        (needed ⟦<i8 as Returns<'static>>⟧ "priority" (λ s. s.priority)
        (needed ⟦<i16 as Returns<'static>>⟧ "offset" (λ s. s.offset)
        (needed ⟦<i32 as Returns<'static>>⟧ "level" (λ s. s.level)
        (needed ⟦<i64 as Returns<'static>>⟧ "balance" (λ s. s.balance)
        (needed ⟦<u8 as Returns<'static>>⟧ "retries" (λ s. s.retries)
        (needed ⟦<u16 as Returns<'static>>⟧ "port" (λ s. s.port)
        (needed ⟦<u32 as Returns<'static>>⟧ "backlog" (λ s. s.backlog)
        (needed ⟦<u64 as Returns<'static>>⟧ "timeout" (λ s. s.timeout)
        (needed ⟦<Float as Returns<'static>>⟧ "ratio" (λ s. s.ratio)
        (needed ⟦<Vec<String> as Returns<'static>>⟧ "tags" (λ s. s.tags)
        (needed ⟦<Color as Returns<'static>>⟧ "color" (λ s. s.color)
        (maybe ⟦<String as Returns<'static>>⟧ "log" (λ s. s.log)
        (maybe ⟦<Value as Returns<'static>>⟧ "note" (λ s. s.note)
        (needed ⟦<BTreeMap<String, u32> as Returns<'static>>⟧ "limits" (λ s. s.limits)
        done)))))))))))))))) };
}

impl Record for Service {
    ghost fields = { as_read ⟦<Service as RoundTrip>⟧.fields };
}

impl<'de> Deserialize<'de> for Service {
    ghost reads = { record_reads ⟦<Service as Record>⟧.fields };

    ghost faults = { record_faults ⟦<Service as Record>⟧.fields };

    fn deserialize(alloc: Global, node: Node<'_, 'de>) -> Result<Service, Error> {
        read_record!(alloc, node, Service {
            name = needed("name"),
            enabled = needed("enabled"),
            priority = needed("priority"),
            offset = needed("offset"),
            level = needed("level"),
            balance = needed("balance"),
            retries = needed("retries"),
            port = needed("port"),
            backlog = needed("backlog"),
            timeout = needed("timeout"),
            ratio = needed("ratio"),
            tags = needed("tags"),
            color = needed("color"),
            log = maybe("log"),
            note = maybe("note"),
            limits = needed("limits"),
        })
    }

    fn from_tree(alloc: Global, tree: Tree<'de>) -> Result<Service, Error> {
        Service::deserialize(alloc, tree.root())
    }
}

impl Serialize for Service {
    ghost calls = { record_calls ⟦<Service as RoundTrip>⟧.fields };

    ghost holds = { record_holds ⟦<Service as RoundTrip>⟧.fields };

    fn serialize(&self, _alloc: Global, ser: &mut Serializer) -> Result<(), WriteError> {
        write_record!(ser, self, Service {
            name = "name",
            enabled = "enabled",
            priority = "priority",
            offset = "offset",
            level = "level",
            balance = "balance",
            retries = "retries",
            port = "port",
            backlog = "backlog",
            timeout = "timeout",
            ratio = "ratio",
            tags = "tags",
            color = "color",
            log = "log",
            note = "note",
            limits = "limits",
        })
    }
}

impl<'de> Returns<'de> for Service {
    ghost read_back = { record_back ⟦<Service as RoundTrip>⟧.fields (λ s. refl) };

    ghost returns = { ⟦<Service as Returns<'static>>⟧.read_back.returns };
}

impl<'de> Root<'de> for Service {
    fn from_text(alloc: Global, text: &str) -> Result<Service, Error> {
        from_str(alloc, text)
    }
}

impl Choice for Color {
    ghost use Rattle.toml_callers.specs.declared.types.Color.TheVariants.{Red, Green, Blue};

    ghost variants = { record {
      names = codes "red" ∷ codes "green" ∷ codes "blue" ∷ [];
      position = elim [ Red ↦ 0 | Green ↦ 1 | Blue ↦ 2 ];
      apart = elim [ Red ↦ refl | Green ↦ refl | Blue ↦ refl ];
    } };
}

impl<'de> Deserialize<'de> for Color {
    ghost reads = { variant_reads ⟦<Color as Choice>⟧.variants };

    ghost faults = { variant_faults ⟦<Color as Choice>⟧.variants };

    fn deserialize(alloc: Global, node: Node<'_, 'de>) -> Result<Color, Error> {
        match variant(alloc, node, &["red", "green", "blue"])? {
            0 => Ok(Color::Red),
            1 => Ok(Color::Green),
            _ => Ok(Color::Blue),
        }
    }

    fn from_tree(alloc: Global, tree: Tree<'de>) -> Result<Color, Error> {
        Color::deserialize(alloc, tree.root())
    }
}

impl Serialize for Color {
    ghost calls = { variant_calls ⟦<Color as Choice>⟧.variants };

    fn serialize(&self, _alloc: Global, ser: &mut Serializer) -> Result<(), WriteError> {
        match self {
            Color::Red => write_variant(ser, self, "red"),
            Color::Green => write_variant(ser, self, "green"),
            Color::Blue => write_variant(ser, self, "blue"),
        }
    }
}

impl<'de> Returns<'de> for Color {
    ghost read_back = { variant_back ⟦<Color as Choice>⟧.variants };

    ghost returns = { ⟦<Color as Returns<'static>>⟧.read_back.returns };
}
