//! Types as a caller writes them: records, records in records, lists, choices, newtypes and records that refuse, strict
//! records and records that borrow. Each says which errors it has. Two take a short proof file for that: the record that
//! refuses a field itself, and the text that is not empty. A record of sixteen fields and a choice have their impls in
//! `returned.rt`.
ghost use Rattle.std.specs.Prelude.{◌≡◌, ◌≢◌, ◌≤◌, ◌<◌, ◌∷◌, [], ◌⊎◌, codes, pos, string_bytes};
ghost use Rattle.basic_toml.specs.Data.{integer, string};
ghost use Rattle.basic_toml.specs.Fault.{custom};
ghost use Rattle.basic_toml.specs.FieldFaults.{at_field, field_then, in_field, in_optional, only_these, variant_fails};
ghost use Rattle.basic_toml.specs.FieldKeys.{key_of};
ghost use Rattle.basic_toml.specs.NodeFaults.{fault_at, length_message};
ghost use Rattle.basic_toml.specs.Nodes.{node_data};
ghost use Rattle.basic_toml.specs.TypeAnswers.{no_fault};
ghost use Rattle.basic_toml.specs.TypeFaults.{array_faults, wrong_value};
ghost use Rattle.basic_toml.specs.TypeReads.{HasOnly, IsVariant, array_reads, field_reads, optional_reads};

use basic_toml::{
    Deserialize, Error, Float, Node, Tree, Value, only_fields, read_elements, read_field,
    read_optional, variant,
};
use std::alloc::Global;
use std::borrow::CowStr;
use std::collections::BTreeMap;

/// A record of a text and a list of records.
#[derive(Drop)]
pub struct Parent<T> {
    pub p_a: String,
    pub p_b: Vec<T>,
}

impl<'de, T: Deserialize<'de> + Drop> Deserialize<'de> for Parent<T> {
    ghost reads = { λ d p.
        field_reads ⟦<String as Deserialize<'static>>⟧.reads (key_of "p_a") d p.p_a
        × field_reads (array_reads T.reads) (key_of "p_b") d p.p_b };

    ghost faults = { in_field ⟦<String as Deserialize<'static>>⟧.faults ⟦<String as Deserialize<'static>>⟧.reads (codes "p_a")
        (in_field (array_faults T.faults T.reads) (array_reads T.reads) (codes "p_b")
        no_fault) };

    fn deserialize(alloc: Global, node: Node<'_, 'de>) -> Result<Parent<T>, Error> {
        Ok(Parent {
            p_a: read_field(alloc, node, "p_a")?,
            p_b: read_field(alloc, node, "p_b")?,
        })
    }

    fn from_tree(alloc: Global, tree: Tree<'de>) -> Result<Parent<T>, Error> {
        Self::deserialize(alloc, tree.root())
    }
}

/// A record of one field, of any type.
#[derive(Drop)]
pub struct Sole<T> {
    pub value: T,
}

impl<'de, T: Deserialize<'de>> Deserialize<'de> for Sole<T> {
    ghost reads = { λ d s. field_reads T.reads (key_of "value") d s.value };

    ghost faults = { in_field T.faults T.reads (codes "value") no_fault };

    fn deserialize(alloc: Global, node: Node<'_, 'de>) -> Result<Sole<T>, Error> {
        Ok(Sole {
            value: read_field(alloc, node, "value")?,
        })
    }

    fn from_tree(alloc: Global, tree: Tree<'de>) -> Result<Sole<T>, Error> {
        Self::deserialize(alloc, tree.root())
    }
}

/// A record that passes over what it does not know.
#[derive(Drop)]
pub struct Child {
    pub c_a: String,
    pub c_b: String,
}

impl<'de> Deserialize<'de> for Child {
    ghost reads = { λ d c.
        field_reads ⟦<String as Deserialize<'static>>⟧.reads (key_of "c_a") d c.c_a
        × field_reads ⟦<String as Deserialize<'static>>⟧.reads (key_of "c_b") d c.c_b };

    ghost faults = { in_field ⟦<String as Deserialize<'static>>⟧.faults ⟦<String as Deserialize<'static>>⟧.reads (codes "c_a")
        (in_field ⟦<String as Deserialize<'static>>⟧.faults ⟦<String as Deserialize<'static>>⟧.reads (codes "c_b")
        no_fault) };

    fn deserialize(alloc: Global, node: Node<'_, 'de>) -> Result<Child, Error> {
        Ok(Child {
            c_a: read_field(alloc, node, "c_a")?,
            c_b: read_field(alloc, node, "c_b")?,
        })
    }

    fn from_tree(alloc: Global, tree: Tree<'de>) -> Result<Child, Error> {
        Child::deserialize(alloc, tree.root())
    }
}

/// A record that refuses what it does not know.
#[derive(Drop)]
pub struct Strict {
    pub c_a: String,
    pub c_b: String,
}

impl<'de> Deserialize<'de> for Strict {
    ghost reads = { λ d c.
        HasOnly (key_of "c_a" ∷ key_of "c_b" ∷ []) d
        × field_reads ⟦<String as Deserialize<'static>>⟧.reads (key_of "c_a") d c.c_a
        × field_reads ⟦<String as Deserialize<'static>>⟧.reads (key_of "c_b") d c.c_b };

    ghost faults = { only_these (codes "c_a" ∷ codes "c_b" ∷ [])
        (in_field ⟦<String as Deserialize<'static>>⟧.faults ⟦<String as Deserialize<'static>>⟧.reads (codes "c_a")
        (in_field ⟦<String as Deserialize<'static>>⟧.faults ⟦<String as Deserialize<'static>>⟧.reads (codes "c_b")
        no_fault)) };

    fn deserialize(alloc: Global, node: Node<'_, 'de>) -> Result<Strict, Error> {
        only_fields(alloc, node, &["c_a", "c_b"])?;
        Ok(Strict {
            c_a: read_field(alloc, node, "c_a")?,
            c_b: read_field(alloc, node, "c_b")?,
        })
    }

    fn from_tree(alloc: Global, tree: Tree<'de>) -> Result<Strict, Error> {
        Strict::deserialize(alloc, tree.root())
    }
}

/// A text that is no star.
#[derive(Drop)]
pub struct Lowercase(pub String);

impl<'de> Deserialize<'de> for Lowercase {
    ghost reads = { λ d w. ⟦<String as Deserialize<'static>>⟧.reads d w.0 × (string_bytes w.0 ≢ codes "*") };

    ghost faults = { λ node fault.
        ⟦<String as Deserialize<'static>>⟧.faults node fault
        ⊎ ((node_data node ≡ string (codes "*")) × (fault ≡ wrong_value (codes "all lowercase") node)) };

    fn deserialize(alloc: Global, node: Node<'_, 'de>) -> Result<Lowercase, Error> {
        let text = String::deserialize(alloc, node)?;
        if text.as_str() == "*" {
            return Err(Error::invalid_value(alloc, node, "all lowercase"));
        }
        Ok(Lowercase(text))
    }

    fn from_tree(alloc: Global, tree: Tree<'de>) -> Result<Lowercase, Error> {
        Lowercase::deserialize(alloc, tree.root())
    }
}

/// A record with a field that refuses.
#[derive(Drop)]
pub struct Lower {
    pub c_a: String,
    pub c_b: Lowercase,
}

impl<'de> Deserialize<'de> for Lower {
    ghost reads = { λ d c.
        field_reads ⟦<String as Deserialize<'static>>⟧.reads (key_of "c_a") d c.c_a
        × field_reads ⟦<Lowercase as Deserialize<'static>>⟧.reads (key_of "c_b") d c.c_b };

    ghost faults = { in_field ⟦<String as Deserialize<'static>>⟧.faults ⟦<String as Deserialize<'static>>⟧.reads (codes "c_a")
        (in_field ⟦<Lowercase as Deserialize<'static>>⟧.faults ⟦<Lowercase as Deserialize<'static>>⟧.reads (codes "c_b")
        no_fault) };

    fn deserialize(alloc: Global, node: Node<'_, 'de>) -> Result<Lower, Error> {
        Ok(Lower {
            c_a: read_field(alloc, node, "c_a")?,
            c_b: read_field(alloc, node, "c_b")?,
        })
    }

    fn from_tree(alloc: Global, tree: Tree<'de>) -> Result<Lower, Error> {
        Lower::deserialize(alloc, tree.root())
    }
}

/// A text that is not empty.
#[derive(Drop)]
pub struct NonEmpty(pub String);

impl<'de> Deserialize<'de> for NonEmpty {
    ghost reads = { λ d w. ⟦<String as Deserialize<'static>>⟧.reads d w.0 × (string_bytes w.0 ≢ []) };

    ghost faults = { λ node fault.
        ⟦<String as Deserialize<'static>>⟧.faults node fault
        ⊎ ((node_data node ≡ string []) × (fault ≡ fault_at node (custom (length_message 0 (codes "a non-empty string"))))) };

    fn deserialize(alloc: Global, node: Node<'_, 'de>) -> Result<NonEmpty, Error> {
        let text = String::deserialize(alloc, node)?;
        if text.is_empty() {
            return Err(Error::invalid_length(alloc, node, 0, "a non-empty string"));
        }
        Ok(NonEmpty(text))
    }

    fn from_tree(alloc: Global, tree: Tree<'de>) -> Result<NonEmpty, Error> {
        NonEmpty::deserialize(alloc, tree.root())
    }
}

/// A choice of three.
#[derive(Debug, Clone, Copy, PartialEq, Eq)]
pub enum Color {
    Red,
    Green,
    Blue,
}

/// A choice of one.
#[derive(Debug, Clone, Copy, PartialEq, Eq)]
pub enum Single {
    Variant,
}

impl<'de> Deserialize<'de> for Single {
    ghost reads = { λ d _. IsVariant (key_of "Variant" ∷ []) d 0 };

    ghost faults = { variant_fails (codes "Variant" ∷ []) };

    fn deserialize(alloc: Global, node: Node<'_, 'de>) -> Result<Single, Error> {
        variant(alloc, node, &["Variant"])?;
        Ok(Single::Variant)
    }

    fn from_tree(alloc: Global, tree: Tree<'de>) -> Result<Single, Error> {
        Single::deserialize(alloc, tree.root())
    }
}

/// A record that borrows its title from the text, where it can.
#[derive(Drop)]
pub struct Title<'de> {
    pub title: CowStr<'de>,
    pub rate: Option<Float>,
}

impl<'de> Deserialize<'de> for Title<'de> {
    ghost reads = { λ d t.
        field_reads ⟦<CowStr<'static> as Deserialize<'static>>⟧.reads (key_of "title") d t.title
        × optional_reads ⟦<Float as Deserialize<'static>>⟧.reads (key_of "rate") d t.rate };

    ghost faults = { in_field ⟦<CowStr<'static> as Deserialize<'static>>⟧.faults
        ⟦<CowStr<'static> as Deserialize<'static>>⟧.reads (codes "title")
        (in_optional ⟦<Float as Deserialize<'static>>⟧.faults ⟦<Float as Deserialize<'static>>⟧.reads (codes "rate")
        no_fault) };

    fn deserialize(alloc: Global, node: Node<'_, 'de>) -> Result<Title<'de>, Error> {
        Ok(Title {
            title: read_field(alloc, node, "title")?,
            rate: read_optional(alloc, node, "rate")?,
        })
    }

    fn from_tree(alloc: Global, tree: Tree<'de>) -> Result<Title<'de>, Error> {
        Self::deserialize(alloc, tree.root())
    }
}

/// A list in a type of its own.
#[derive(Drop)]
pub struct Steps(pub Vec<u8>);

impl<'de> Deserialize<'de> for Steps {
    ghost reads = { λ d s. array_reads ⟦<u8 as Deserialize<'static>>⟧.reads d s.0 };

    ghost faults = { array_faults ⟦<u8 as Deserialize<'static>>⟧.faults ⟦<u8 as Deserialize<'static>>⟧.reads };

    fn deserialize(alloc: Global, node: Node<'_, 'de>) -> Result<Steps, Error> {
        Ok(Steps(read_elements(alloc, node)?))
    }

    fn from_tree(alloc: Global, tree: Tree<'de>) -> Result<Steps, Error> {
        Steps::deserialize(alloc, tree.root())
    }
}

/// A record of sixteen fields, with a field of nearly each type.
#[derive(Drop)]
pub struct Service {
    pub name: String,
    pub enabled: bool,
    pub priority: i8,
    pub offset: i16,
    pub level: i32,
    pub balance: i64,
    pub retries: u8,
    pub port: u16,
    pub backlog: u32,
    pub timeout: u64,
    pub ratio: Float,
    pub tags: Vec<String>,
    pub limits: BTreeMap<String, u32>,
    pub color: Color,
    pub log: Option<String>,
    pub note: Option<Value>,
}

/// A record that tests a field itself: its error stands at that field.
#[derive(Drop)]
pub struct Listener {
    pub host: String,
    pub port: u16,
}

impl<'de> Deserialize<'de> for Listener {
    ghost reads = { λ d l.
        field_reads ⟦<String as Deserialize<'static>>⟧.reads (key_of "host") d l.host
        × field_reads ⟦<u16 as Deserialize<'static>>⟧.reads (key_of "port") d l.port
        × (l.port ≢ 0) };

    ghost faults = { field_then ⟦<String as Deserialize<'static>>⟧.faults ⟦<String as Deserialize<'static>>⟧.reads (codes "host")
        (field_then ⟦<u16 as Deserialize<'static>>⟧.faults ⟦<u16 as Deserialize<'static>>⟧.reads (codes "port")
        (at_field (codes "port") (λ field fault.
        (node_data field ≡ integer (pos 0)) × (fault ≡ wrong_value (codes "a port above 0") field)))) };

    #[tactic(auto, using(basic_toml_typed::proofs::RecordsFail::in_turn), unfolding(basic_toml_typed::specs::TypeReads::field_reads))]
    fn deserialize(alloc: Global, node: Node<'_, 'de>) -> Result<Listener, Error> {
        let host = read_field(alloc, node, "host")?;
        let port = read_field(alloc, node, "port")?;
        if port == 0 {
            let field = node.get("port").unwrap_or(node);
            return Err(Error::invalid_value(alloc, field, "a port above 0"));
        }
        Ok(Listener { host, port })
    }

    fn from_tree(alloc: Global, tree: Tree<'de>) -> Result<Listener, Error> {
        Listener::deserialize(alloc, tree.root())
    }
}

/// A record that tests its fields against one another: its error stands at the record.
#[derive(Drop)]
pub struct Interval {
    pub first: u32,
    pub last: u32,
}

impl<'de> Deserialize<'de> for Interval {
    ghost reads = { λ d i.
        field_reads ⟦<u32 as Deserialize<'static>>⟧.reads (key_of "first") d i.first
        × field_reads ⟦<u32 as Deserialize<'static>>⟧.reads (key_of "last") d i.last
        × (i.first ≤ i.last) };

    ghost faults = { in_field ⟦<u32 as Deserialize<'static>>⟧.faults ⟦<u32 as Deserialize<'static>>⟧.reads (codes "first")
        (in_field ⟦<u32 as Deserialize<'static>>⟧.faults ⟦<u32 as Deserialize<'static>>⟧.reads (codes "last")
        (λ node fault. (first : _) × (last : _)
        × field_reads ⟦<u32 as Deserialize<'static>>⟧.reads (key_of "first") (node_data node) first
        × field_reads ⟦<u32 as Deserialize<'static>>⟧.reads (key_of "last") (node_data node) last × (last < first)
        × (fault ≡ fault_at node (custom (codes "the last is before the first"))))) };

    #[tactic(auto, unfolding(basic_toml_typed::specs::TypeReads::field_reads))]
    fn deserialize(alloc: Global, node: Node<'_, 'de>) -> Result<Interval, Error> {
        let first = read_field(alloc, node, "first")?;
        let last = read_field(alloc, node, "last")?;
        if last < first {
            return Err(Error::custom(alloc, node, "the last is before the first"));
        }
        Ok(Interval { first, last })
    }

    fn from_tree(alloc: Global, tree: Tree<'de>) -> Result<Interval, Error> {
        Interval::deserialize(alloc, tree.root())
    }
}
