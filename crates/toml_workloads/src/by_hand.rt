//! Records of seven fields, read and written by hand.
ghost use Rattle.std.specs.Prelude.{codes};
ghost use Rattle.basic_toml.specs.FieldFaults.{in_field, in_optional};
ghost use Rattle.basic_toml.specs.FieldKeys.{key_of};
ghost use Rattle.basic_toml.specs.Parts.{a_record, a_field, the_end};
ghost use Rattle.basic_toml.specs.TypeAnswers.{no_fault};
ghost use Rattle.basic_toml.specs.TypeReads.{field_reads, optional_reads};

use basic_toml::{
    Deserialize, Error, Node, Serialize, Serializer, Tree, WriteError, read_field, read_optional,
};
use std::alloc::Global;

#[derive(Drop)]
pub struct HandDocument {
    pub rec: Vec<HandRecord>,
}

#[derive(Drop)]
pub struct HandRecord {
    pub id: u32,
    pub name: String,
    pub on: bool,
    pub size: i64,
    pub note: Option<String>,
    pub limit: Option<u64>,
    pub tags: Vec<String>,
}

impl<'de> Deserialize<'de> for HandDocument {
    ghost reads = { λ d r. field_reads ⟦<Vec<HandRecord> as Deserialize<'static>>⟧.reads (key_of "rec") d r.rec };

    ghost faults = { in_field ⟦<Vec<HandRecord> as Deserialize<'static>>⟧.faults
        ⟦<Vec<HandRecord> as Deserialize<'static>>⟧.reads (codes "rec") no_fault };

    fn deserialize(alloc: Global, node: Node<'_, 'de>) -> Result<HandDocument, Error> {
        Ok(HandDocument {
            rec: read_field(alloc, node, "rec")?,
        })
    }

    fn from_tree(alloc: Global, tree: Tree<'de>) -> Result<HandDocument, Error> {
        HandDocument::deserialize(alloc, tree.root())
    }
}

impl<'de> Deserialize<'de> for HandRecord {
    ghost reads = { λ d r.
        field_reads ⟦<u32 as Deserialize<'static>>⟧.reads (key_of "id") d r.id
        × field_reads ⟦<String as Deserialize<'static>>⟧.reads (key_of "name") d r.name
        × field_reads ⟦<bool as Deserialize<'static>>⟧.reads (key_of "on") d r.on
        × field_reads ⟦<i64 as Deserialize<'static>>⟧.reads (key_of "size") d r.size
        × optional_reads ⟦<String as Deserialize<'static>>⟧.reads (key_of "note") d r.note
        × optional_reads ⟦<u64 as Deserialize<'static>>⟧.reads (key_of "limit") d r.limit
        × field_reads ⟦<Vec<String> as Deserialize<'static>>⟧.reads (key_of "tags") d r.tags };

    ghost faults = { in_field ⟦<u32 as Deserialize<'static>>⟧.faults ⟦<u32 as Deserialize<'static>>⟧.reads (codes "id")
        (in_field ⟦<String as Deserialize<'static>>⟧.faults ⟦<String as Deserialize<'static>>⟧.reads (codes "name")
        (in_field ⟦<bool as Deserialize<'static>>⟧.faults ⟦<bool as Deserialize<'static>>⟧.reads (codes "on")
        (in_field ⟦<i64 as Deserialize<'static>>⟧.faults ⟦<i64 as Deserialize<'static>>⟧.reads (codes "size")
        (in_optional ⟦<String as Deserialize<'static>>⟧.faults ⟦<String as Deserialize<'static>>⟧.reads (codes "note")
        (in_optional ⟦<u64 as Deserialize<'static>>⟧.faults ⟦<u64 as Deserialize<'static>>⟧.reads (codes "limit")
        (in_field ⟦<Vec<String> as Deserialize<'static>>⟧.faults ⟦<Vec<String> as Deserialize<'static>>⟧.reads
        (codes "tags") no_fault)))))) };

    fn deserialize(alloc: Global, node: Node<'_, 'de>) -> Result<HandRecord, Error> {
        Ok(HandRecord {
            id: read_field(alloc, node, "id")?,
            name: read_field(alloc, node, "name")?,
            on: read_field(alloc, node, "on")?,
            size: read_field(alloc, node, "size")?,
            note: read_optional(alloc, node, "note")?,
            limit: read_optional(alloc, node, "limit")?,
            tags: read_field(alloc, node, "tags")?,
        })
    }

    fn from_tree(alloc: Global, tree: Tree<'de>) -> Result<HandRecord, Error> {
        HandRecord::deserialize(alloc, tree.root())
    }
}

impl Serialize for HandDocument {
    ghost calls = { λ r. a_record (a_field (codes "rec") (⟦<Vec<HandRecord> as Serialize>⟧.calls r.rec) the_end) };

    fn serialize(&self, _alloc: Global, ser: &mut Serializer) -> Result<(), WriteError> {
        ser.serialize_struct("Document", 1)?;
        ser.serialize_field("rec", &self.rec)?;
        ser.end()
    }
}

impl Serialize for HandRecord {
    ghost calls = { λ r. a_record
        (a_field (codes "id") (⟦<u32 as Serialize>⟧.calls r.id)
        (a_field (codes "name") (⟦<String as Serialize>⟧.calls r.name)
        (a_field (codes "on") (⟦<bool as Serialize>⟧.calls r.on)
        (a_field (codes "size") (⟦<i64 as Serialize>⟧.calls r.size)
        (a_field (codes "note") (⟦<Option<String> as Serialize>⟧.calls r.note)
        (a_field (codes "limit") (⟦<Option<u64> as Serialize>⟧.calls r.limit)
        (a_field (codes "tags") (⟦<Vec<String> as Serialize>⟧.calls r.tags) the_end))))))) };

    fn serialize(&self, _alloc: Global, ser: &mut Serializer) -> Result<(), WriteError> {
        ser.serialize_struct("Record", 7)?;
        ser.serialize_field("id", &self.id)?;
        ser.serialize_field("name", &self.name)?;
        ser.serialize_field("on", &self.on)?;
        ser.serialize_field("size", &self.size)?;
        ser.serialize_field("note", &self.note)?;
        ser.serialize_field("limit", &self.limit)?;
        ser.serialize_field("tags", &self.tags)?;
        ser.end()
    }
}
