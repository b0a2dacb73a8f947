//! What is done with records of six fields, which are made of the lines of a text.
ghost use Rattle.std.specs.Prelude.{codes};
ghost use Rattle.basic_toml.specs.Parts.{a_record, a_field, the_end};

use crate::Ended;
use crate::tables::text_of;
use basic_toml::{Serialize, Serializer, WriteError, to_string};
use std::alloc::{AllocError, Global};
use std::io;

#[derive(Drop)]
struct Record {
    id: u32,
    name: String,
    on: bool,
    size: i64,
    note: Option<String>,
    tags: Vec<String>,
}

impl Serialize for Record {
    ghost calls = { λ r. a_record
        (a_field (codes "id") (⟦<u32 as Serialize>⟧.calls r.id)
        (a_field (codes "name") (⟦<String as Serialize>⟧.calls r.name)
        (a_field (codes "on") (⟦<bool as Serialize>⟧.calls r.on)
        (a_field (codes "size") (⟦<i64 as Serialize>⟧.calls r.size)
        (a_field (codes "note") (⟦<Option<String> as Serialize>⟧.calls r.note)
        (a_field (codes "tags") (⟦<Vec<String> as Serialize>⟧.calls r.tags) the_end)))))) };

    fn serialize(&self, _alloc: Global, ser: &mut Serializer) -> Result<(), WriteError> {
        ser.serialize_struct("Record", 6)?;
        ser.serialize_field("id", &self.id)?;
        ser.serialize_field("name", &self.name)?;
        ser.serialize_field("on", &self.on)?;
        ser.serialize_field("size", &self.size)?;
        ser.serialize_field("note", &self.note)?;
        ser.serialize_field("tags", &self.tags)?;
        ser.end()
    }
}

#[derive(Drop)]
struct Records {
    rec: Vec<Record>,
}

impl Serialize for Records {
    ghost calls = { λ r. a_record (a_field (codes "rec") (⟦<Vec<Record> as Serialize>⟧.calls r.rec) the_end) };

    fn serialize(&self, _alloc: Global, ser: &mut Serializer) -> Result<(), WriteError> {
        ser.serialize_struct("Records", 1)?;
        ser.serialize_field("rec", &self.rec)?;
        ser.end()
    }
}

/// Makes a record of each line.
pub(crate) fn make(alloc: Global, input: &[u8]) -> io::Result<Ended> {
    records_of(alloc, text_of(input)?)?;
    Ok(Ended::Well)
}

/// Makes a record of each line, and writes them by calls.
pub(crate) fn write(alloc: Global, input: &[u8]) -> io::Result<Ended> {
    match to_string(alloc, &records_of(alloc, text_of(input)?)?) {
        Ok(text) => Ok(Ended::Written(text)),
        Err(error) => Ok(Ended::Refused(format!(in alloc; "{error}")?)),
    }
}

fn records_of(alloc: Global, text: &str) -> Result<Records, AllocError> {
    let mut rec = Vec::new(alloc);
    let (mut id, mut size) = (0u32, 0i64);
    for line in text.lines() {
        id = id.wrapping_add(2_654_435_761);
        size = size.wrapping_add(100_000_007);
        rec.push(record_of(alloc, line, id, size)?)?;
    }
    Ok(Records { rec })
}

// A record: the name is the line up to its 12th byte, the note, which every other record has, the whole line, and each
// of at most two tags the line up to its 5th byte.
fn record_of(alloc: Global, line: &str, id: u32, size: i64) -> Result<Record, AllocError> {
    let mut tags = Vec::new(alloc);
    for _ in 0..id % 3 {
        tags.push(start_of(alloc, line, 5)?)?;
    }
    let note = if id % 4 < 2 {
        Some(String::from_str(alloc, line)?)
    } else {
        None
    };
    Ok(Record {
        id,
        name: start_of(alloc, line, 12)?,
        on: id % 2 == 0,
        size,
        note,
        tags,
    })
}

fn start_of(alloc: Global, line: &str, len: usize) -> Result<String, AllocError> {
    String::from_str(alloc, line.get(..len).unwrap_or(line))
}
