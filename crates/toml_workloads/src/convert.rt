//! A text becomes JSON, and that becomes TOML again.
use crate::digest::Digest;
use crate::maker::Maker;
use crate::manifests::{Parts, manifest, read};
use crate::records::records;
use basic_toml::{into_rows_first, to_string};
use json::{MAX_DEPTH, Reader, Scratch, Value as Json};
use std::alloc::Global;
use std::io;
use toml_from_json::table_of;
use toml_json_text::{Form, json_of};

/// Converts as many manifests, and as many texts of records.
pub fn rounds(alloc: Global, maker: &mut Maker, many: u32, digest: &mut Digest) -> io::Result<()> {
    let parts = Parts::new(alloc, maker)?;
    for _ in 0..many {
        let text = manifest(alloc, maker, &parts, 3)?;
        there_and_back(alloc, text.as_str(), digest)?;
        let text = records(alloc, maker, 50)?;
        there_and_back(alloc, text.as_str(), digest)?;
    }
    Ok(())
}

fn there_and_back(alloc: Global, text: &str, digest: &mut Digest) -> io::Result<()> {
    let table = read(alloc, text)?;
    let json = json_of(alloc, Form::Plain, &table)?;
    digest.text(json.as_str());
    let mut scratch = Scratch::new(alloc);
    let mut reader = Reader::new(json.as_str(), &mut scratch)?;
    let Ok(value) = Json::read(alloc, &mut reader, MAX_DEPTH) else {
        return Err(io::Error::from(io::ErrorKind::InvalidData));
    };
    let Ok(table) = table_of(alloc, Form::Plain, &value) else {
        return Err(io::Error::from(io::ErrorKind::InvalidData));
    };
    match to_string(alloc, &into_rows_first(alloc, table)?) {
        Ok(written) => digest.text(written.as_str()),
        Err(_) => return Err(io::Error::from(io::ErrorKind::InvalidData)),
    }
    Ok(())
}
