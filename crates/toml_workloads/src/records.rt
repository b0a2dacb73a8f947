//! Generated records, read and written, derived and by hand.
use crate::by_hand::HandDocument;
use crate::derived::Document;
use crate::digest::Digest;
use crate::maker::Maker;
use std::alloc::{AllocError, Global};
use std::io;

/// Reads and writes texts of as many records of a derived type, and as many others by hand.
pub fn rounds(
    alloc: Global,
    maker: &mut Maker,
    many: u32,
    length: u64,
    digest: &mut Digest,
) -> io::Result<()> {
    for _ in 0..many {
        round_derived(alloc, records(alloc, maker, length)?.as_str(), digest)?;
        round_by_hand(alloc, records(alloc, maker, length)?.as_str(), digest)?;
    }
    Ok(())
}

fn round_derived(alloc: Global, text: &str, digest: &mut Digest) -> io::Result<()> {
    match basic_toml_serde::from_str::<Document>(alloc, text) {
        Ok(document) => match basic_toml_serde::to_string(alloc, &document) {
            Ok(written) => digest.text(written.as_str()),
            Err(_) => return Err(io::Error::from(io::ErrorKind::InvalidData)),
        },
        Err(_) => return Err(io::Error::from(io::ErrorKind::InvalidData)),
    }
    Ok(())
}

fn round_by_hand(alloc: Global, text: &str, digest: &mut Digest) -> io::Result<()> {
    match basic_toml::from_str::<HandDocument>(alloc, text) {
        Ok(document) => match basic_toml::to_string(alloc, &document) {
            Ok(written) => digest.text(written.as_str()),
            Err(_) => return Err(io::Error::from(io::ErrorKind::InvalidData)),
        },
        Err(_) => return Err(io::Error::from(io::ErrorKind::InvalidData)),
    }
    Ok(())
}

/// An array of tables of five to seven rows.
pub fn records(alloc: Global, maker: &mut Maker, many: u64) -> Result<String, AllocError> {
    let mut text = String::new(alloc);
    for _ in 0..many {
        text.push_str("[[rec]]\nid = ")?;
        maker.push_number(&mut text, 4_294_967_296)?;
        text.push_str("\nname = \"")?;
        maker.push_words(&mut text, 2, "_")?;
        text.push_str(if maker.one_of(2) {
            "\"\non = true\nsize = "
        } else {
            "\"\non = false\nsize = -"
        })?;
        maker.push_number(&mut text, 1_000_000_000)?;
        if maker.one_of(2) {
            text.push_str("\nnote = \"")?;
            maker.push_words(&mut text, 4, " ")?;
            text.push('"')?;
        }
        if maker.one_of(3) {
            text.push_str("\nlimit = ")?;
            maker.push_number(&mut text, 100_000)?;
        }
        let tags = maker.between(0, 4);
        text.push_str("\ntags = [")?;
        for i in 0..tags {
            text.push_str(if i > 0 { ", \"" } else { "\"" })?;
            text.push_str(maker.word())?;
            text.push('"')?;
        }
        text.push_str("]\n\n")?;
    }
    Ok(text)
}
