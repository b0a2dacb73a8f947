//! Small manifests and settings, each a file of its own.
use crate::derived::Manifest;
use crate::digest::{Digest, take_table};
use crate::maker::Maker;
use basic_toml::Table;
use std::alloc::{AllocError, Global};
use std::io;

/// Reads as many manifests as a table, as many others as a derived type, and as many settings as a table.
pub fn rounds(alloc: Global, maker: &mut Maker, many: u32, digest: &mut Digest) -> io::Result<()> {
    let parts = Parts::new(alloc, maker)?;
    for round in 0..many {
        let text = manifest(alloc, maker, &parts, u64::from(round % 4))?;
        take_table(digest, &read(alloc, text.as_str())?);
        let text = manifest(alloc, maker, &parts, u64::from(round % 3))?;
        match basic_toml_serde::from_str::<Manifest>(alloc, text.as_str()) {
            Ok(manifest) => manifest.take(digest),
            Err(_) => return Err(io::Error::from(io::ErrorKind::InvalidData)),
        }
        let text = settings(alloc, maker, &parts)?;
        take_table(digest, &read(alloc, text.as_str())?);
    }
    Ok(())
}

/// Rows that manifests and settings are put together from: each text has others of them, in another order.
#[derive(Drop)]
pub struct Parts {
    // A dependency each: the names of 64 that follow one another differ.
    dependencies: Vec<String>,
    // A feature each, likewise.
    features: Vec<String>,
    // The rows of a table each.
    tables: Vec<String>,
    // A comment each.
    comments: Vec<String>,
}

impl Parts {
    pub fn new(alloc: Global, maker: &mut Maker) -> Result<Parts, AllocError> {
        let mut parts = Parts {
            dependencies: Vec::new(alloc),
            features: Vec::new(alloc),
            tables: Vec::new(alloc),
            comments: Vec::new(alloc),
        };
        for number in 0..640 {
            parts.dependencies.push(dependency(alloc, maker, number)?)?;
            parts.features.push(feature(alloc, maker, number)?)?;
            let mut rows = String::new(alloc);
            let many = maker.between(1, 11);
            push_rows(maker, &mut rows, many)?;
            parts.tables.push(rows)?;
            let mut comment = String::new(alloc);
            comment.push_str("\n# ")?;
            maker.push_words(&mut comment, 9, " ")?;
            comment.push('\n')?;
            parts.comments.push(comment)?;
        }
        Ok(parts)
    }
}

// The part at a place, counted on from the first after the last.
fn part_at(parts: &[String], place: u64) -> &str {
    let number = (place % 640) as usize;
    match parts.get(number) {
        Some(part) => part.as_str(),
        None => "",
    }
}

// Appends as many parts as follow one another from any place on.
fn push_parts(
    maker: &mut Maker,
    text: &mut String,
    parts: &[String],
    many: u64,
) -> Result<(), AllocError> {
    let first = maker.number();
    for i in 0..many {
        text.push_str(part_at(parts, first.wrapping_add(i)))?;
    }
    Ok(())
}

/// The table of a text that has one.
pub fn read(alloc: Global, text: &str) -> io::Result<Table> {
    basic_toml::from_str::<Table>(alloc, text).map_err(|_| io::Error::from(
        io::ErrorKind::InvalidData,
    ))
}

/// A manifest of a package; the larger the size, the more it depends on.
pub fn manifest(
    alloc: Global,
    maker: &mut Maker,
    parts: &Parts,
    size: u64,
) -> Result<String, AllocError> {
    let mut text = String::with_capacity(alloc, 4096)?;
    push_package(maker, &mut text)?;
    if maker.one_of(3) {
        text.push_str("\n# What is needed for this part of the package.")?;
    }
    text.push_str("\n[dependencies]\n")?;
    push_parts(
        maker,
        &mut text,
        parts.dependencies.as_slice(),
        4 + 12 * (size % 4),
    )?;
    text.push_str("\n[dev-dependencies]\n")?;
    push_parts(
        maker,
        &mut text,
        parts.dependencies.as_slice(),
        2 + 2 * (size % 4),
    )?;
    text.push_str("\n[features]\ndefault = [\"std\"]\nstd = []\n")?;
    push_parts(
        maker,
        &mut text,
        parts.features.as_slice(),
        2 + 4 * (size % 4),
    )?;
    for _ in 0..size {
        text.push_str("\n[[bin]]\nname = \"")?;
        maker.push_words(&mut text, 2, "-")?;
        text.push_str("\"\npath = \"src/bin/")?;
        maker.push_words(&mut text, 2, "_")?;
        text.push_str(".rs\"\nrequired-features = [\"std\", \"unicode\"]\n")?;
    }
    push_sections(maker, &mut text, parts, 1 + 8 * (size % 4))?;
    text.push_str(
        "\n[profile.release]\nlto = true\ncodegen-units = 1\nopt-level = 3\npanic = \"abort\"\n",
    )?;
    Ok(text)
}

fn push_package(maker: &mut Maker, text: &mut String) -> Result<(), AllocError> {
    text.push_str("[package]\nname = \"")?;
    maker.push_words(text, 2, "-")?;
    text.push_str("\"\nversion = \"")?;
    maker.push_version(text)?;
    text.push_str("\"\nedition = \"2021\"\nauthors = [\"")?;
    maker.push_words(text, 2, " ")?;
    text.push_str(" <")?;
    maker.push_words(text, 2, "@")?;
    text.push_str(".org>\"]\ndescription = \"")?;
    let many = maker.between(4, 8);
    maker.push_words(text, many, " ")?;
    text.push_str(".\"\nlicense = \"MIT OR Apache-2.0\"\nrepository = \"https://example.org/")?;
    maker.push_words(text, 2, "/")?;
    text.push_str("\"\nkeywords = [\"")?;
    maker.push_words(text, 4, "\", \"")?;
    text.push_str("\"]\n")
}

fn dependency(alloc: Global, maker: &mut Maker, number: u64) -> Result<String, AllocError> {
    let mut text = String::new(alloc);
    text.push_str(Maker::word_at(number))?;
    if maker.one_of(2) {
        text.push('-')?;
        text.push_str(maker.word())?;
    }
    if maker.one_of(3) {
        text.push_str(" = { version = \"")?;
        maker.push_version(&mut text)?;
        text.push_str("\", features = [\"")?;
        maker.push_words(&mut text, 2, "\", \"")?;
        text.push_str("\"], default-features = false }\n")?;
    } else {
        text.push_str(" = \"")?;
        maker.push_version(&mut text)?;
        text.push_str("\"\n")?;
    }
    Ok(text)
}

fn feature(alloc: Global, maker: &mut Maker, number: u64) -> Result<String, AllocError> {
    let mut text = String::new(alloc);
    text.push_str(Maker::word_at(number))?;
    text.push_str("s = [\"")?;
    let words = maker.between(1, 4);
    maker.push_words(&mut text, words, "\", \"")?;
    text.push_str("\"]\n")?;
    Ok(text)
}

// Tables of tools, of a few rows each.
fn push_sections(
    maker: &mut Maker,
    text: &mut String,
    parts: &Parts,
    many: u64,
) -> Result<(), AllocError> {
    let first = maker.number();
    let start = maker.number();
    for i in 0..many {
        text.push_str("\n[package.metadata.")?;
        text.push_str(Maker::word_at(start.wrapping_add(i)))?;
        text.push_str("]\n")?;
        text.push_str(part_at(parts.tables.as_slice(), first.wrapping_add(i)))?;
    }
    Ok(())
}

/// Settings: few tables, with comments.
pub fn settings(alloc: Global, maker: &mut Maker, parts: &Parts) -> Result<String, AllocError> {
    let mut text = String::with_capacity(alloc, 4096)?;
    text.push_str("# Settings of a server; see the manual for what each of them does.\n")?;
    let many = maker.between(3, 10);
    let first = maker.number();
    let start = maker.number();
    for i in 0..many {
        text.push_str(part_at(parts.comments.as_slice(), first.wrapping_add(i)))?;
        text.push('[')?;
        text.push_str(Maker::word_at(start.wrapping_add(i)))?;
        text.push_str("]\n")?;
        text.push_str(part_at(
            parts.tables.as_slice(),
            first.wrapping_mul(3).wrapping_add(i),
        ))?;
    }
    Ok(text)
}

/// Appends rows of values of all kinds.
pub fn push_rows(maker: &mut Maker, text: &mut String, many: u64) -> Result<(), AllocError> {
    let start = maker.number();
    for i in 0..many {
        text.push_str(Maker::word_at(start.wrapping_add(i)))?;
        match maker.between(0, 8) {
            0 => text.push_str(" = true\n")?,
            1 => {
                text.push_str(" = ")?;
                maker.push_number(text, 100_000)?;
                text.push('\n')?;
            }
            2 => {
                text.push_str(" = ")?;
                maker.push_number(text, 1000)?;
                text.push('.')?;
                maker.push_number(text, 1000)?;
                text.push_str(" # seconds\n")?;
            }
            3 => {
                text.push_str(" = [")?;
                maker.push_number(text, 1000)?;
                text.push_str(", ")?;
                maker.push_number(text, 1000)?;
                text.push_str("]\n")?;
            }
            4 => {
                text.push_str(" = 'C:\\")?;
                maker.push_words(text, 3, "\\")?;
                text.push_str("'\n")?;
            }
            5 => {
                text.push_str(" = \"")?;
                maker.push_words(text, 2, "\\t")?;
                text.push_str("\\n\" # a comment behind the value\n")?;
            }
            _ => {
                text.push_str(" = \"")?;
                let words = maker.between(1, 8);
                maker.push_words(text, words, " ")?;
                text.push_str("\"\n")?;
            }
        }
    }
    Ok(())
}
