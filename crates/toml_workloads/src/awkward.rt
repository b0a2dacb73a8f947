//! Texts of shapes that are dear to read.
use crate::digest::{Digest, take_table};
use crate::maker::{Maker, push_decimal};
use crate::manifests::{push_rows, read};
use basic_toml::{Table, from_str};
use std::alloc::{AllocError, Global};
use std::io;

/// Reads as many texts of each shape.
pub fn rounds(alloc: Global, maker: &mut Maker, many: u32, digest: &mut Digest) -> io::Result<()> {
    for _ in 0..many {
        round(alloc, maker, digest)?;
    }
    Ok(())
}

fn round(alloc: Global, maker: &mut Maker, digest: &mut Digest) -> io::Result<()> {
    let text = interleaved(alloc, maker)?;
    take_table(digest, &read(alloc, text.as_str())?);
    let text = tables_below(alloc, maker)?;
    take_table(digest, &read(alloc, text.as_str())?);
    let text = out_of_order(alloc, maker)?;
    take_table(digest, &read(alloc, text.as_str())?);
    let text = arrays(alloc, maker)?;
    take_table(digest, &read(alloc, text.as_str())?);
    let text = dotted(alloc, maker)?;
    take_table(digest, &read(alloc, text.as_str())?);
    let text = escapes(alloc, maker)?;
    take_table(digest, &read(alloc, text.as_str())?);
    let mut text = tables_below(alloc, maker)?;
    text.push_str("last = 1a\n")?;
    refused(alloc, text.as_str(), digest)
}

// Reads a text that is refused, and takes in where.
fn refused(alloc: Global, text: &str, digest: &mut Digest) -> io::Result<()> {
    match from_str::<Table>(alloc, text) {
        Ok(_) => Err(io::Error::from(io::ErrorKind::InvalidData)),
        Err(error) => match error.line_col() {
            Some((line, column)) => {
                digest.number(line as u64);
                digest.number(column as u64);
                Ok(())
            }
            None => Err(io::Error::from(io::ErrorKind::InvalidData)),
        },
    }
}

// Headers of 60 tables by turns: the tables of each come at other places.
fn interleaved(alloc: Global, maker: &mut Maker) -> Result<String, AllocError> {
    let mut text = String::new(alloc);
    for turn in 0..20 {
        for number in 0..60 {
            text.push_str("[")?;
            text.push_str(Maker::word_at(number))?;
            text.push_str(".part")?;
            push_decimal(&mut text, turn)?;
            text.push_str("]\n")?;
            push_rows(maker, &mut text, 2)?;
        }
    }
    Ok(text)
}

// An array of tables, each with tables and an array of tables below it.
fn tables_below(alloc: Global, maker: &mut Maker) -> Result<String, AllocError> {
    let mut text = String::new(alloc);
    for _ in 0..200 {
        text.push_str("[[rule]]\n")?;
        push_rows(maker, &mut text, 2)?;
        text.push_str("[rule.where]\n")?;
        push_rows(maker, &mut text, 2)?;
        let parts = maker.between(1, 3);
        for _ in 0..parts {
            text.push_str("[[rule.part]]\n")?;
            push_rows(maker, &mut text, 1)?;
        }
    }
    Ok(text)
}

// Tables whose outer tables come later.
fn out_of_order(alloc: Global, maker: &mut Maker) -> Result<String, AllocError> {
    let mut text = String::new(alloc);
    for number in 0..400 {
        text.push_str("[a")?;
        push_decimal(&mut text, number)?;
        text.push_str(".b.c]\n")?;
        push_rows(maker, &mut text, 2)?;
    }
    for number in 0..400 {
        text.push_str("[a")?;
        push_decimal(&mut text, 399 - number)?;
        text.push_str("]\n")?;
        for _ in 0..1 {
            text.push_str("here = true\n")?;
        }
    }
    Ok(text)
}

// Arrays in arrays, up to a hundred deep.
fn arrays(alloc: Global, maker: &mut Maker) -> Result<String, AllocError> {
    let mut text = String::new(alloc);
    for number in 0..20 {
        text.push_str("deep")?;
        push_decimal(&mut text, number)?;
        text.push_str(" = ")?;
        let depth = maker.between(1, 100);
        for _ in 0..depth {
            text.push('[')?;
        }
        maker.push_number(&mut text, 1000)?;
        for _ in 0..depth {
            text.push(']')?;
        }
        text.push_str("\nmatrix")?;
        push_decimal(&mut text, number)?;
        text.push_str(" = [\n")?;
        for _ in 0..20 {
            text.push_str("  [")?;
            maker.push_number(&mut text, 1000)?;
            text.push_str(", ")?;
            maker.push_number(&mut text, 1000)?;
            text.push_str(", ")?;
            maker.push_number(&mut text, 1000)?;
            text.push_str("],\n")?;
        }
        text.push_str("]\n")?;
    }
    Ok(text)
}

// Dotted keys in many tables.
fn dotted(alloc: Global, maker: &mut Maker) -> Result<String, AllocError> {
    let mut text = String::new(alloc);
    for number in 0..400 {
        text.push_str("server")?;
        push_decimal(&mut text, number)?;
        text.push_str(".address.port = ")?;
        maker.push_number(&mut text, 65536)?;
        text.push_str("\nserver")?;
        push_decimal(&mut text, number)?;
        text.push_str(".name = \"")?;
        maker.push_words(&mut text, 2, "-")?;
        text.push_str("\"\n")?;
    }
    Ok(text)
}

// Long strings of escapes, and long comments.
fn escapes(alloc: Global, maker: &mut Maker) -> Result<String, AllocError> {
    let mut text = String::new(alloc);
    for number in 0..20 {
        text.push_str("# ")?;
        maker.push_words(&mut text, 60, " ")?;
        text.push_str("\ntext")?;
        push_decimal(&mut text, number)?;
        text.push_str(" = \"")?;
        maker.push_words(&mut text, 60, "\\n\\t\\u00e9")?;
        text.push_str("\"\nlong")?;
        push_decimal(&mut text, number)?;
        text.push_str(" = \"\"\"\n")?;
        maker.push_words(&mut text, 60, "\n")?;
        text.push_str("\"\"\"\n")?;
    }
    Ok(text)
}
