//! Lock files: packages with their versions, digests and what they need.
use crate::digest::Digest;
use crate::maker::Maker;
use crate::manifests::read;
use std::alloc::{AllocError, Global};
use std::io;

/// Reads lock files and writes them again; every eighth is a large one.
pub fn rounds(alloc: Global, maker: &mut Maker, many: u32, digest: &mut Digest) -> io::Result<()> {
    for number in 0..many {
        round(alloc, maker, number, digest)?;
    }
    Ok(())
}

fn round(alloc: Global, maker: &mut Maker, round: u32, digest: &mut Digest) -> io::Result<()> {
    let many = if round % 8 == 7 {
        6000
    } else {
        100 + 100 * u64::from(round % 8)
    };
    let text = lock(alloc, maker, many)?;
    let table = read(alloc, text.as_str())?;
    match basic_toml::to_string(alloc, &table) {
        Ok(written) => digest.text(written.as_str()),
        Err(_) => return Err(io::Error::from(io::ErrorKind::InvalidData)),
    }
    Ok(())
}

fn lock(alloc: Global, maker: &mut Maker, many: u64) -> Result<String, AllocError> {
    let mut text = String::new(alloc);
    text.push_str(
        "# This file is made by a program.\n# It is not meant to be changed by hand.\nversion = 3\n",
    )?;
    for _ in 0..many {
        text.push_str("\n[[package]]\nname = \"")?;
        maker.push_words(&mut text, 2, "-")?;
        text.push_str("\"\nversion = \"")?;
        maker.push_version(&mut text)?;
        text.push_str(
            "\"\nsource = \"registry+https://example.org/registry/index\"\nchecksum = \"",
        )?;
        maker.push_digits(&mut text, 8)?;
        text.push_str("\"\n")?;
        let needs = maker.between(0, 6);
        if needs > 0 {
            text.push_str("dependencies = [\n")?;
            for _ in 0..needs {
                text.push_str(" \"")?;
                text.push_str(maker.word())?;
                if maker.one_of(4) {
                    text.push(' ')?;
                    maker.push_version(&mut text)?;
                }
                text.push_str("\",\n")?;
            }
            text.push_str("]\n")?;
        }
    }
    Ok(text)
}
