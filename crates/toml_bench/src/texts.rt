//! What is done with a TOML text.
use crate::Ended;
use basic_toml::tokens::Tokenizer;
use basic_toml::{Table, from_slice};
use std::alloc::Global;
use std::{io, str};

/// Reads a table and lets it go.
pub(crate) fn read(alloc: Global, input: &[u8]) -> io::Result<Ended> {
    match from_slice::<Table>(alloc, input) {
        Ok(_) => Ok(Ended::Well),
        Err(error) => Ok(Ended::Refused(format!(in alloc; "{error}")?)),
    }
}

/// Takes the tokens up to the end, or up to where none stands.
pub(crate) fn take_tokens(alloc: Global, input: &[u8]) -> io::Result<Ended> {
    let Ok(text) = str::from_utf8(input) else {
        return Err(io::Error::from(io::ErrorKind::InvalidData));
    };
    let mut tokens = Tokenizer::new(text);
    for _ in 0..u64::MAX {
        match tokens.next(alloc) {
            Ok(Some(_)) => {}
            Ok(None) => break,
            Err(_) => return Err(io::Error::from(io::ErrorKind::InvalidData)),
        }
    }
    Ok(Ended::Well)
}
