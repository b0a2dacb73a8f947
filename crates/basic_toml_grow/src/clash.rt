//! Why a section is not entered, and the error that names it.

ghost use Rattle.std.specs.Prelude.{◌≡◌, IfOk, map, string_bytes};
ghost use Rattle.std.specs.List.{join_with_byte};
ghost use Rattle.basic_toml_tokens.specs.Ascii.{period};
ghost use Rattle.basic_toml_grammar.specs.NamedClash.{nth_key};
ghost use Rattle.basic_toml_grammar.specs.Stops.{at_header, at_row, stop_fault};
ghost use Rattle.basic_toml_read.specs.SectionView.{section_of, key_of, header_texts};
ghost use Rattle.basic_toml_grow.specs.Clash.{IsFaultOf, IsStop, NamesClash};

use basic_toml_read::{Key, ReadError, ReadErrorKind, Section};
use std::alloc::{AllocError, Global};

/// Why a section is not entered.
#[derive(Drop)]
pub enum Clash {
    /// Memory is refused.
    Memory,
    /// The tree gets too deep.
    Deep,
    /// A key of the header is the last of an earlier row, or lies within one. It and so many keys after it are left.
    Header(usize),
    /// The table of the header has been named.
    Named,
    /// The header is that of an array of tables, where a header passes through a table.
    Redefined,
    /// A key of a row, which stands before it.
    Row(Box<Repeated>),
}

/// A key that stands before it, with its offset, and the keys of its section that lead to it.
#[derive(Drop)]
pub struct Repeated {
    pub path: Vec<String>,
    pub key: String,
    pub offset: usize,
}

impl Clash {
    /// The clash of a key of a row, with these keys of its section before it.
    pub fn row(
        alloc: Global,
        path: Vec<String>,
        key: &str,
        offset: usize,
    ) -> Result<Clash, AllocError>
        ensures { IfOk result (λ clash. IsStop clash (at_row (map string_bytes path.items) (record {
          offset = offset;
          text = key.now;
        }))) }
    {
        let key = String::from_str(alloc, key)?;
        Ok(Clash::Row(Box::new(alloc, Repeated { path, key, offset })?))
    }
}

impl From<AllocError> for Clash {
    ghost use Rattle.std.specs.Prelude.{◌≡◌};
    ghost use Rattle.basic_toml_grow.specs.declared.clash.Clash.TheVariants.{Memory};

    ghost from_gives = { λ _ clash. clash ≡ Memory };

    fn from(_error: AllocError) -> Clash {
        Clash::Memory
    }
}

/// Copies of the texts of keys.
pub fn key_texts(alloc: Global, keys: &[Key<'_>]) -> Result<Vec<String>, AllocError>
    ensures { IfOk result (λ texts. map string_bytes texts.items ≡ header_texts keys.now) }
{
    let mut texts = Vec::new(alloc);
    for key in keys {
        texts.push(String::from_str(alloc, key.text.as_str())?)?;
    }
    Ok(texts)
}

// Keys, joined by periods.
fn join_keys(alloc: Global, keys: &[Key<'_>]) -> Result<String, AllocError>
    ensures { IfOk result (λ name. string_bytes name ≡ join_with_byte period (header_texts keys.now)) }
{
    let mut name = String::new(alloc);
    for at in 0..keys.len() {
        if at > 0 {
            name.push('.')?;
        }
        name.push_str(keys[at].text.as_str())?;
    }
    Ok(name)
}

// The key at a number, its text copied. Past the end it is empty, at 0.
fn key_copy(alloc: Global, keys: &[Key<'_>], number: usize) -> Result<(String, usize), AllocError>
    ensures { IfOk result (λ copy. nth_key number (map key_of keys.now)
        ≡ record { offset = copy.1; text = string_bytes copy.0 }) }
{
    match keys.get(number) {
        Some(key) => Ok((String::from_str(alloc, key.text.as_str())?, key.offset)),
        None => Ok((String::new(alloc), 0)),
    }
}

// The error of a key of a header that stands before it, with so many keys left from that key on.
fn header_key(alloc: Global, section: &Section<'_>, left: usize) -> Result<ReadError, AllocError>
    ensures { IfOk result (λ error. error ≡ stop_fault (section_of section.now) (at_header left)) }
{
    let keys = section.header.as_slice();
    let number = keys.len().saturating_sub(left);
    let (key, offset) = key_copy(alloc, keys, number)?;
    let path = key_texts(alloc, &keys[..number])?;
    Ok(ReadError::within(offset, ReadErrorKind::DuplicateKey(key), path))
}

impl Clash {
    // The error of a section's clash, if its keys can be copied.
    fn to_error(self, alloc: Global, section: &Section<'_>) -> Result<ReadError, AllocError>
        ensures { IfOk result (IsFaultOf section.now self) }
    {
        let at = section.at;
        let keys = section.header.as_slice();
        match self {
            Clash::Memory => Err(AllocError),
            Clash::Deep => Ok(ReadError::at(at, ReadErrorKind::NestedTooDeeply)),
            Clash::Header(left) => header_key(alloc, section, left),
            Clash::Named => {
                let name = join_keys(alloc, keys)?;
                let path = key_texts(alloc, keys)?;
                Ok(ReadError::within(at, ReadErrorKind::DuplicateTable(name), path))
            }
            Clash::Redefined => {
                let path = key_texts(alloc, keys)?;
                Ok(ReadError::within(at, ReadErrorKind::RedefineAsArray, path))
            }
            Clash::Row(repeated) => {
                let Repeated { path, key, offset } = Box::into_inner(repeated);
                let mut path = path;
                let mut keys = key_texts(alloc, keys)?;
                keys.append(&mut path)?;
                Ok(ReadError::within(offset, ReadErrorKind::DuplicateKey(key), keys))
            }
        }
    }

    /// The error of a section's clash, or want of memory.
    pub fn error(self, alloc: Global, section: &Section<'_>) -> ReadError
        ensures { NamesClash section.now self result }
    {
        match self.to_error(alloc, section) {
            Ok(error) => error,
            Err(error) => ReadError::from(error),
        }
    }
}
