//! The names that a type takes as keys or as variants, kept for an error.
ghost use Rattle.std.specs.Prelude.{◌≡◌, ◌∷◌, ◌++◌, [], length, map, position, string_bytes, IfOk, MatchOption};
ghost use Rattle.std.specs.Str.{bytes_eq};
ghost use Rattle.basic_toml_serde.specs.Spellings.{pairs_of, pairs_of_name, kept_in, keys_in, key_among};

use serde::Name;
use std::alloc::{AllocError, Global};

/// A name as its type has it, and as the text has to have it.
#[derive(Drop)]
struct Spelling {
    name: String,
    key: String,
}

/// Names in the order of their type.
#[derive(Drop)]
pub(crate) struct Names {
    spellings: Vec<Spelling>,
}

impl Names {
    pub(crate) fn new(alloc: Global) -> Names
        ensures { kept_in result ≡ [] }
    {
        Names {
            spellings: Vec::new(alloc),
        }
    }

    /// The names that stand for something, each with its aliases behind it.
    #[tactic(auto, using(crate::proofs::NamesKept::kept_more, crate::proofs::NamesKept::skipped_more))]
    pub(crate) fn of(alloc: Global, names: &[Name<'_>]) -> Result<Names, AllocError>
        ensures { IfOk result (λ kept. kept_in kept ≡ pairs_of names.now) }
    {
        let mut kept = Names::new(alloc);
        for name in names {
            if !name.skipped {
                kept.add(alloc, name)?;
            }
        }
        Ok(kept)
    }

    /// Adds a name and its aliases.
    fn add(&mut self, alloc: Global, name: &Name<'_>) -> Result<(), AllocError>
        ensures { IfOk result (λ _. kept_in self.new ≡ kept_in self.old ++ pairs_of_name name.now) }
    {
        let mut key = String::new(alloc);
        name.case.append(name.kind, name.name, &mut key)?;
        self.spellings.push(Spelling {
            name: String::from_str(alloc, name.name)?,
            key,
        })?;
        for alias in name.aliases {
            self.spellings.push(Spelling {
                name: String::new(alloc),
                key: String::from_str(alloc, alias)?,
            })?;
        }
        Ok(())
    }

    /// What the text has to have.
    pub(crate) fn keys(&self, alloc: Global) -> Result<Vec<&str>, AllocError>
        ensures { IfOk result (λ keys. map (λ k. k.now) keys.items ≡ keys_in self.now) }
    {
        let mut keys = Vec::new(alloc);
        for spelling in &self.spellings {
            keys.push(spelling.key.as_str())?;
        }
        Ok(keys)
    }

    /// The key of a name, or the name where it is not among these.
    pub(crate) fn key_of<'a>(&'a self, name: &'a str) -> &'a str
        ensures { result.now ≡ key_among name.now self.now }
    {
        match self.position(name) {
            Some(at) => match self.spellings.get(at) {
                Some(spelling) => spelling.key.as_str(),
                None => name,
            },
            None => name,
        }
    }

    /// Where a name stands first.
    fn position(&self, name: &str) -> Option<usize>
        ensures { result ≡ position (λ s. bytes_eq (string_bytes s.name) name.now) self.now.spellings.items }
    {
        self.spellings
            .iter()
            .position(|spelling| spelling.name.as_str() == name)
    }

    /// The key, where there is one alone.
    pub(crate) fn only_key(&self) -> Option<&str>
        ensures { MatchOption result (length (keys_in self.now) ≡ 1 → ⊥) (λ key. keys_in self.now ≡ key.now ∷ []) }
    {
        match self.spellings.as_slice() {
            [spelling] => Some(spelling.key.as_str()),
            _ => None,
        }
    }
}
