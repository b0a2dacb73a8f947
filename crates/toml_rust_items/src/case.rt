//! The cases of serde's `rename_all`.

use std::alloc::{AllocError, Global};

/// A case of names.
#[derive(Clone, Copy)]
pub enum Case {
    Lower,
    Upper,
    Pascal,
    Camel,
    Snake,
    ScreamingSnake,
    Kebab,
    ScreamingKebab,
}

impl Case {
    /// The case of this name, which is written in itself.
    pub fn named(name: &str) -> Option<Case> {
        match name {
            "lowercase" => Some(Case::Lower),
            "UPPERCASE" => Some(Case::Upper),
            "PascalCase" => Some(Case::Pascal),
            "camelCase" => Some(Case::Camel),
            "snake_case" => Some(Case::Snake),
            "SCREAMING_SNAKE_CASE" => Some(Case::ScreamingSnake),
            "kebab-case" => Some(Case::Kebab),
            "SCREAMING-KEBAB-CASE" => Some(Case::ScreamingKebab),
            _ => None,
        }
    }

    /// The name of a field, which is in snake case, in this case.
    pub fn of_field(self, alloc: Global, name: &str) -> Result<String, AllocError> {
        match self {
            Case::Lower | Case::Snake => String::from_str(alloc, name),
            Case::Upper | Case::ScreamingSnake => name.to_ascii_uppercase(alloc),
            Case::Kebab => name.replace(alloc, '_', "-"),
            Case::ScreamingKebab => name.to_ascii_uppercase(alloc)?.replace(alloc, '_', "-"),
            Case::Pascal => joined(alloc, name, true),
            Case::Camel => joined(alloc, name, false),
        }
    }

    /// The name of a variant, which is in Pascal case, in this case.
    pub fn of_variant(self, alloc: Global, name: &str) -> Result<String, AllocError> {
        match self {
            Case::Pascal => String::from_str(alloc, name),
            Case::Lower => name.to_ascii_lowercase(alloc),
            Case::Upper => name.to_ascii_uppercase(alloc),
            Case::Camel => joined(alloc, name, false),
            Case::Snake | Case::ScreamingSnake | Case::Kebab | Case::ScreamingKebab => {
                self.of_field(alloc, parted(alloc, name)?.as_str())
            }
        }
    }
}

// The words of a name in snake case, joined, each with a capital, but the first only where it `is_capital`.
fn joined(alloc: Global, name: &str, is_capital: bool) -> Result<String, AllocError> {
    let mut text = String::new(alloc);
    let mut begins = true;
    for c in name.chars() {
        if c != '_' {
            text.push(if !begins {
                c
            } else if is_capital || !text.is_empty() {
                c.to_ascii_uppercase()
            } else {
                c.to_ascii_lowercase()
            })?;
        }
        begins = c == '_';
    }
    Ok(text)
}

// The words of a name in Pascal case, in snake case.
fn parted(alloc: Global, name: &str) -> Result<String, AllocError> {
    let mut text = String::new(alloc);
    for c in name.chars() {
        if c.is_ascii_uppercase() && !text.is_empty() {
            text.push('_')?;
        }
        text.push(c.to_ascii_lowercase())?;
    }
    Ok(text)
}
