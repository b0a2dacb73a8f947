//! The `use` lines of a file.

use crate::imports::Import;
use std::alloc::Global;
use toml_rust_items::edits::between;
use toml_rust_items::items::{Item, ItemKind};
use toml_rust_items::refusal::{NoImpls, Reason};

/// A `use` line.
#[derive(Drop)]
pub struct Use<'t> {
    pub is_ghost: bool,
    /// Whether names may be added to it: it has neither attributes nor `pub`.
    pub is_plain: bool,
    pub from: usize,
    pub to: usize,
    pub path: &'t str,
    /// What it names there, as it stands.
    pub names: Vec<&'t str>,
}

impl Use<'_> {
    /// Whether it is of a path.
    pub fn is_of(&self, import: &Import) -> bool {
        self.is_ghost == import.is_ghost && self.path == import.path
    }

    /// Whether it names something so.
    pub fn has(&self, name: &str) -> bool {
        self.names.contains(&name)
    }

    /// Whether it brings in serde's derives alone, which the impls stand for.
    pub fn is_serdes(&self) -> bool {
        let mut names = self.names.iter();
        self.is_plain
            && self.path == "serde"
            && names.all(|name| matches!(*name, "Serialize" | "Deserialize"))
    }

    // Whether it brings in something under this name.
    fn brings(&self, name: &str) -> bool {
        self.names.iter().any(|named| brought(named) == name)
    }
}

// The name that a part of a `use` line brings in.
fn brought(named: &str) -> &str {
    match named.rsplit_once(" as ") {
        Some((_, other)) => other,
        None => named,
    }
}

/// The `use` lines of a file, in order.
pub fn uses_of<'t>(
    alloc: Global,
    text: &'t str,
    items: &[Item<'_, 't>],
) -> Result<Vec<Use<'t>>, NoImpls<'t>> {
    let mut uses = Vec::new(alloc);
    for item in items {
        if item.kind == ItemKind::Use || item.kind == ItemKind::GhostUse {
            uses.push(use_of(alloc, text, item)?)?;
        }
    }
    Ok(uses)
}

fn use_of<'t>(alloc: Global, text: &'t str, item: &Item<'_, 't>) -> Result<Use<'t>, NoImpls<'t>> {
    let is_ghost = item.kind == ItemKind::GhostUse;
    let separator = if is_ghost { "." } else { "::" };
    let mut tokens = item.tokens;
    let from = tokens.at();
    for _ in 0..tokens.len() {
        if tokens.sees("{") || tokens.sees(";") {
            break;
        }
        tokens.next();
    }
    let whole = between(text, from, tokens.at()).trim();
    let mut path = whole.strip_suffix(separator).unwrap_or(whole);
    let mut names = Vec::new(alloc);
    if tokens.takes("{") {
        for part in tokens.group()?.parts() {
            names.push(between(text, part.at(), part.last_end()))?;
        }
    } else if let Some((front, name)) = whole.rsplit_once(separator) {
        path = front;
        names.push(name)?;
    }
    Ok(Use {
        is_ghost,
        is_plain: item.from == item.start,
        from: item.start,
        to: item.to,
        path,
        names,
    })
}

/// Refuses a file that has something else under a name that the impls need.
pub fn refuse_taken<'t>(
    items: &[Item<'_, 't>],
    uses: &[Use<'t>],
    imports: &[Import],
) -> Result<(), NoImpls<'t>> {
    for import in imports {
        for name in &import.names {
            if let Some(line) = uses.iter().find(|line| takes(line, import, name)) {
                return Err(NoImpls::At(line.from, Reason::Taken(name, import.path)));
            }
            if !import.is_ghost {
                refuse_type(items, name, import.path)?;
            }
        }
    }
    Ok(())
}

// Whether a line brings in something else under a name.
fn takes(line: &Use<'_>, import: &Import, name: &str) -> bool {
    line.is_ghost == import.is_ghost
        && line.path != import.path
        && line.brings(name)
        && !line.is_serdes()
}

// Refuses a file that declares a type of a name.
fn refuse_type<'t>(
    items: &[Item<'_, 't>],
    name: &'static str,
    path: &'static str,
) -> Result<(), NoImpls<'t>> {
    for item in items {
        if item.kind.is_type() && item.tokens.sees(name) {
            return Err(NoImpls::At(item.tokens.at(), Reason::Taken(name, path)));
        }
    }
    Ok(())
}
