//! What is wrong with the keys of a text, and where.
ghost use Rattle.std.specs.Prelude.{◌≡◌, ◌++◌, ◌∷◌, [], if◌then◌else◌, List, OnOk, IfOk, map, not, option_map, string_bytes};
ghost use Rattle.std.specs.List.{list_any};
ghost use Rattle.check_keys.specs.Rows.{item_of};
ghost use Rattle.check_keys.specs.Findings.{Parts, Remembers, AnswersFindings, findings_by, found, is_among, is_long, seen_by};

use crate::rows::{Item, Place, step};
use basic_toml::line_col;
use basic_toml::tokens::{Error, Tokenizer};
use std::alloc::{AllocError, Global};
use std::collections::BTreeSet;

/// How many bytes a part of a key has at most.
const LIMIT: usize = 32;

/// What is wrong with a key.
#[derive(Clone, Copy, Debug, PartialEq, Eq)]
pub enum Trouble {
    /// It stands in its section already.
    Duplicate,
    /// A part of it has more than 32 bytes.
    TooLong,
}

/// What is wrong with a key, and where its first part stands: line and column count from 1, a column in bytes.
#[derive(Clone, Copy, Debug)]
pub struct Finding {
    pub trouble: Trouble,
    pub line: usize,
    pub column: usize,
}

/// The keys of a text that stand twice in one section, and those with a part of more than 32 bytes, in order.
///
/// # Errors
///
/// That of the offset where no token stands, and `OutOfMemory`.
pub fn check(alloc: Global, text: &str) -> Result<Vec<Finding>, Error>
    ensures { AnswersFindings text.now result }
{
    let mut tokens = Tokenizer::new(text);
    let mut place = Place::Start;
    let mut seen = BTreeSet::new(alloc);
    let mut findings = Vec::new(alloc);
    while let Some((span, token)) = tokens.next(alloc)? {
        let Ok((next, item)) = step(alloc, place, span.start, &token) else {
            return Err(Error::OutOfMemory);
        };
        place = next;
        if note(text, item, &mut seen, &mut findings).is_err() {
            return Err(Error::OutOfMemory);
        }
    }
    Ok(findings)
}

/// Adds what is wrong with an item, after the keys of its section that were seen, and remembers it.
#[tactic(auto, using(crate::proofs::KeysAreRemembered::none_remembered))]
fn note(
    text: &str,
    item: Option<Item>,
    seen: &mut BTreeSet<Vec<String>>,
    findings: &mut Vec<Finding>,
) -> Result<(), AllocError>
    ensures { OnOk result ((before : List Parts) → Remembers seen.old before
        → Remembers seen.new (seen_by before (option_map item_of item))
        × (findings.new.items ≡ findings.old.items ++ findings_by text.now before (option_map item_of item))) }
{
    let Some(item) = item else {
        return Ok(());
    };
    let Item::RowKey(key) = item else {
        seen.clear();
        return Ok(());
    };
    let is_long = is_long(key.parts.as_slice());
    add(findings, is_long, found(text, key.offset, Trouble::TooLong))?;
    let is_new = remember(seen, key.parts)?;
    add(
        findings,
        !is_new,
        found(text, key.offset, Trouble::Duplicate),
    )
}

fn is_long(parts: &[String]) -> bool
    ensures { result ≡ list_any (λ part. is_long (string_bytes part)) parts.now }
{
    parts.iter().any(|part| part.len() > LIMIT)
}

fn found(text: &str, offset: usize, trouble: Trouble) -> Finding
    ensures { result ≡ found text.now offset trouble }
{
    let (line, column) = line_col(text, offset);
    Finding {
        trouble,
        line: line + 1,
        column: column + 1,
    }
}

fn add(findings: &mut Vec<Finding>, is_so: bool, finding: Finding) -> Result<(), AllocError>
    ensures { OnOk result (findings.new.items ≡ findings.old.items ++ (if is_so then finding ∷ [] else [])) }
{
    if is_so {
        findings.push(finding)?;
    }
    Ok(())
}

/// Whether a key is new to its section.
fn remember(seen: &mut BTreeSet<Vec<String>>, parts: Vec<String>) -> Result<bool, AllocError>
    ensures { IfOk result (λ is_new. (before : List Parts) → Remembers seen.old before
        → (is_new ≡ not (is_among (map string_bytes parts.items) before))
        × Remembers seen.new (map string_bytes parts.items ∷ before)) }
{
    Ok(seen.insert(parts)?)
}
