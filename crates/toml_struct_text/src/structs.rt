//! The structs of a document.

use crate::names::{field_name, struct_name};
use crate::shape::{Inner, Shape, has_plain_keys, shape_of};
use basic_toml_value::{Table, Value};
use std::alloc::{AllocError, AllocFailed, Global};
use std::collections::{BTreeSet, VecDeque};

/// Why a document has no structs.
#[derive(Clone, Copy, Debug, PartialEq, Eq)]
pub enum NoStructs {
    /// It has no keys, or one that no field can have.
    Keys,
    /// Memory was refused.
    OutOfMemory,
}

impl From<AllocError> for NoStructs {
    ghost use Rattle.std.specs.Prelude.{◌≡◌};
    ghost use Rattle.toml_struct_text.specs.declared.structs.NoStructs.TheVariants.{OutOfMemory};

    ghost from_gives = { λ _ e. e ≡ OutOfMemory };

    fn from(_refused: AllocError) -> NoStructs {
        NoStructs::OutOfMemory
    }
}

impl<T: Drop> From<AllocFailed<T>> for NoStructs {
    ghost use Rattle.std.specs.Prelude.{◌≡◌};
    ghost use Rattle.toml_struct_text.specs.declared.structs.NoStructs.TheVariants.{OutOfMemory};

    ghost from_gives = { λ _ e. e ≡ OutOfMemory };

    fn from(_refused: AllocFailed<T>) -> NoStructs {
        NoStructs::OutOfMemory
    }
}

// A struct that is still to be written.
#[derive(Drop)]
struct Draft<'v> {
    name: String,
    // The keys that lead to its tables.
    path: String,
    tables: Vec<&'v Table>,
}

// The structs so far.
#[derive(Drop)]
struct Structs<'v> {
    text: String,
    names: BTreeSet<String>,
    drafts: VecDeque<Draft<'v>>,
    has_float: bool,
    has_value: bool,
    has_map: bool,
}

/// Structs that a document can be read as, the first for itself.
///
/// A key that not all elements of an array have is an option. Fields that hold tables come last, as they are written.
///
/// # Errors
///
/// `Keys` where the document has none or one that no field can have, and want of memory.
pub fn structs_of(alloc: Global, document: &Table) -> Result<String, NoStructs> {
    if document.is_empty() || !has_plain_keys(document) {
        return Err(NoStructs::Keys);
    }
    let mut structs = Structs {
        text: String::new(alloc),
        names: BTreeSet::new(alloc),
        drafts: VecDeque::new(alloc),
        has_float: false,
        has_value: false,
        has_map: false,
    };
    let mut tables = Vec::new(alloc);
    tables.push(document)?;
    structs.add_draft(alloc, "document", "", tables)?;
    for _ in 0..u64::MAX {
        let Some(draft) = structs.drafts.pop_front() else {
            break;
        };
        structs.write(alloc, &draft)?;
    }
    Ok(structs.with_uses(alloc)?)
}

impl<'v> Structs<'v> {
    // Plans the struct of a key; returns its name.
    fn add_draft(
        &mut self,
        alloc: Global,
        key: &str,
        path: &str,
        tables: Vec<&'v Table>,
    ) -> Result<String, AllocError> {
        let name = struct_name(alloc, key, path, &self.names)?;
        self.names.insert(name.clone()?)?;
        self.drafts.push_back(Draft {
            name: name.clone()?,
            path: String::from_str(alloc, path)?,
            tables,
        })?;
        Ok(name)
    }

    // Writes a struct, and plans those of its fields.
    fn write(&mut self, alloc: Global, draft: &Draft<'v>) -> Result<(), AllocError> {
        let Draft { name, path, tables } = draft;
        let mut rows = String::new(alloc);
        let mut sections = String::new(alloc);
        let mut fields = BTreeSet::new(alloc);
        for key in keys_of(alloc, tables.as_slice())? {
            let values = values_at(alloc, tables.as_slice(), key)?;
            let is_option = values.len() < tables.len();
            let text = if values.iter().any(|value| holds_table(value)) {
                &mut sections
            } else {
                &mut rows
            };
            let field = field_name(alloc, key, &fields)?;
            let kind = self.kind(alloc, key, path.as_str(), shape_of(alloc, values)?)?;
            push_field(text, field.as_str(), key, kind.as_str(), is_option)?;
            fields.insert(field)?;
        }
        if path.is_empty() {
            self.text.push_str("\n/// The document.\n")?;
        } else {
            write!(self.text, "\n/// What stands at `{path}`.\n")?;
        }
        write!(
            self.text,
            "#[derive(Debug, Drop)]\npub struct {name} {{\n{rows}{sections}}}\n"
        )
    }

    // The type of a shape, at a key of the table at a path.
    fn kind(
        &mut self,
        alloc: Global,
        key: &str,
        path: &str,
        shape: Shape<'v>,
    ) -> Result<String, AllocError> {
        let Shape { outer, inner } = shape;
        let mut kind = outer;
        let count = kind.as_str().matches('<').count();
        self.has_map |= kind.as_str().contains("BTreeMap");
        match inner {
            Inner::Named(name) => {
                self.has_float |= name == "Float";
                self.has_value |= name == "Value";
                kind.push_str(name)?;
            }
            Inner::Tables(tables) => {
                let separator = if path.is_empty() { "" } else { "." };
                let path = format!(in alloc; "{path}{separator}{key}")?;
                let name = self.add_draft(alloc, key, path.as_str(), tables)?;
                kind.push_str(name.as_str())?;
            }
        }
        for _ in 0..count {
            kind.push('>')?;
        }
        Ok(kind)
    }

    // The structs behind the `use` lines that they need.
    fn with_uses(&self, alloc: Global) -> Result<String, AllocError> {
        let mut text = String::new(alloc);
        text.push_str(match (self.has_float, self.has_value) {
            (true, true) => "use basic_toml::{Float, Value};\n",
            (true, false) => "use basic_toml::Float;\n",
            (false, true) => "use basic_toml::Value;\n",
            (false, false) => "",
        })?;
        if self.has_map {
            text.push_str("use std::collections::BTreeMap;\n")?;
        }
        let structs = self.text.as_str();
        if text.is_empty() {
            text.push_str(structs.trim_start())?;
        } else {
            text.push_str(structs)?;
        }
        Ok(text)
    }
}

fn push_field(
    text: &mut String,
    field: &str,
    key: &str,
    kind: &str,
    is_option: bool,
) -> Result<(), AllocError> {
    if field != key {
        write!(text, "    #[serde(rename = \"{key}\")]\n")?;
    }
    if is_option {
        write!(text, "    pub {field}: Option<{kind}>,\n")
    } else {
        write!(text, "    pub {field}: {kind},\n")
    }
}

// The keys of some tables, in the order in which they come first.
fn keys_of<'v>(alloc: Global, tables: &[&'v Table]) -> Result<Vec<&'v str>, AllocError> {
    let mut keys = Vec::new(alloc);
    let mut seen = BTreeSet::new(alloc);
    for table in tables {
        for (key, _) in *table {
            if seen.insert(key)? {
                keys.push(key)?;
            }
        }
    }
    Ok(keys)
}

// What some tables have at a key.
fn values_at<'v>(
    alloc: Global,
    tables: &[&'v Table],
    key: &str,
) -> Result<Vec<&'v Value>, AllocError> {
    let mut values = Vec::new(alloc);
    for table in tables {
        if let Some(value) = table.get(key) {
            values.push(value)?;
        }
    }
    Ok(values)
}

// Whether a value is written as sections.
fn holds_table(value: &Value) -> bool {
    match value {
        Value::Table(_) => true,
        Value::Array(elements) => elements.iter().any(|element| element.as_table().is_some()),
        _ => false,
    }
}
