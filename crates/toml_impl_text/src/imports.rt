//! The names that impls need, and the paths that have them.

use std::alloc::{AllocError, Global};
use toml_rust_types::record::{Presence, Record};

/// Names that impls need from one path.
#[derive(Drop)]
pub struct Import {
    /// Whether clauses need them.
    pub is_ghost: bool,
    pub path: &'static str,
    /// In order.
    pub names: Vec<&'static str>,
}

/// What the impls of the types of a file need.
#[derive(Drop)]
pub struct Needs {
    has_records: bool,
    // Whether a record takes no key but its own.
    is_strict: bool,
    // The words in the lists of fields.
    words: Vec<&'static str>,
    pub has_choices: bool,
    pub has_forms: bool,
}

impl Needs {
    /// Those of no types.
    pub fn new(alloc: Global) -> Needs {
        Needs {
            has_records: false,
            is_strict: false,
            words: Vec::new(alloc),
            has_choices: false,
            has_forms: false,
        }
    }

    /// Whether there are no types.
    pub fn is_empty(&self) -> bool {
        !self.has_records && !self.has_choices && !self.has_forms
    }

    /// Adds those of a record.
    pub fn add_record(&mut self, record: &Record<'_>) -> Result<(), AllocError> {
        self.has_records = true;
        self.is_strict |= record.is_strict;
        for field in &record.fields {
            self.words.push(field.presence.word())?;
            if let Presence::Or(value) = field.presence {
                self.words.push(value.word(field.kind.as_str()))?;
            }
        }
        Ok(())
    }

    // Whether a name is among them.
    fn has(&self, need: Need, name: &str) -> bool {
        match need {
            Need::All => !self.is_empty(),
            Need::Records => self.has_records,
            Need::Words => self.words.contains(&name),
            Need::Strict => self.is_strict,
            Need::Choices => self.has_choices,
            Need::Forms => self.has_forms,
        }
    }
}

// Which types need a name.
#[derive(Clone, Copy)]
enum Need {
    All,
    Records,
    // Records with an entry that has the name.
    Words,
    // Records that take no key but theirs.
    Strict,
    Choices,
    Forms,
}

// Names by need, in order.
type Names = &'static [(Need, &'static [&'static str])];

// What the clauses of impls may need, by paths.
const GHOST: &[(&str, Names)] = &[
    (
        "Rattle.std.specs.Prelude",
        &[
            (Need::Choices, &["◌∷◌", "[]", "codes"]),
            (Need::Words, &["false", "negsuc", "pos"]),
            (Need::All, &["refl"]),
            (Need::Words, &["true"]),
        ],
    ),
    (
        "Rattle.basic_toml.specs.Nodes",
        &[(Need::Forms, &["is_table"])],
    ),
    (
        "Rattle.basic_toml.specs.Records",
        &[(Need::Records, &["record_faults", "record_reads"])],
    ),
    (
        "Rattle.basic_toml_returns.proofs.RecordsReturn",
        &[(Need::Records, &["record_back"])],
    ),
    (
        "Rattle.basic_toml_returns.specs.Forms",
        &[(
            Need::Forms,
            &[
                "by_test",
                "form_back",
                "form_calls",
                "form_faults",
                "form_holds",
                "form_reads",
                "one",
                "other",
            ],
        )],
    ),
    (
        "Rattle.basic_toml_returns.specs.RoundTrips",
        &[
            (Need::Records, &["as_read", "done"]),
            (
                Need::Words,
                &["maybe", "needed", "or", "or_empty", "or_text"],
            ),
            (Need::Records, &["record_calls", "record_holds"]),
            (Need::Strict, &["strict"]),
        ],
    ),
    (
        "Rattle.basic_toml_returns.specs.Variants",
        &[(
            Need::Choices,
            &[
                "variant_back",
                "variant_calls",
                "variant_faults",
                "variant_reads",
            ],
        )],
    ),
];

// What their code may need.
const CODE: &[(&str, Names)] = &[
    (
        "basic_toml",
        &[
            (Need::All, &["Deserialize", "Error", "Node"]),
            (Need::Records, &["Record"]),
            (
                Need::All,
                &["Serialize", "Serializer", "Tree", "WriteError"],
            ),
            (Need::Records, &["from_str"]),
        ],
    ),
    (
        "basic_toml_returns",
        &[
            (Need::Choices, &["Choice"]),
            (Need::Forms, &["Forms"]),
            (Need::All, &["Returns"]),
            (Need::Records, &["Root", "RoundTrip"]),
            (Need::Choices, &["read_variant"]),
            (Need::Records, &["write_record"]),
            (Need::Choices, &["write_variant"]),
        ],
    ),
    ("basic_toml_typed", &[(Need::Records, &["read_record"])]),
    ("std::alloc", &[(Need::All, &["Global"])]),
];

/// The names that are needed, by their paths.
pub fn imports_of(alloc: Global, needs: &Needs) -> Result<Vec<Import>, AllocError> {
    let mut imports = Vec::new(alloc);
    for (is_ghost, paths) in [(true, GHOST), (false, CODE)] {
        for (path, names) in paths {
            let names = needed(alloc, names, needs)?;
            imports.push(Import {
                is_ghost,
                path,
                names,
            })?;
        }
    }
    Ok(imports)
}

fn needed(alloc: Global, names: Names, needs: &Needs) -> Result<Vec<&'static str>, AllocError> {
    let mut needed = Vec::new(alloc);
    for (need, names) in names {
        for name in *names {
            if needs.has(*need, name) {
                needed.push(*name)?;
            }
        }
    }
    Ok(needed)
}
