//! Why JSON has no TOML.
ghost use Rattle.std.specs.Prelude.{◌≡◌, [], Err, IfOk, string_bytes};
ghost use Rattle.toml_from_json.specs.Meaning.{IsRefusal, IsUnder, path_to};

use std::alloc::{AllocError, Global};
use std::fmt;

/// What of JSON has no TOML.
#[derive(Clone, Copy, Debug, Drop, PartialEq, Eq)]
pub enum Fault {
    /// `null`.
    Null,
    /// A whole number outside `i64`.
    IntegerOutOfRange,
    /// A key that its object has already.
    RepeatedKey,
    /// The top level is no object.
    NoObject,
    /// A scalar that stands without its type, in the tagged form.
    NoType,
    /// A type that the tagged form does not have.
    UnknownType,
    /// A text that writes no value of its type, in the tagged form.
    WrongValue,
    /// A date and time with an offset (`datetime`).
    OffsetDateTime,
    /// A date and time without an offset (`datetime-local`).
    LocalDateTime,
    /// A date (`date-local`).
    LocalDate,
    /// A time (`time-local`).
    LocalTime,
}

impl fmt::Display for Fault {
    ghost use Rattle.std.specs.Prelude.{Some};
    ghost use Rattle.toml_from_json.specs.RefusalText.{fault_text};

    ghost output = { λ f. Some (fault_text f) };

    fn fmt<W: fmt::Write>(&self, f: &mut fmt::Formatter<W>) -> fmt::Result {
        match self {
            Fault::Null => f.write_str("null"),
            Fault::IntegerOutOfRange => f.write_str("integer outside i64"),
            Fault::RepeatedKey => f.write_str("second value"),
            Fault::NoObject => f.write_str("the top level is no object"),
            Fault::NoType => f.write_str("value without a type"),
            Fault::UnknownType => f.write_str("unknown type"),
            Fault::WrongValue => f.write_str("value that is none of its type"),
            Fault::OffsetDateTime => f.write_str("datetime is not supported"),
            Fault::LocalDateTime => f.write_str("datetime-local is not supported"),
            Fault::LocalDate => f.write_str("date-local is not supported"),
            Fault::LocalTime => f.write_str("time-local is not supported"),
        }
    }
}

/// What of JSON has no TOML, and where it stands.
///
/// Printed, it is the fault and its key path: ``null for key `a.b` ``.
#[derive(Debug, Drop)]
pub struct Refusal {
    /// What it is.
    pub fault: Fault,
    /// The keys that lead to it, a period between two; empty at the top level. An element of an array has no name.
    pub path: String,
}

impl fmt::Display for Refusal {
    ghost use Rattle.std.specs.Prelude.{Some};
    ghost use Rattle.toml_from_json.specs.RefusalText.{refusal_text};

    ghost output = { λ r. Some (refusal_text r.fault (string_bytes r.path)) };

    fn fmt<W: fmt::Write>(&self, f: &mut fmt::Formatter<W>) -> fmt::Result {
        if self.path.is_empty() {
            write!(f, "{}", self.fault)
        } else {
            write!(f, "{} for key `{}`", self.fault, self.path)
        }
    }
}

/// Why there is no table.
#[derive(Debug, Drop)]
pub enum NoTable {
    /// The JSON has no TOML.
    Refused(Refusal),
    /// A growth was refused memory.
    OutOfMemory,
}

impl From<AllocError> for NoTable {
    ghost use Rattle.std.specs.Prelude.{◌≡◌};
    ghost use Rattle.toml_from_json.specs.declared.refusal.NoTable.TheVariants.{OutOfMemory};

    ghost from_gives = { λ _ e. e ≡ OutOfMemory };

    fn from(_refused: AllocError) -> NoTable {
        NoTable::OutOfMemory
    }
}

// A fault at the value itself.
pub fn refused(alloc: Global, fault: Fault) -> NoTable
    ensures { IsRefusal fault [] result }
{
    NoTable::Refused(Refusal {
        fault,
        path: String::new(alloc),
    })
}

// What stands at a key was refused.
pub fn under(alloc: Global, key: &str, error: NoTable) -> NoTable
    ensures { IsUnder key.now error result }
{
    match error {
        NoTable::Refused(refusal) => match path_under(alloc, key, refusal.path.as_str()) {
            Ok(path) => NoTable::Refused(Refusal {
                fault: refusal.fault,
                path,
            }),
            Err(_) => NoTable::OutOfMemory,
        },
        NoTable::OutOfMemory => NoTable::OutOfMemory,
    }
}

fn path_under(alloc: Global, key: &str, path: &str) -> Result<String, AllocError>
    ensures { IfOk result (λ longer. string_bytes longer ≡ path_to key.now path.now) }
{
    if path.is_empty() {
        String::from_str(alloc, key)
    } else {
        format!(in alloc; "{key}.{path}")
    }
}
