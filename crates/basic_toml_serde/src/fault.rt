//! What a step of a reading answers where it fails.
ghost use Rattle.std.specs.Prelude.{◌≡◌};
ghost use Rattle.basic_toml_serde.specs.Answers.{HasLine};
ghost use Rattle.basic_toml_serde.specs.Reports.{Reports};

use basic_toml::{Error, Node};
use std::alloc::{AllocError, Global};

/// Which integer a type asked for, counted from 1, and whether it asked for a signed one.
#[derive(Clone, Copy, Drop, PartialEq)]
pub(crate) struct IntegerStep {
    pub(crate) count: u64,
    pub(crate) is_signed: bool,
}

/// An error, and the integer that it is about, if it is about one.
#[derive(Drop)]
pub(crate) struct Report {
    error: Error,
    integer: Option<IntegerStep>,
}

/// Why a step failed. An error stands in a box, since a step's answer is moved at every step and mostly holds none.
#[derive(Drop)]
pub(crate) enum Fault {
    OutOfMemory,
    /// A value does not fit its type, in a reading that makes no messages.
    Misfit,
    Report(Box<Report>),
}

impl Fault {
    /// The fault that reports an error.
    pub(crate) fn report(alloc: Global, error: Error, integer: Option<IntegerStep>) -> Fault
        ensures { Reports (λ failure. failure ≡ error) result }
    {
        if error.is_out_of_memory() {
            return Fault::OutOfMemory;
        }
        match Box::new(alloc, Report { error, integer }) {
            Ok(report) => Fault::Report(report),
            Err(_) => Fault::OutOfMemory,
        }
    }

    pub(crate) fn is_out_of_memory(&self) -> bool {
        matches!(self, Fault::OutOfMemory)
    }

    /// The integer that the error is about.
    pub(crate) fn integer(&self) -> Option<IntegerStep> {
        match self {
            Fault::Report(report) => report.integer,
            _ => None,
        }
    }

    /// The error, with the line and the column of its offset in the text.
    pub(crate) fn in_text(self, alloc: Global, root: Node<'_, '_>, text: &str) -> Error
        ensures { HasLine text.now result }
    {
        match self {
            Fault::OutOfMemory => Error::from(AllocError).with_line(text),
            Fault::Misfit => Error::custom(alloc, root, "no value was read").with_line(text),
            Fault::Report(report) => Box::into_inner(report).error.with_line(text),
        }
    }
}
