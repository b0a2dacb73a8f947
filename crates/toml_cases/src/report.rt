//! What has passed and failed, a line for each failure.
use std::alloc::{AllocError, Global};

/// Where something stands in a case file; lines count from 1.
#[derive(Clone, Copy)]
pub(crate) struct Place<'n> {
    pub(crate) file: &'n str,
    pub(crate) line: usize,
}

// The longest text that is printed whole.
const LONGEST: usize = 2000;

fn beginning(text: &str) -> &str {
    if text.len() <= LONGEST {
        text
    } else {
        text.get(..LONGEST).unwrap_or("a long text")
    }
}

/// The lines to print, and the counts.
#[derive(Drop)]
pub(crate) struct Report {
    pub(crate) lines: String,
    pub(crate) passed: usize,
    pub(crate) failed: usize,
}

impl Report {
    pub(crate) fn new(alloc: Global) -> Report {
        Report {
            lines: String::new(alloc),
            passed: 0,
            failed: 0,
        }
    }

    pub(crate) fn pass(&mut self) {
        self.passed = self.passed.saturating_add(1);
    }

    /// Something is wrong at a place.
    pub(crate) fn fail(&mut self, place: Place<'_>, what: &str) -> Result<(), AllocError> {
        self.failed = self.failed.saturating_add(1);
        let file = place.file;
        let line = place.line;
        write!(self.lines, "{file}:{line}: {what}\n")
    }

    /// What came out is to be what was wanted; both as a case file has them.
    pub(crate) fn compare(
        &mut self,
        alloc: Global,
        place: Place<'_>,
        wanted: &str,
        got: &str,
    ) -> Result<(), AllocError> {
        if wanted == got {
            self.pass();
            return Ok(());
        }
        let wanted = beginning(wanted);
        let got = beginning(got);
        let what = format!(in alloc; "wanted {wanted}, got {got}")?;
        self.fail(place, what.as_str())
    }
}
