//! Random texts and bytes, the same at each run, and how many of them came to what.
use crate::dice::Dice;
use crate::properties::{Kind, kind_of, kind_of_bytes};
use crate::report::{Place, Report};
use crate::sentences::random_text;
use std::alloc::{AllocError, Global};

/// How many texts came to what.
#[derive(Clone, Copy)]
pub(crate) struct Counts {
    pub(crate) no_text: usize,
    pub(crate) refused: usize,
    pub(crate) read: usize,
    pub(crate) written: usize,
}

impl Counts {
    pub(crate) fn none() -> Counts {
        Counts {
            no_text: 0,
            refused: 0,
            read: 0,
            written: 0,
        }
    }

    fn add(&mut self, kind: Kind) {
        match kind {
            Kind::NoText => self.no_text = self.no_text.saturating_add(1),
            Kind::Refused => self.refused = self.refused.saturating_add(1),
            Kind::Read => self.read = self.read.saturating_add(1),
            Kind::Written => self.written = self.written.saturating_add(1),
        }
    }

    /// The count of this name.
    pub(crate) fn of(self, name: &str) -> Option<usize> {
        match name {
            "no-text" => Some(self.no_text),
            "refused" => Some(self.refused),
            "read" => Some(self.read),
            "written" => Some(self.written),
            _ => None,
        }
    }
}

// A text of which some bytes are others.
fn random_bytes(alloc: Global, dice: &mut Dice) -> Result<Vec<u8>, AllocError> {
    let text = random_text(alloc, dice)?;
    let mut bytes = Vec::from_slice(alloc, text.as_bytes())?;
    for _ in 0..dice.below(4) {
        let at = dice.below(bytes.len());
        let byte = dice.byte();
        if let Some(place) = bytes.get_mut(at) {
            *place = byte;
        }
    }
    Ok(bytes)
}

/// Checks so many random texts.
pub(crate) fn texts(
    alloc: Global,
    report: &mut Report,
    place: Place<'_>,
    times: usize,
) -> Result<Counts, AllocError> {
    let mut dice = Dice::new(1);
    let mut counts = Counts::none();
    for _ in 0..times {
        let text = random_text(alloc, &mut dice)?;
        match kind_of(alloc, text.as_str())? {
            Ok(kind) => counts.add(kind),
            Err(what) => {
                let what = format!(in alloc; "{what}: {text:?}")?;
                report.fail(place, what.as_str())?;
            }
        }
    }
    Ok(counts)
}

/// Checks so many random strings of bytes.
pub(crate) fn bytes(
    alloc: Global,
    report: &mut Report,
    place: Place<'_>,
    times: usize,
) -> Result<Counts, AllocError> {
    let mut dice = Dice::new(2);
    let mut counts = Counts::none();
    for _ in 0..times {
        let bytes = random_bytes(alloc, &mut dice)?;
        match kind_of_bytes(alloc, bytes.as_slice())? {
            Ok(kind) => counts.add(kind),
            Err(what) => {
                let what = format!(in alloc; "{what}: {bytes:?}")?;
                report.fail(place, what.as_str())?;
            }
        }
    }
    Ok(counts)
}
