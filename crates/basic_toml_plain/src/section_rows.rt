//! Where the rows of a section stand among those of others.

/// The rows of a section in a vector of the rows of several ones.
#[derive(Clone, Copy, Drop)]
pub struct SectionRows {
    /// The number of the section.
    pub section: usize,
    /// The number of its first row.
    pub start: usize,
    /// How many rows it has.
    pub count: usize,
}
