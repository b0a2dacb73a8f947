//! The table of a header whose section stands as it was read.

ghost use Rattle.std.specs.Prelude.{◌≡◌, true};
ghost use Rattle.basic_toml_plain.specs.Plain.{are_few_simple};

use basic_toml_read::Row;

/// A table of which one header alone speaks, whose few simple rows the tree keeps as they were read.
#[derive(Clone, Copy)]
pub(crate) struct SectionTable<'t, 'de> {
    pub rows: &'t [Row<'de>],
    /// The number of its section.
    pub section: usize,
    ghost simple: { are_few_simple 0 rows.now ≡ true },
}
