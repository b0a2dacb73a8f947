//! A value within an array or an inline table of plain values.

ghost use Rattle.std.specs.Prelude.{◌≡◌, true};
ghost use Rattle.basic_toml_plain.specs.Plain.{is_plain};

use basic_toml_read::Raw;

/// A plain value, which the tree keeps as it was read.
#[derive(Clone, Copy)]
pub(crate) struct PlainValue<'t, 'de> {
    pub value: &'t Raw<'de>,
    ghost plain: { is_plain value.now 0 ≡ true },
}
