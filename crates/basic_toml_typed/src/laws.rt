//! Laws of what types go by, each the contract of a function that does nothing.
ghost use Rattle.std.specs.Prelude.{◌≡◌, ℕ, List};
ghost use Rattle.basic_toml_typed.specs.FieldKeys.{text_number};

/// No two texts have one number, by which types name their fields.
pub fn text_numbers_differ()
    ensures { (text other : List ℕ) → text_number text ≡ text_number other → text ≡ other }
{}
