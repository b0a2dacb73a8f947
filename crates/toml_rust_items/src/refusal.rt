//! Why a file gets no impls.
use std::alloc::{AllocError, AllocFailed};
use std::fmt;

/// Why a file gets no impls.
#[derive(Drop)]
pub enum NoImpls<'t> {
    /// What stands at this offset is refused.
    At(usize, Reason<'t>),
    /// Memory was refused.
    OutOfMemory,
}

impl<'t> From<AllocError> for NoImpls<'t> {
    ghost use Rattle.std.specs.Prelude.{◌≡◌};
    ghost use Rattle.toml_rust_items.specs.declared.refusal.NoImpls.TheVariants.{OutOfMemory};

    ghost from_gives = { λ _ e. e ≡ OutOfMemory };

    fn from(_refused: AllocError) -> NoImpls<'t> {
        NoImpls::OutOfMemory
    }
}

impl<'t, T: Drop> From<AllocFailed<T>> for NoImpls<'t> {
    ghost use Rattle.std.specs.Prelude.{◌≡◌};
    ghost use Rattle.toml_rust_items.specs.declared.refusal.NoImpls.TheVariants.{OutOfMemory};

    ghost from_gives = { λ _ e. e ≡ OutOfMemory };

    fn from(_refused: AllocFailed<T>) -> NoImpls<'t> {
        NoImpls::OutOfMemory
    }
}

/// What is wrong.
#[derive(Clone, Copy)]
pub enum Reason<'t> {
    /// A bracket that is not closed.
    Unclosed,
    /// Something else stands where this is wanted.
    Expected(&'static str),
    Generic,
    NotNamed,
    /// A type without fields or variants.
    Empty,
    Invariant,
    /// A variant that holds something, where the enum is not `untagged`.
    VariantData,
    /// More or fewer variants than two.
    NotTwo,
    /// A variant that holds more or less than one value.
    NotOne,
    /// Two variants that hold tables, or two that hold none.
    SameForm,
    /// A type that may be a table.
    FormType,
    /// Another test than the program's.
    OtherTest,
    /// What has no meaning for a choice of two forms.
    OfForms(&'t str),
    /// An enum, where the path of its module is not known.
    NoModule,
    /// The type of a field that no TOML value has.
    FieldType,
    NestedOption,
    /// A word of serde's attributes.
    NotTaken(&'t str),
    Alias,
    TwoNames,
    SkipIf,
    /// What only a field may have.
    OfVariant,
    /// `rename_all` in none of serde's cases.
    Case,
    Key,
    /// The key of a field that stands before.
    RepeatedKey,
    DefaultPath,
    DefaultOfOption,
    DefaultOfType,
    DefaultOfText,
    DefaultMisfit,
    /// What the list of an impl has, where the program writes none such.
    Entry,
    /// A name that the impls need and that is another's: the name, and the path that they need it from.
    Taken(&'static str, &'static str),
}

impl fmt::Display for Reason<'_> {
    fn fmt<W: fmt::Write>(&self, f: &mut fmt::Formatter<W>) -> fmt::Result {
        match self {
            Reason::Expected(what) => write!(f, "expected {what}"),
            Reason::NotTaken(word) => write!(f, "`{word}` is not taken"),
            Reason::OfForms(word) => {
                write!(
                    f,
                    "`{word}` says nothing of an `untagged` enum: leave it out"
                )
            }
            Reason::Taken(name, path) => {
                write!(f, "`{name}` is another's: the impls need that of {path}")
            }
            Reason::Generic
            | Reason::NotNamed
            | Reason::Empty
            | Reason::Invariant
            | Reason::VariantData
            | Reason::NotTwo
            | Reason::NotOne
            | Reason::SameForm => {
                let what = self.text();
                write!(
                    f,
                    "{what}: write its impls by hand, or keep it in another file"
                )
            }
            _ => f.write_str(self.text()),
        }
    }
}

impl Reason<'_> {
    // The text of a reason that names nothing.
    fn text(&self) -> &'static str {
        match self {
            Reason::Unclosed => "a bracket that is not closed",
            Reason::Generic => "a generic type",
            Reason::NotNamed => "a struct without named fields",
            Reason::Empty => "a type without fields or variants",
            Reason::Invariant => "a struct with an invariant",
            Reason::VariantData => "a variant with data, where the enum is not `untagged`",
            Reason::NotTwo => "an `untagged` enum of more or fewer variants than two",
            Reason::NotOne => "a variant that does not hold one value, as `Version(String)` does",
            Reason::SameForm => "both variants hold a table, or neither does",
            Reason::FormType => {
                "it is not known here whether this type is a table: take a type of this file, or \
                 write the impls by hand"
            }
            Reason::OtherTest => {
                "another test than `is_table`: leave out what serde has at the enum, and its impls stay"
            }
            Reason::NoModule => {
                "an enum needs the path of its module: --module my_crate::settings"
            }
            Reason::FieldType => "a type that is no path, as `Vec<String>` is one",
            Reason::NestedOption => "an option of an option, which TOML has not",
            Reason::Alias => "`alias` is not taken: a field has one key",
            Reason::TwoNames => "a field has one key, for reading and for writing",
            Reason::SkipIf => {
                "only `skip_serializing_if = \"Option::is_none\"` is taken, at an option"
            }
            Reason::OfVariant => "a variant has no default, and is not left out",
            Reason::Case => {
                "none of lowercase, UPPERCASE, PascalCase, camelCase, snake_case, \
                 SCREAMING_SNAKE_CASE, kebab-case and SCREAMING-KEBAB-CASE"
            }
            Reason::Key => "a key is text between quotes, of printable ASCII without `\"` and `\\`",
            Reason::RepeatedKey => "the key of another field",
            Reason::DefaultPath => {
                "a default by a function, whose value is not known here: write the value, as \
                 `default = 8080`"
            }
            Reason::DefaultOfOption => "an option has no default: where the key lacks it is `None`",
            Reason::DefaultOfType => {
                "a default of a type that is none of `bool`, the integers, `String` and `Vec`: make \
                 it an `Option`"
            }
            Reason::DefaultOfText => "a default is `true`, `false` or an integer",
            Reason::DefaultMisfit => "a default that is no value of its type",
            Reason::Entry =>
                "an entry that is none of `needed`, `maybe`, `or`, `or_empty` and `or_text`",
            _ => "",
        }
    }
}
