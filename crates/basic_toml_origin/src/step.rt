//! The steps of a path.
ghost use Rattle.std.specs.Prelude.{◌≡◌};
ghost use Rattle.basic_toml_grammar.specs.Steps.{key as key_step, number as number_step, step_eq};
ghost use Rattle.basic_toml_origin.specs.Path.{step_of};

/// A step of a path in a document.
#[derive(Clone, Copy, Debug, PartialEq, Eq)]
pub enum Step<'p> {
    /// To the value at this key of a table.
    Key(&'p str),
    /// To the element of an array that has this number, counted from 0.
    Element(usize),
}

impl<'p> Step<'p> {
    /// Whether it leads to this key.
    pub(crate) fn is_key(self, key: &str) -> bool
        ensures { result ≡ step_eq (key_step key.now) (step_of self.entry) }
    {
        match self {
            Step::Key(name) => key == name,
            Step::Element(_) => false,
        }
    }

    /// Whether it leads to the element of this number.
    pub(crate) fn is_element(self, number: usize) -> bool
        ensures { result ≡ step_eq (number_step number) (step_of self.entry) }
    {
        match self {
            Step::Key(_) => false,
            Step::Element(at) => number == at,
        }
    }
}
