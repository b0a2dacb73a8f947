//! How rows and headers look.
ghost use Rattle.std.specs.Prelude.{◌≡◌};
ghost use Rattle.basic_toml_layout.specs.Style.{style_of};

/// How rows and headers look.
#[derive(Clone, Copy)]
pub enum Style {
    /// Each value on one line, and a blank line before a header where an entry of the table around it, or an element,
    /// stands before.
    Plain,
    /// For people: long arrays and strings of several lines on several lines, and a blank line before each header but
    /// one that begins the text.
    Pretty,
}

impl Style {
    /// Whether a blank line stands before each header but one that begins the text.
    pub fn is_spaced(self) -> bool
        ensures { result ≡ (style_of self).spaced }
    {
        match self {
            Style::Plain => false,
            Style::Pretty => true,
        }
    }
}
