//! Where a token stands.
ghost use Rattle.std.specs.Prelude.{◌≡◌};

/// The bytes of a text from `start` up to `end`, as 0-based byte offsets.
#[derive(Clone, Copy, Debug, PartialEq, Eq)]
pub struct Span {
    /// Where the first byte stands.
    pub start: usize,
    /// Where the first byte after it stands.
    pub end: usize,
}

impl From<Span> for (usize, usize) {
    ghost from_gives = { λ span pair. pair ≡ (span.start, span.end) };

    fn from(span: Span) -> (usize, usize) {
        (span.start, span.end)
    }
}
