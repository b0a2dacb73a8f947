//! Where reading stops, and what is wanted there: what `basic_toml_read` tells, so that the error is found.

use std::alloc::{AllocError, AllocFailed};

/// What is wanted after a value.
#[derive(Clone, Copy, Drop)]
pub enum End {
    /// A line feed, or the end of the text.
    Newline,
    /// A right bracket.
    Bracket,
    /// A comma.
    Comma,
}

/// Why reading stops.
#[derive(Clone, Copy, Drop)]
pub enum Why {
    /// Memory was refused.
    Memory,
    /// A key or a bracket stands above the limit.
    Deep,
    /// No key stands there.
    Key,
    /// No equals sign stands there.
    Equals,
    /// No right bracket stands there.
    Bracket,
    /// No comma stands there.
    Comma,
    /// The line goes on.
    Newline,
    /// No value begins there.
    Value,
    /// A word that is no value stands there, and this is wanted after a value.
    Word(End),
}

/// An offset where reading stops.
#[derive(Clone, Copy, Drop)]
pub struct Stop {
    /// The byte offset; 0 where memory was refused.
    pub at: usize,
    /// Why it stops there.
    pub why: Why,
}

impl From<AllocError> for Stop {
    ghost use Rattle.std.specs.Prelude.{◌≡◌};
    ghost use Rattle.basic_toml_explain.specs.Stop.{no_memory};

    ghost from_gives = { λ _ stop. stop ≡ no_memory };

    fn from(_error: AllocError) -> Stop {
        Stop {
            at: 0,
            why: Why::Memory,
        }
    }
}

impl<T: Drop> From<AllocFailed<T>> for Stop {
    ghost use Rattle.std.specs.Prelude.{◌≡◌};
    ghost use Rattle.basic_toml_explain.specs.Stop.{no_memory};

    ghost from_gives = { λ _ stop. stop ≡ no_memory };

    fn from(_error: AllocFailed<T>) -> Stop {
        Stop {
            at: 0,
            why: Why::Memory,
        }
    }
}
