//! What is looked for in a section list.
ghost use Rattle.std.specs.Prelude.{◌≡◌, [], ◌∷◌, ◌++◌, None, Some, if◌then◌else◌, map};
ghost use Rattle.basic_toml_places.specs.Places.{key_number};
ghost use Rattle.basic_toml_read.specs.SectionView.{key_of, lined_of};
ghost use Rattle.basic_toml_origin.specs.Query.{keys_in_header, test_of};

use basic_toml_read::{Key, Row};

/// What is looked for, by an offset.
#[derive(Clone, Copy)]
pub(crate) enum Query {
    /// The value that begins there.
    Value(usize),
    /// What the key leads to that begins there.
    Key(usize),
}

impl Query {
    /// How many keys of a header lead to it, if one of these does.
    pub(crate) fn keys_in_header(self, header: &[Key<'_>]) -> Option<usize>
        ensures { result ≡ keys_in_header self (map key_of header.now) }
    {
        match self {
            Query::Value(_) => None,
            Query::Key(offset) => key_number(header, offset),
        }
    }

    /// How many keys of a row lead to it, if it is the row's value or what a key leads to. `parents` are the keys
    /// before the last one.
    pub(crate) fn keys_in_row(self, parents: &[Key<'_>], row: &Row<'_>) -> Option<usize>
        ensures { let row = lined_of row.now in
            result ≡ test_of self (map key_of parents.now ++ row.key ∷ []) row.start }
    {
        let keys = parents.len() + 1;
        match self {
            Query::Value(offset) => (offset == row.start).then_some(keys),
            Query::Key(offset) => {
                key_number(parents, offset).or((offset == row.offset).then_some(keys))
            }
        }
    }

    /// Whether it is the element of an array whose value begins at an offset.
    pub(crate) fn is_element(self, at: usize) -> bool
        ensures { test_of self [] at ≡ (if result then Some 0 else None) }
    {
        matches!(self, Query::Value(offset) if offset == at)
    }
}

// The number of the key that begins at an offset, counted from 1.
fn key_number(keys: &[Key<'_>], offset: usize) -> Option<usize>
    ensures { result ≡ key_number offset (map key_of keys.now) }
{
    keys.iter()
        .position(|key| offset == key.offset)
        .map(|before| before + 1)
}
