//! The headers of the sections of a document, kept side by side.

ghost use Rattle.std.specs.Prelude.{◌≡◌, ◌<◌, [], ◌∷◌, ◌++◌, length, map, OnOk, OnErr};
ghost use Rattle.basic_toml_read.specs.SectionView.{key_of, header_texts};
ghost use Rattle.basic_toml_tree.specs.Headers.{keys_at, last_of, range_of};
ghost use Rattle.basic_toml_tree.specs.Origin.{header_of};

use basic_toml_read::Key;
use std::alloc::{AllocError, Global};
use std::marker::Model;

/// The headers of the sections of a document, in order.
#[derive(Drop)]
pub(crate) struct Headers<'de> {
    /// The keys of all headers, one header's after another's.
    keys: Vec<Key<'de>>,
    heads: Vec<Head>,
}

/// Where a header begins, and how many keys stand in it and in those before it.
#[derive(Clone, Copy)]
struct Head {
    at: usize,
    end: usize,
}

impl<'de> Model for Headers<'de> {
    ghost use Rattle.std.specs.Prelude.{ℕ, List, length};
    ghost use Rattle.basic_toml_grammar.specs.Sections.{Key as key};

    ghost Value = { List (ℕ × List key) };

    ghost use Rattle.basic_toml_tree.specs.Headers.{headers_from, EndsRise};

    ghost view = { λ h. headers_from 0 h.heads.items h.keys.items };

    ghost invariant = { λ h. EndsRise 0 h.heads.items (length h.keys.items) };
}

// Where the keys of a header begin and end, among those of all headers.
fn range_of(heads: &[Head], number: usize) -> (usize, usize)
    ensures { result ≡ range_of 0 heads.now number }
{
    match heads.get(number) {
        Some(head) if number == 0 => (0, head.end),
        Some(head) => (heads[number - 1].end, head.end),
        None => (0, 0),
    }
}

impl<'de> Headers<'de> {
    /// None, which take no memory.
    pub fn new(alloc: Global) -> Headers<'de>
        ensures { result ≡ [] }
    {
        Headers {
            keys: Vec::new(alloc),
            heads: Vec::new(alloc),
        }
    }

    /// How many there are.
    pub fn len(&self) -> usize
        ensures { result ≡ length self.now }
    {
        self.heads.len()
    }

    /// Puts a header last, which begins at an offset, and takes its keys.
    ///
    /// # Errors
    ///
    /// `AllocError` where a growth was refused. The headers are as they were.
    pub fn push(&mut self, at: usize, keys: &mut Vec<Key<'de>>) -> Result<(), AllocError>
        ensures ok { OnOk result (self.new ≡ self.old ++ (at, map key_of keys.old.items) ∷ []) }
        ensures taken { OnOk result (keys.new.items ≡ []) }
        ensures err { OnErr result (self.new ≡ self.old) }
    {
        let before = self.keys.len();
        self.keys.append(keys)?;
        let head = Head {
            at,
            end: self.keys.len(),
        };
        match self.heads.push(head) {
            Ok(()) => Ok(()),
            Err(_) => {
                self.keys.truncate(before);
                Err(AllocError)
            }
        }
    }

    /// The keys of the header with this number, and none past the last one.
    #[tactic(auto, using(crate::proofs::HeadersKept::range_within, crate::proofs::HeadersKept::keys_in_range))]
    pub fn keys(&self, number: usize) -> &[Key<'de>]
        ensures { header_texts result.now ≡ header_of (keys_at self.now number) }
    {
        let (begin, end) = range_of(&self.heads, number);
        &self.keys[begin..end]
    }

    /// Where the last header begins, if there is one.
    pub fn last_at(&self) -> Option<usize>
        ensures { result ≡ last_of self.now }
    {
        match self.heads.last() {
            Some(head) => Some(head.at),
            None => None,
        }
    }
}
