//! Names in one text, one after another, so that taking one copies it and allocates nothing once the text has grown.
//!
//! After the names that are kept stands the one that is set last. The kept ones end within `held`, and the text may be
//! cut there and at both ends of each of them. Of each it is known whether it is a bare key, so that this is asked once
//! for all tables that have the key.
ghost use Rattle.std.specs.Prelude.{◌≡◌, ◌+◌, ◌<◌, [], ◌∷◌, ◌++◌, IfOk, OnErr, length, take, slice_index_or, string_bytes};
ghost use Rattle.std.specs.List.{All};
ghost use Rattle.std.specs.Str.{IsCharBoundary};
ghost use Rattle.std.proofs.Props.{props};
ghost use Rattle.basic_toml_layout.specs.Texts.{is_bare_key};
ghost use Rattle.basic_toml_open_keys.specs.Keys.{turned};
ghost use Rattle.basic_toml_open_keys.specs.Names.{IsPlace};

use basic_toml_index::Texts;
use basic_toml_layout::is_bare_key;
use std::alloc::{AllocError, Global};

// Where a name stands, and whether it is a bare key.
#[derive(Clone, Copy, Drop)]
struct Place {
    start: usize,
    end: usize,
    is_bare: bool,
}

#[derive(Drop)]
pub struct Names {
    text: String,
    places: Vec<Place>,
    held: usize,
    ghost cut: { IsCharBoundary (string_bytes text) held } by { Prim.hlevel props },
    ghost fit: { All (IsPlace (string_bytes text) held) places.items } by { Prim.hlevel props },
}

impl Names {
    ghost use Rattle.basic_toml_open_keys.specs.Kept.{kept_of, pending_of};

    pub fn new(alloc: Global) -> Names
        ensures { kept_of result ≡ [] }
    {
        Names {
            text: String::new(alloc),
            places: Vec::new(alloc),
            held: 0,
        }
    }

    // Forgets all names.
    pub fn clear(&mut self)
        ensures { kept_of self.new ≡ [] }
    {
        self.text.clear();
        self.places.clear();
        self.held = 0;
    }

    // Forgets the names from this one on. The text keeps what they were.
    #[tactic(auto, using(crate::proofs::Naming::fewer_names, crate::proofs::Naming::fewer_places))]
    pub fn shed(&mut self, count: usize)
        ensures { kept_of self.new ≡ take count (kept_of self.old) }
    {
        self.places.truncate(count);
    }

    // Puts a name behind the one that stands behind it.
    #[tactic(auto, using(crate::proofs::Turned::names_turned))]
    pub fn turn(&mut self, position: usize)
        requires { position + 1 < length (kept_of self.old) }
        ensures { kept_of self.new ≡ turned position (kept_of self.old) }
    {
        let _len = self.len();
        self.places.swap(position, position + 1);
    }

    // How long the text of all names is.
    pub fn size(&self) -> usize
        ensures { result ≡ length (string_bytes self.now.text) }
    {
        self.text.len()
    }

    // How many names are kept.
    pub fn len(&self) -> usize
        ensures { result ≡ length (kept_of self.now) }
    {
        self.places.len()
    }

    // A name that is kept.
    pub fn get(&self, position: usize) -> &str
        requires { position < length (kept_of self.now) }
        ensures { result.now ≡ slice_index_or (kept_of self.now) position [] }
    {
        let place = self.places[position];
        &self.text.as_str()[place.start..place.end]
    }

    // Whether a name that is kept is a bare key.
    pub fn is_bare(&self, position: usize) -> bool
        requires { position < length (kept_of self.now) }
        ensures { result ≡ is_bare_key (slice_index_or (kept_of self.now) position []) }
    {
        self.places[position].is_bare
    }

    // The name that is set.
    pub fn pending(&self) -> &str
        ensures { result.now ≡ pending_of self.now }
    {
        &self.text[self.held..]
    }

    // Sets a name.
    pub fn set(&mut self, name: &str) -> Result<(), AllocError>
        ensures kept { kept_of self.new ≡ kept_of self.old }
        ensures pending { IfOk result (λ _. pending_of self.new ≡ name.now) }
    {
        self.text.truncate(self.held);
        self.text.push_str(name)
    }

    // Keeps the name that is set.
    pub fn keep(&mut self) -> Result<(), AllocError>
        ensures ok { IfOk result (λ _. kept_of self.new ≡ kept_of self.old ++ pending_of self.old ∷ []) }
        ensures err { OnErr result (kept_of self.new ≡ kept_of self.old) }
    {
        let end = self.text.len();
        let is_bare = is_bare_key(self.pending());
        self.places.push(Place {
            start: self.held,
            end,
            is_bare,
        })?;
        self.held = end;
        Ok(())
    }
}

// The names that are kept.
impl Texts for Names {
    ghost use Rattle.basic_toml_open_keys.specs.Kept.{kept_of};

    ghost texts = { kept_of };

    fn count(&self) -> usize {
        self.len()
    }

    fn text(&self, position: usize) -> &str {
        self.get(position)
    }
}
