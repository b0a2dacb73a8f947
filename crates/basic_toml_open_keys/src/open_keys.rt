//! The keys of an open table, and those that stood in another before it.
//!
//! Records of one type have the same keys in the same order. So the keys of a table that is closed are remembered:
//! while those of the next one are the same ones, they are neither copied nor looked for.
ghost use Rattle.std.specs.Prelude.{◌≡◌, ◌≤◌, true, false, not, is_some, unwrap_or, None, Some, [], IfOk, OnErr, length};
ghost use Rattle.basic_toml_layout.specs.Texts.{is_bare_key};
ghost use Rattle.basic_toml_open_keys.specs.Keys.{no_keys, with_key};
ghost use Rattle.basic_toml_open_keys.specs.Kept.{kept_of};

use crate::keys::Keys;
use std::alloc::{AllocError, Global};

/// The first of the keys that are known, and the one that is set: where more are known, the next one of these.
#[derive(Drop)]
pub struct OpenKeys {
    known: Keys,
    count: usize,
    ghost within: { count ≤ length (kept_of known.names) },
}

impl OpenKeys {
    ghost use Rattle.basic_toml_open_keys.specs.OpenKeys.{keys_of, last_of, pending_of};

    /// No keys. Takes no memory.
    pub fn new(alloc: Global) -> OpenKeys
        ensures keys { keys_of result ≡ no_keys }
        ensures last { last_of result ≡ None }
    {
        OpenKeys {
            known: Keys::new(alloc),
            count: 0,
        }
    }

    /// Begins another table, and remembers the keys.
    pub fn clear(&mut self)
        ensures keys { keys_of self.new ≡ no_keys }
        ensures last { last_of self.new ≡ None }
    {
        if self.known.is_large() {
            self.known.clear();
        }
        self.count = 0;
    }

    /// Whether no key was entered.
    #[tactic(auto, using(crate::proofs::FirstKeys::last_there))]
    pub fn is_empty(&self) -> bool
        ensures { not result ≡ is_some (last_of self.now) }
    {
        self.count == 0
    }

    /// The key that was entered last, or the empty text.
    #[tactic(auto, using(crate::proofs::FirstKeys::last_at))]
    pub fn last(&self) -> &str
        ensures { result.now ≡ unwrap_or (last_of self.now) [] }
    {
        if self.count == 0 {
            return "";
        }
        self.known.names().get(self.count - 1)
    }

    /// Whether the key that was entered last is a bare key.
    #[tactic(auto, using(crate::proofs::FirstKeys::last_at))]
    pub fn is_last_bare(&self) -> bool
        ensures { result ≡ is_bare_key (unwrap_or (last_of self.now) []) }
    {
        if self.count == 0 {
            return false;
        }
        self.known.names().is_bare(self.count - 1)
    }

    /// The key that is set.
    #[tactic(auto, using(crate::proofs::FirstKeys::next_known, crate::proofs::FirstKeys::next_unknown))]
    pub fn pending(&self) -> &str
        ensures { result.now ≡ pending_of self.now }
    {
        let names = self.known.names();
        if self.count < names.len() {
            names.get(self.count)
        } else {
            names.pending()
        }
    }

    /// Sets a key.
    ///
    /// # Errors
    ///
    /// `AllocError` where memory for the key was refused. The keys that were entered stay.
    #[inline(always)]
    #[tactic(auto, using(crate::proofs::FirstKeys::next_same))]
    pub fn set(&mut self, key: &str) -> Result<(), AllocError>
        ensures keys { keys_of self.new ≡ keys_of self.old }
        ensures last { last_of self.new ≡ last_of self.old }
        ensures pending { IfOk result (λ _. pending_of self.new ≡ key.now) }
    {
        if self.count < self.known.names().len() && self.known.names().get(self.count) == key {
            return Ok(());
        }
        self.set_other(key)
    }

    // Sets a key that is not the next one of those that are known. Where it is the one behind, the two change places, so
    // that a key whose entry is absent now and then is not forgotten; else those behind the ones that were entered are.
    #[tactic(auto, using(crate::proofs::FirstKeys::next_unknown, crate::proofs::Turned::within_turned, crate::proofs::Turned::first_turned, crate::proofs::Turned::next_turned))]
    #[inline(always)]
    fn set_other(&mut self, key: &str) -> Result<(), AllocError>
        ensures keys { keys_of self.new ≡ keys_of self.old }
        ensures last { last_of self.new ≡ last_of self.old }
        ensures pending { IfOk result (λ _. pending_of self.new ≡ key.now) }
    {
        let len = self.known.names().len();
        if len > 1 && self.count < len - 1 && !self.known.has_index() {
            if self.known.names().get(self.count + 1) == key {
                self.known.turn(self.count);
                return Ok(());
            }
        }
        if self.count < len {
            self.known.shed(self.count);
        }
        self.known.set(key)
    }

    /// Enters the key that is set. `false` where it is there already, and then nothing is changed.
    ///
    /// # Errors
    ///
    /// `AllocError` where memory was refused. All keys are forgotten then.
    #[inline(always)]
    #[tactic(auto, using(crate::proofs::FirstKeys::next_absent, crate::proofs::FirstKeys::keys_next, crate::proofs::FirstKeys::last_next))]
    pub fn enter(&mut self) -> Result<bool, AllocError>
        ensures answer { IfOk result (λ is_new. is_new ≡ not (keys_of self.old (pending_of self.old))) }
        ensures keys { IfOk result (λ is_new. is_new ≡ true
            → keys_of self.new ≡ with_key (pending_of self.old) (keys_of self.old)) }
        ensures last { IfOk result (λ is_new. is_new ≡ true → last_of self.new ≡ Some (pending_of self.old)) }
        ensures unchanged { IfOk result (λ is_new. is_new ≡ false → self.new ≡ self.old) }
        ensures err { OnErr result (keys_of self.new ≡ no_keys) }
        ensures forgotten { OnErr result (last_of self.new ≡ None) }
    {
        if self.count < self.known.names().len() {
            self.count += 1;
            return Ok(true);
        }
        self.enter_other()
    }

    // The same where no more keys are known.
    #[inline(never)]
    #[tactic(auto, using(crate::proofs::FirstKeys::next_unknown, crate::proofs::FirstKeys::keys_pushed, crate::proofs::FirstKeys::last_pushed, crate::proofs::FirstKeys::within_pushed))]
    fn enter_other(&mut self) -> Result<bool, AllocError>
        requires { length (kept_of self.old.known.names) ≤ self.old.count }
        ensures answer { IfOk result (λ is_new. is_new ≡ not (keys_of self.old (pending_of self.old))) }
        ensures keys { IfOk result (λ is_new. is_new ≡ true
            → keys_of self.new ≡ with_key (pending_of self.old) (keys_of self.old)) }
        ensures last { IfOk result (λ is_new. is_new ≡ true → last_of self.new ≡ Some (pending_of self.old)) }
        ensures unchanged { IfOk result (λ is_new. is_new ≡ false → self.new ≡ self.old) }
        ensures err { OnErr result (keys_of self.new ≡ no_keys) }
        ensures forgotten { OnErr result (last_of self.new ≡ None) }
    {
        match self.known.enter() {
            Ok(true) => {
                self.count += 1;
                Ok(true)
            }
            Ok(false) => Ok(false),
            Err(error) => {
                self.known.clear();
                self.count = 0;
                Err(error)
            }
        }
    }
}
