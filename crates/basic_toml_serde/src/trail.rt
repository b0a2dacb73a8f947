//! The keys that lead to the next of some items.
ghost use Rattle.std.specs.Prelude.{◌≡◌, [], ◌∷◌, ◌++◌, IfOk, map, string_bytes};
ghost use Rattle.basic_toml_emit.specs.Open.{key_set};
ghost use Rattle.basic_toml_serde.specs.KeysTo.{stages_after, with_stage, is_key_place, key_of, set_keys};
ghost use Rattle.basic_toml_serde.specs.Listed.{item_of};
ghost use Rattle.basic_toml_serde.specs.Stages.{stage_of};

use crate::items::Item;
use std::alloc::{AllocError, Global};
use std::marker::Model;

/// How far the entry of a table has come. An array has no key.
#[derive(Drop)]
enum Stage {
    NoKey,
    /// The next item is a key.
    KeyPlace,
    /// The value of this key comes next, or is open.
    KeySet(String),
}

/// What is open behind some items, the innermost last.
#[derive(Drop)]
pub(crate) struct Trail {
    stages: Vec<Stage>,
    alloc: Global,
}

impl Model for Trail {
    ghost use Rattle.std.specs.Prelude.{List};
    ghost use Rattle.basic_toml_emit.specs.Open.{Stage};
    ghost use Rattle.basic_toml_serde.specs.Stages.{stages_of};

    ghost Value = { List Stage };

    // the innermost first
    ghost view = { λ trail. stages_of trail.stages.items };
}

#[tactic(auto, using(crate::proofs::TrailsLead::stages_follow))]
impl Trail {
    /// Nothing is open.
    pub(crate) fn new(alloc: Global) -> Trail
        ensures { result ≡ [] }
    {
        Trail {
            stages: Vec::new(alloc),
            alloc,
        }
    }

    /// Goes on behind one item more.
    pub(crate) fn follow(&mut self, item: &Item) -> Result<(), AllocError>
        ensures { IfOk result (λ _. self.new ≡ stages_after self.old (item_of item.now)) }
    {
        match item {
            Item::OpenArray | Item::OpenTable => self.push(Stage::NoKey),
            Item::Close => {
                self.stages.pop();
                self.set(Stage::NoKey)
            }
            Item::Key => self.set(Stage::KeyPlace),
            Item::Field(name) => self.set_key(name.as_str()),
            Item::Text(text) if self.is_at_key() => self.set_key(text.as_str()),
            Item::Element => Ok(()),
            _ => self.set(Stage::NoKey),
        }
    }

    fn is_at_key(&self) -> bool
        ensures { result ≡ is_key_place self.now }
    {
        matches!(self.stages.last(), Some(Stage::KeyPlace))
    }

    fn set_key(&mut self, key: &str) -> Result<(), AllocError>
        ensures { IfOk result (λ _. self.new ≡ with_stage (key_set key.now) self.old) }
    {
        let key = String::from_str(self.alloc, key)?;
        self.set(Stage::KeySet(key))
    }

    // The innermost comes to this stage, if anything is open.
    fn set(&mut self, stage: Stage) -> Result<(), AllocError>
        ensures { IfOk result (λ _. self.new ≡ with_stage (stage_of stage) self.old) }
    {
        match self.stages.pop() {
            Some(_) => self.push(stage),
            None => Ok(()),
        }
    }

    fn push(&mut self, stage: Stage) -> Result<(), AllocError>
        ensures { IfOk result (λ _. self.new ≡ stage_of stage ∷ self.old) }
    {
        self.stages.push(stage)?;
        Ok(())
    }

    /// The keys that are set, the outermost first.
    #[tactic(auto, using(crate::proofs::TrailsLead::keys_taken))]
    pub(crate) fn into_keys(self) -> Result<Vec<String>, AllocError>
        ensures { IfOk result (λ keys. map string_bytes keys.items ≡ set_keys self) }
    {
        let mut keys = Vec::new(self.alloc);
        for stage in self.stages {
            add_key(&mut keys, stage)?;
        }
        Ok(keys)
    }
}

// Adds the key that is set, if one is.
#[tactic(auto, using(crate::proofs::TrailsLead::keys_taken))]
fn add_key(keys: &mut Vec<String>, stage: Stage) -> Result<(), AllocError>
    ensures { IfOk result
        (λ _. map string_bytes keys.new.items ≡ map string_bytes keys.old.items ++ key_of (stage_of stage)) }
{
    if let Stage::KeySet(key) = stage {
        keys.push(key)?;
    }
    Ok(())
}
