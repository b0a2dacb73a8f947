//! The first of some items that is refused, and the keys that lead to an item.
ghost use Rattle.std.specs.Prelude.{◌≡◌, IfOk, IfSome, MatchOption, map, string_bytes, take};
ghost use Rattle.basic_toml_write.specs.Serializer.{error_of};
ghost use Rattle.basic_toml_write.specs.declared.error.WriteError.TheVariants.{OutOfMemory};
ghost use Rattle.basic_toml_serde.specs.KeysTo.{keys_to};
ghost use Rattle.basic_toml_serde.specs.Listed.{item_of, listed};
ghost use Rattle.basic_toml_serde.specs.Refused.{TakesIf, IsFirstRefused};

use crate::items::Item;
use crate::trail::Trail;
use basic_toml::{Serialize, Serializer, WriteError};
use std::alloc::{AllocError, Global};

/// Why an item is refused, and the keys that lead to it.
#[derive(Drop)]
pub(crate) struct Refusal {
    pub(crate) error: WriteError,
    pub(crate) keys: Vec<String>,
}

/// The first of these items that a serializer refuses, if it refuses one.
pub(crate) fn first_refused(alloc: Global, items: &[Item]) -> Result<Option<Refusal>, AllocError>
    ensures { IfOk result (λ found. IfSome found (IsFirstRefused (listed items.now))) }
{
    let mut ser = Serializer::new(alloc);
    let mut trail = Trail::new(alloc);
    for item in items {
        if !is_taken(alloc, item, &mut ser) {
            return Ok(Some(Refusal {
                error: kept_error(ser),
                keys: trail.into_keys()?,
            }));
        }
        trail.follow(item)?;
    }
    Ok(None)
}

/// The keys that lead to the item of this number.
pub(crate) fn keys_to_item(
    alloc: Global,
    items: &[Item],
    at: usize,
) -> Result<Vec<String>, AllocError>
    ensures { IfOk result (λ keys. map string_bytes keys.items ≡ keys_to (listed (take at items.now))) }
{
    let mut trail = Trail::new(alloc);
    let before = items.get(..at).unwrap_or(items);
    for item in before {
        trail.follow(item)?;
    }
    trail.into_keys()
}

// Whether a serializer takes an item.
#[tactic(auto, using(crate::proofs::ItemsAreTaken::whether_taken))]
fn is_taken(alloc: Global, item: &Item, ser: &mut Serializer) -> bool
    ensures { TakesIf result (item_of item.now) ser.old ser.new }
{
    item.serialize(alloc, ser).is_ok() && !ser.has_refused()
}

// The error that a serializer keeps, or want of memory where it keeps none.
fn kept_error(ser: Serializer) -> WriteError
    ensures { MatchOption (error_of ser) (result ≡ OutOfMemory) (λ e. result ≡ e) }
{
    if !ser.has_refused() {
        return WriteError::OutOfMemory;
    }
    match ser.finish() {
        Ok(_) => unreachable!(),
        Err(error) => error,
    }
}
