//! The keys that lead to an error.
ghost use Rattle.std.specs.Prelude.{◌≡◌, IfOk, map, string_bytes};

use std::alloc::{AllocError, Global};

/// Copies of keys.
pub(crate) fn copy_keys(alloc: Global, keys: &[String]) -> Result<Vec<String>, AllocError>
    ensures { IfOk result (λ copy. map string_bytes copy.items ≡ map string_bytes keys.now) }
{
    let mut copy = Vec::new(alloc);
    for key in keys {
        copy.push(String::from_str(alloc, key.as_str())?)?;
    }
    Ok(copy)
}
