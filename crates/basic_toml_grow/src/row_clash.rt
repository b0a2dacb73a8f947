//! The clash of a row that is not put into its table.

ghost use Rattle.std.specs.Prelude.{◌≡◌, ℕ, [], ◌∷◌, ◌++◌, map, string_bytes, take, IfOk};
ghost use Rattle.basic_toml_read.specs.SectionView.{key_of, header_texts};
ghost use Rattle.basic_toml_grow.specs.RowStops.{key_at, SaysMet, SaysHeld};
ghost use Rattle.basic_toml_grow.specs.Rows.{reason, met_reason};

use crate::clash::{Clash, key_texts};
use crate::met::Met;
use basic_toml_read::Key;
use std::alloc::{AllocError, Global};

// The texts of the first of some keys.
fn first_texts(alloc: Global, keys: &[Key<'_>], count: usize) -> Result<Vec<String>, AllocError>
    ensures { IfOk result (λ texts. map string_bytes texts.items ≡ header_texts (take count keys.now)) }
{
    key_texts(alloc, &keys[..count.min(keys.len())])
}

/// The clash of a row with these keys that periods follow, and this last key.
pub(crate) fn row_clash(
    alloc: Global,
    met: Met,
    keys: &[Key<'_>],
    last: &str,
    offset: usize,
) -> Result<Clash, AllocError>
    ensures same { IfOk result (λ clash. reason clash ≡ met_reason met) }
    ensures named { IfOk result (λ clash. SaysMet (map key_of keys.now) (key_at offset last.now) met clash) }
{
    match met {
        Met::Memory => Ok(Clash::Memory),
        Met::Row => Clash::row(alloc, first_texts(alloc, keys, 1)?, last, offset),
        Met::Header(left) => {
            let number = (keys.len() + 1).saturating_sub(left);
            let path = first_texts(alloc, keys, number)?;
            match keys.get(number) {
                Some(key) => Clash::row(alloc, path, key.text.as_str(), key.offset),
                None => Clash::row(alloc, path, last, offset),
            }
        }
    }
}

/// The clash within a value, told as a clash of the row that holds the value.
pub(crate) fn value_clash(
    alloc: Global,
    clash: Clash,
    keys: &[Key<'_>],
    last: &str,
) -> Result<Clash, AllocError>
    ensures same { IfOk result (λ held. reason held ≡ reason clash) }
    ensures named { (offset : ℕ)
        → IfOk result (λ held. SaysHeld (map key_of keys.now ++ key_at offset last.now ∷ []) clash held) }
{
    match clash {
        Clash::Row(repeated) => {
            let mut repeated = repeated;
            let mut path = first_texts(alloc, keys, 1)?;
            if keys.is_empty() {
                path.push(String::from_str(alloc, last)?)?;
            }
            repeated.path = path;
            Ok(Clash::Row(repeated))
        }
        clash => Ok(clash),
    }
}
