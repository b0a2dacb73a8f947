//! The text of a key, as a slice of the text that was read or as a copy.
ghost use Rattle.std.specs.Prelude.{◌≡◌, length, IfOk, IfErr};
ghost use Rattle.std.specs.Cow.{IsOwnedStr};
ghost use Rattle.basic_toml_read.specs.KeyText.{cow_of, key_text_bytes};

use std::alloc::{AllocError, Global};
use std::borrow::CowStr;

/// The text of a key. Each row holds one, and few of them are escaped. So the owned text is boxed, and no row is
/// larger for it.
#[derive(Drop)]
pub enum KeyText<'de> {
    /// It stands as it is in the text that was read.
    Borrowed(&'de str),
    /// A copy, its escapes resolved.
    Owned(Box<String>),
}

impl<'de> KeyText<'de> {
    // The text of a string, boxed where it is owned.
    pub(crate) fn from_cow(alloc: Global, text: CowStr<'de>) -> Result<KeyText<'de>, AllocError>
        ensures same { IfOk result (λ key. cow_of key ≡ text.entry) }
        ensures owned { IfErr result (λ _. IsOwnedStr text.entry) }
    {
        match text {
            CowStr::Borrowed(text) => Ok(KeyText::Borrowed(text)),
            CowStr::Owned(text) => Ok(KeyText::Owned(Box::new(alloc, text)?)),
        }
    }

    /// The text.
    #[inline]
    pub fn as_str(&self) -> &str
        ensures value { result.now ≡ key_text_bytes self.now }
        ensures len { length result.now ≡ length (key_text_bytes self.now) }
    {
        match self {
            KeyText::Borrowed(text) => text,
            KeyText::Owned(text) => text.as_str(),
        }
    }
}
