//! The text of a key or a string. A short one stands in place, so that most take no memory of their own.
ghost use Rattle.std.specs.Prelude.{◌≡◌, ◌≤◌, ◌+◌, Some, length, take, string_bytes, IfOk};
ghost use Rattle.std.specs.Str.{IsUtf8};

use std::alloc::{AllocError, Global};
use std::{fmt, str};

// How many bytes a text has at most that stands in place: with these it is as large as a `String` and a tag.
const ROOM: usize = 24;

// A text of at most `ROOM` bytes.
#[derive(Drop)]
struct Short {
    len: u32,
    bytes: [u8; 24],
    ghost fits: { len ≤ 24 },
    ghost text: { ∥ IsUtf8 (take len bytes) ∥₁ },
}

impl Short {
    ghost use Rattle.basic_toml_value.specs.Text.{short_bytes};

    #[inline]
    fn of(text: &str) -> Short
        requires { length text.now ≤ 24 }
        ensures { short_bytes result ≡ text.now }
    {
        let mut bytes = [0; ROOM];
        copy_few(text.as_bytes(), &mut bytes);
        Short {
            len: text.len() as u32,
            bytes,
        }
    }

    #[inline]
    fn as_str(&self) -> &str
        ensures { result.now ≡ short_bytes self.now }
    {
        unsafe { str::from_utf8_unchecked(&self.bytes[..self.len as usize]) }
    }
}

// Copies a few bytes by their first and their last ones, as many of each as a register holds: for so few, `memcpy` takes
// more.
#[inline(always)]
fn copy_few(from: &[u8], to: &mut [u8; 24])
    requires { length from.now ≤ 24 }
    ensures { take (length from.now) to.new ≡ from.now }
{
    match from.len() {
        16.. => copy_ends::<16>(from, to),
        8.. => copy_ends::<8>(from, to),
        4.. => copy_ends::<4>(from, to),
        2.. => copy_ends::<2>(from, to),
        1 => to[0] = from[0],
        _ => {}
    }
}

// Copies the first and the last so many bytes, which are all of them.
#[inline(always)]
fn copy_ends<const N: usize>(from: &[u8], to: &mut [u8; 24])
    requires enough { N ≤ length from.now }
    requires all { length from.now ≤ N + N }
    requires fits { length from.now ≤ 24 }
    ensures { take (length from.now) to.new ≡ from.now }
{
    let last = from.len() - N;
    to[..N].copy_from_slice(&from[..N]);
    to[last..last + N].copy_from_slice(&from[last..]);
}

// Where a text stands.
#[derive(Drop)]
enum Form {
    // In place.
    Short(Short),
    // In memory of its own.
    Long(String),
}

/// The text of a key or of a string value (TOML v0.5.0, "Keys", "String"). One of at most 24 bytes takes no memory of
/// its own.
///
/// ```text
/// let text = Text::from_str(alloc, words)?;
/// let same = Text::from(String::from_str(alloc, words)?); // the `String` is kept as it is
/// let found = Value::String(same).as_str(); // Some(words)
/// ```
///
/// This is from `toml_vectors`.
#[derive(Drop)]
pub struct Text {
    form: Form,
}

impl Text {
    ghost use Rattle.basic_toml_value.specs.Text.{text_bytes};

    /// A copy of this text.
    ///
    /// # Errors
    ///
    /// `AllocError` where memory for a text of more than 24 bytes was refused.
    #[tactic(auto, unfolding(crate::specs::Text::text_bytes))]
    #[inline]
    pub fn from_str(alloc: Global, text: &str) -> Result<Text, AllocError>
        ensures ok { IfOk result (λ copy. text_bytes copy ≡ text.now) }
    {
        let form = if text.len() <= ROOM {
            Form::Short(Short::of(text))
        } else {
            Form::Long(String::from_str(alloc, text)?)
        };
        Ok(Text { form })
    }

    // The text of this string, in place where it fits there: for which no memory is needed.
    #[tactic(auto, unfolding(crate::specs::Text::text_bytes))]
    #[inline]
    pub(crate) fn of(text: String) -> Text
        ensures { text_bytes result ≡ string_bytes text }
    {
        let form = if text.len() <= ROOM {
            Form::Short(Short::of(text.as_str()))
        } else {
            Form::Long(text)
        };
        Text { form }
    }

    /// The text.
    #[tactic(auto, unfolding(crate::specs::Text::text_bytes))]
    #[inline]
    pub fn as_str(&self) -> &str
        ensures value { result.now ≡ text_bytes self.now }
    {
        match &self.form {
            Form::Short(text) => text.as_str(),
            Form::Long(text) => text.as_str(),
        }
    }

    /// The text as a `String`: that in which it stands, or a copy of one that stands in place.
    ///
    /// # Errors
    ///
    /// `AllocError` where memory for the copy was refused.
    #[tactic(auto, unfolding(crate::specs::Text::text_bytes))]
    pub fn into_string(self, alloc: Global) -> Result<String, AllocError>
        ensures { IfOk result (λ text. string_bytes text ≡ text_bytes self) }
    {
        match self.form {
            Form::Short(text) => String::from_str(alloc, text.as_str()),
            Form::Long(text) => Ok(text),
        }
    }
}

/// A copy stands in place where it fits there, also that of a `String`.
///
/// # Errors
///
/// `AllocError` where memory for a text of more than 24 bytes was refused.
impl Clone for Text {
    ghost use Rattle.basic_toml_value.specs.Text.{text_bytes};

    ghost is_clone = { λ text copy. text_bytes copy ≡ text_bytes text };

    #[tactic(auto, unfolding(crate::specs::Text::text_bytes))]
    fn clone(&self) -> Result<Text, AllocError> {
        match &self.form {
            Form::Short(text) => Ok(Text {
                form: Form::Short(Short::of(text.as_str())),
            }),
            Form::Long(text) => Text::from_str(*text.allocator(), text.as_str()),
        }
    }
}

/// The text of a string, which is kept as it is.
impl From<String> for Text {
    ghost use Rattle.basic_toml_value.specs.Text.{text_bytes};

    ghost from_gives = { λ string text. text_bytes text ≡ string_bytes string };

    #[tactic(auto, unfolding(crate::specs::Text::text_bytes))]
    fn from(text: String) -> Text {
        Text {
            form: Form::Long(text),
        }
    }
}

impl fmt::Display for Text {
    ghost use Rattle.basic_toml_value.specs.Text.{text_bytes};

    ghost output = { λ text. Some (text_bytes text) };

    fn fmt<W: fmt::Write>(&self, f: &mut fmt::Formatter<W>) -> fmt::Result {
        f.pad(self.as_str())
    }
}

impl fmt::Debug for Text {
    fn fmt<W: fmt::Write>(&self, f: &mut fmt::Formatter<W>) -> fmt::Result {
        fmt::Debug::fmt(&self.as_str(), f)
    }
}

impl PartialEq for Text {
    ghost use Rattle.std.specs.Str.{bytes_eq};
    ghost use Rattle.std.specs.Cmp.{on_per, partial_equiv_from_equiv};
    ghost use Rattle.std.specs.Cmp.Lexicographic.{nat_list_eq_equiv};
    ghost use Rattle.std.specs.Ordering.{on};
    ghost use Rattle.basic_toml_value.specs.Text.{text_bytes};

    ghost eq = { on text_bytes bytes_eq };

    ghost laws = { on_per text_bytes (partial_equiv_from_equiv nat_list_eq_equiv) };

    fn eq(&self, other: &Text) -> bool {
        self.as_str() == other.as_str()
    }
}

impl Eq for Text {
    ghost use Rattle.basic_toml_value.specs.Text.{text_bytes};
    ghost use Rattle.std.specs.Cmp.{on_equiv};
    ghost use Rattle.std.specs.Cmp.Lexicographic.{nat_list_eq_equiv};

    ghost laws = { on_equiv text_bytes nat_list_eq_equiv };
}
