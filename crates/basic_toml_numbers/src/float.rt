//! A float, held as its canonical text.
ghost use Rattle.std.specs.Prelude.{◌≡◌, IfOk, Some, nat_eq};
ghost use Rattle.std.specs.Cmp.Rules.{comparing};
ghost use Rattle.std.specs.Cmp.Lexicographic.{pointwise};
ghost use Rattle.std.proofs.Common.{rules};
ghost use Rattle.basic_toml_numbers.specs.Numbers.{float_of};

use crate::numbers::is_float;
use std::alloc::{AllocError, Global};
use std::marker::Model;

mod text;

use text::FloatText;

/// A float (TOML v0.5.0, "Float"), as its canonical text: no plus signs and no underscores, the exponent lettered `E`.
///
/// A float is never computed. Two floats are equal where their texts are. One of at most 22 bytes takes no memory of
/// its own.
#[derive(Debug, Drop)]
pub struct Float {
    text: FloatText,
}

impl Model for Float {
    ghost use Rattle.std.specs.Prelude.{ℕ, List, IsTrue};
    ghost use Rattle.basic_toml_numbers.specs.FloatText.{text_bytes};
    ghost use Rattle.basic_toml_numbers.specs.Numbers.{is_canonical};

    ghost Value = { List ℕ };

    ghost view = { λ f. text_bytes f.text };

    ghost invariant = { λ f. IsTrue (is_canonical (text_bytes f.text)) };
}

impl Float {
    /// The float that a text writes, with a sign or not: a decimal whole part, then a fraction, an exponent, or both;
    /// or `inf` or `nan` (TOML v0.5.0, "Float"). `None` exactly where the text is no float.
    ///
    /// `+1_0.50e3` is `10.50E3`, `-inf` is itself, and `1.` and `01.0` are none.
    ///
    /// # Errors
    ///
    /// `AllocError` where memory for the text was refused.
    pub fn parse(alloc: Global, text: &str) -> Result<Option<Float>, AllocError>
        ensures { IfOk result (λ found. found ≡ float_of text.now) }
    {
        if !is_float(text.as_bytes()) {
            return Ok(None);
        }
        let text = FloatText::canonical(alloc, text)?;
        Ok(Some(Float { text }))
    }

    /// The canonical text, which read again gives this float.
    pub fn as_str(&self) -> &str
        ensures text { result.now ≡ self.now }
        ensures own_reading { float_of self.now ≡ Some self.now }
    {
        self.text.as_str()
    }

    /// A copy.
    ///
    /// # Errors
    ///
    /// `AllocError` where memory for the text was refused.
    pub fn clone(&self) -> Result<Float, AllocError>
        ensures { IfOk result (λ copy. copy ≡ self.now) }
    {
        Ok(Float {
            text: self.text.clone()?,
        })
    }
}

/// The same as `Float::parse`, with its errors.
pub fn float_of(alloc: Global, text: &str) -> Result<Option<Float>, AllocError>
    ensures { IfOk result (λ found. found ≡ float_of text.now) }
{
    Float::parse(alloc, text)
}

impl PartialEq for Float {
    ghost eq = { pointwise nat_eq };

    ghost laws = { Prim.search (comparing, rules) };

    fn eq(&self, other: &Float) -> bool {
        self.as_str() == other.as_str()
    }
}

impl Eq for Float {
    ghost laws = { Prim.search (comparing, rules) };
}
