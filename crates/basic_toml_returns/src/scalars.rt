//! Numbers, truth values and strings return.
ghost use Rattle.basic_toml_returns.specs.ScalarsReturn.{bool_back, float_back, signed_back, string_back, unsigned_back};

use crate::Returns;
use basic_toml::Float;

impl<'de> Returns<'de> for i8 {
    ghost read_back = { signed_back 7 };

    ghost returns = { ⟦<i8 as Returns<'static>>⟧.read_back.returns };
}

impl<'de> Returns<'de> for i16 {
    ghost read_back = { signed_back 15 };

    ghost returns = { ⟦<i16 as Returns<'static>>⟧.read_back.returns };
}

impl<'de> Returns<'de> for i32 {
    ghost read_back = { signed_back 31 };

    ghost returns = { ⟦<i32 as Returns<'static>>⟧.read_back.returns };
}

impl<'de> Returns<'de> for i64 {
    ghost read_back = { signed_back 63 };

    ghost returns = { ⟦<i64 as Returns<'static>>⟧.read_back.returns };
}

impl<'de> Returns<'de> for u8 {
    ghost read_back = { unsigned_back 8 };

    ghost returns = { ⟦<u8 as Returns<'static>>⟧.read_back.returns };
}

impl<'de> Returns<'de> for u16 {
    ghost read_back = { unsigned_back 16 };

    ghost returns = { ⟦<u16 as Returns<'static>>⟧.read_back.returns };
}

impl<'de> Returns<'de> for u32 {
    ghost read_back = { unsigned_back 32 };

    ghost returns = { ⟦<u32 as Returns<'static>>⟧.read_back.returns };
}

impl<'de> Returns<'de> for u64 {
    ghost read_back = { unsigned_back 64 };

    ghost returns = { ⟦<u64 as Returns<'static>>⟧.read_back.returns };
}

impl<'de> Returns<'de> for bool {
    ghost read_back = { bool_back };

    ghost returns = { ⟦<bool as Returns<'static>>⟧.read_back.returns };
}

/// A float by its canonical text.
impl<'de> Returns<'de> for Float {
    ghost read_back = { float_back };

    ghost returns = { ⟦<Float as Returns<'static>>⟧.read_back.returns };
}

impl<'de> Returns<'de> for String {
    ghost read_back = { string_back };

    ghost returns = { ⟦<String as Returns<'static>>⟧.read_back.returns };
}
