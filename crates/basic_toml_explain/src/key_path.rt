//! The keys that lead to an error, as its text shows them.
ghost use Rattle.std.specs.Prelude.{Some, map, string_bytes};
ghost use Rattle.basic_toml_explain.specs.KeyPath.{with_periods};
ghost use Rattle.basic_toml_explain.specs.ReadErrorText.{key_text};

use std::fmt;

// Each key behind a period.
#[derive(Clone, Copy)]
struct WithPeriods<'a>(&'a [String]);

impl<'a> fmt::Display for WithPeriods<'a> {
    ghost output = { λ keys. Some (with_periods keys.0.now) };

    fn fmt<W: fmt::Write>(&self, f: &mut fmt::Formatter<W>) -> fmt::Result {
        for key in self.0 {
            write!(f, ".{key}")?;
        }
        Ok(())
    }
}

/// The keys that lead to an error, as its text shows them: `` for key `a.b` `` behind a blank, with periods between
/// the keys. Nothing where there are none.
#[derive(Clone, Copy)]
pub struct KeyPath<'a>(pub &'a [String]);

impl<'a> fmt::Display for KeyPath<'a> {
    ghost output = { λ path. Some (key_text (map string_bytes path.0.now)) };

    #[tactic(auto, using(crate::proofs::KeysJoined::keys_joined))]
    fn fmt<W: fmt::Write>(&self, f: &mut fmt::Formatter<W>) -> fmt::Result {
        match self.0.split_first() {
            Some((first, rest)) => write!(f, " for key `{first}{}`", WithPeriods(rest)),
            None => Ok(()),
        }
    }
}
