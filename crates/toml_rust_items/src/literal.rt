//! The defaults of fields: truth values, integers, texts and empty lists.

use crate::cursor::Cursor;
use crate::lexer::Kind;
use crate::refusal::{NoImpls, Reason};
use std::alloc::{AllocError, Global};

/// A value that stands in the text.
#[derive(Clone, Copy)]
pub enum Literal<'t> {
    Bool(bool),
    Integer(i128),
    Text(&'t str),
    EmptyList,
}

impl<'t> Literal<'t> {
    /// The default of a type; `None` where it is none of these.
    pub fn default_of(kind: &str) -> Option<Literal<'t>> {
        match kind {
            "bool" => Some(Literal::Bool(false)),
            "String" => Some(Literal::Text("")),
            _ if kind.starts_with("Vec<") => Some(Literal::EmptyList),
            _ => limits(kind).and(Some(Literal::Integer(0))),
        }
    }

    /// Takes the value that stands in an attribute.
    pub fn take(alloc: Global, tokens: &mut Cursor<'_, 't>) -> Result<Literal<'t>, NoImpls<'t>> {
        if tokens.takes("true") {
            return Ok(Literal::Bool(true));
        }
        if tokens.takes("false") {
            return Ok(Literal::Bool(false));
        }
        let is_negative = tokens.takes("-");
        let size = i128::from(take_number(alloc, tokens)?);
        Ok(Literal::Integer(if is_negative { -size } else { size }))
    }

    /// Takes the value that stands in a list of fields.
    pub fn take_listed(
        alloc: Global,
        tokens: &mut Cursor<'_, 't>,
    ) -> Result<Literal<'t>, NoImpls<'t>> {
        if !tokens.takes("(") {
            return Literal::take(alloc, tokens);
        }
        let value = if tokens.takes("pos") {
            i128::from(take_number(alloc, tokens)?)
        } else {
            tokens.expect("negsuc")?;
            -1 - i128::from(take_number(alloc, tokens)?)
        };
        tokens.expect(")")?;
        Ok(Literal::Integer(value))
    }

    /// Whether it is a value of a type.
    pub fn is_of(self, kind: &str) -> bool {
        match (self, limits(kind)) {
            (Literal::Bool(_), _) => kind == "bool",
            (Literal::Integer(value), Some((least, most))) => least <= value && value <= most,
            (Literal::Text(_), _) => kind == "String",
            (Literal::EmptyList, _) => kind.starts_with("Vec<"),
            _ => false,
        }
    }

    /// The word for a field that has it as its default.
    pub fn entry_word(self) -> &'static str {
        match self {
            Literal::Text(_) => "or_text",
            Literal::EmptyList => "or_empty",
            _ => "or",
        }
    }

    /// The word by which a list of fields has it, at a type that it is of; nothing where it stands there as it is.
    pub fn word(self, kind: &str) -> &'static str {
        match self {
            Literal::Bool(true) => "true",
            Literal::Bool(false) => "false",
            Literal::Integer(value) if value < 0 => "negsuc",
            Literal::Integer(_) if kind.starts_with('i') => "pos",
            _ => "",
        }
    }

    /// How a list of fields has it behind the key, at a type that it is of.
    pub fn listed(self, alloc: Global, kind: &str) -> Result<String, AllocError> {
        match self {
            Literal::Bool(value) => format!(in alloc; " {value}"),
            Literal::Integer(value) if value < 0 => format!(in alloc; " (negsuc {})", -1 - value),
            Literal::Integer(value) if kind.starts_with('i') => format!(in alloc; " (pos {value})"),
            Literal::Integer(value) => format!(in alloc; " {value}"),
            Literal::Text(text) => format!(in alloc; " \"{text}\""),
            Literal::EmptyList => Ok(String::new(alloc)),
        }
    }

    /// How the code has it behind the key.
    pub fn argument(self, alloc: Global) -> Result<String, AllocError> {
        match self {
            Literal::Bool(value) => format!(in alloc; ", {value}"),
            Literal::Integer(value) => format!(in alloc; ", {value}"),
            Literal::Text(text) => format!(in alloc; ", \"{text}\""),
            Literal::EmptyList => Ok(String::new(alloc)),
        }
    }
}

// Takes a number in any base.
fn take_number<'t>(alloc: Global, tokens: &mut Cursor<'_, 't>) -> Result<u64, NoImpls<'t>> {
    let refused = NoImpls::At(tokens.at(), Reason::DefaultOfText);
    match tokens.take(Kind::Number, "a number") {
        Ok(token) => number(token.text.replace(alloc, '_', "")?.as_str()).ok_or(refused),
        Err(_) => Err(refused),
    }
}

fn number(digits: &str) -> Option<u64> {
    let (base, digits) = match digits.split_at_checked(2) {
        Some(("0x", digits)) => (16, digits),
        Some(("0o", digits)) => (8, digits),
        Some(("0b", digits)) => (2, digits),
        _ => (10, digits),
    };
    u64::from_str_radix(digits, base).ok()
}

// The least and the greatest value of an integer type; `None` of any other type.
fn limits(kind: &str) -> Option<(i128, i128)> {
    match kind {
        "i8" => Some((-0x80, 0x7f)),
        "i16" => Some((-0x8000, 0x7fff)),
        "i32" => Some((-0x8000_0000, 0x7fff_ffff)),
        "i64" => Some((-0x8000_0000_0000_0000, 0x7fff_ffff_ffff_ffff)),
        "u8" => Some((0, 0xff)),
        "u16" => Some((0, 0xffff)),
        "u32" => Some((0, 0xffff_ffff)),
        "u64" => Some((0, 0xffff_ffff_ffff_ffff)),
        _ => None,
    }
}
