//! What serde's attributes say of a type and of its fields.

use crate::case::Case;
use crate::cursor::Cursor;
use crate::items::Attribute;
use crate::lexer::{Kind, Token};
use crate::literal::Literal;
use crate::refusal::{NoImpls, Reason};
use std::alloc::Global;

/// One rule of an attribute: `rename = "port"`.
#[derive(Clone, Copy)]
struct Rule<'c, 't> {
    name: Token<'t>,
    /// What stands behind its name.
    value: Cursor<'c, 't>,
}

/// What is said of a type.
#[derive(Clone, Copy)]
pub struct TypeRules {
    /// The case of its keys.
    pub case: Option<Case>,
    /// Whether it refuses keys that it does not know.
    pub is_strict: bool,
}

/// What is said of a field or a variant.
#[derive(Clone, Copy)]
pub struct FieldRules<'t> {
    pub key: Option<&'t str>,
    pub default: DefaultRule<'t>,
    /// Where it is said that an option may be left out.
    pub skips_none: Option<usize>,
}

/// Whether a field has a default.
#[derive(Clone, Copy)]
pub enum DefaultRule<'t> {
    Unsaid,
    /// That of its type: where this is said.
    OfType(usize),
    /// A value, and where it stands.
    Value(usize, Literal<'t>),
}

// What is taken elsewhere, and says nothing of a choice of two forms.
const NOT_OF_FORMS: [&str; 6] = [
    "rename",
    "rename_all",
    "deny_unknown_fields",
    "default",
    "alias",
    "skip_serializing_if",
];

/// Whether it is an attribute of serde's.
pub fn is_rule(attribute: &Attribute<'_, '_>) -> bool {
    attribute.inside.sees("serde")
}

/// What the attributes of a type say of it.
pub fn type_rules<'t>(attributes: &[Attribute<'_, 't>]) -> Result<TypeRules, NoImpls<'t>> {
    let mut rules = TypeRules {
        case: None,
        is_strict: false,
    };
    for attribute in attributes {
        for part in rules_in(attribute)?.parts() {
            let rule = Rule::of(part)?;
            match rule.name.text {
                "rename_all" => rules.case = Some(case_in(rule)?),
                "deny_unknown_fields" => rules.is_strict = true,
                "rename" => {
                    key_in(rule)?;
                }
                _ => return Err(not_taken(rule)),
            }
        }
    }
    Ok(rules)
}

/// Whether the attributes of an enum say that its variants are told apart by what they hold.
pub fn is_untagged<'t>(attributes: &[Attribute<'_, 't>]) -> Result<bool, NoImpls<'t>> {
    for attribute in attributes {
        for part in rules_in(attribute)?.parts() {
            if part.sees("untagged") {
                return Ok(true);
            }
        }
    }
    Ok(false)
}

/// Refuses what the attributes of a choice of two forms, or of its variants, say but for these words.
pub fn refuse_rules<'t>(
    attributes: &[Attribute<'_, 't>],
    taken: &[&str],
) -> Result<(), NoImpls<'t>> {
    for attribute in attributes {
        for part in rules_in(attribute)?.parts() {
            let rule = Rule::of(part)?;
            let word = rule.name.text;
            if !taken.contains(&word) {
                return Err(if NOT_OF_FORMS.contains(&word) {
                    NoImpls::At(rule.name.at, Reason::OfForms(word))
                } else {
                    not_taken(rule)
                });
            }
        }
    }
    Ok(())
}

/// What the attributes of a field or a variant say of it.
pub fn field_rules<'t>(
    alloc: Global,
    attributes: &[Attribute<'_, 't>],
) -> Result<FieldRules<'t>, NoImpls<'t>> {
    let mut rules = FieldRules {
        key: None,
        default: DefaultRule::Unsaid,
        skips_none: None,
    };
    for attribute in attributes {
        for part in rules_in(attribute)?.parts() {
            let rule = Rule::of(part)?;
            match rule.name.text {
                "rename" => rules.key = Some(key_in(rule)?),
                "default" => rules.default = default_in(alloc, rule)?,
                "skip_serializing_if" => rules.skips_none = Some(skip_in(rule)?),
                "alias" => return Err(NoImpls::At(rule.name.at, Reason::Alias)),
                _ => return Err(not_taken(rule)),
            }
        }
    }
    Ok(rules)
}

impl<'c, 't> Rule<'c, 't> {
    // The rule that a part of an attribute is.
    fn of(part: Cursor<'c, 't>) -> Result<Rule<'c, 't>, NoImpls<'t>> {
        let mut value = part;
        let name = value.take(Kind::Word, "a word of serde's attributes")?;
        Ok(Rule { name, value })
    }
}

// The rules of an attribute, between commas; none of one that is not serde's.
fn rules_in<'c, 't>(attribute: &Attribute<'c, 't>) -> Result<Cursor<'c, 't>, NoImpls<'t>> {
    let mut inside = attribute.inside;
    if !inside.takes("serde") {
        return Ok(inside.nothing());
    }
    inside.expect("(")?;
    let rules = inside.group()?;
    for part in rules.parts() {
        Rule::of(part)?;
    }
    Ok(rules)
}

fn not_taken<'t>(rule: Rule<'_, 't>) -> NoImpls<'t> {
    NoImpls::At(rule.name.at, Reason::NotTaken(rule.name.text))
}

// The string that a rule has behind its equals sign, without its quotes, and where it stands.
fn text_in<'t>(rule: Rule<'_, 't>) -> Result<(usize, &'t str), NoImpls<'t>> {
    let mut value = rule.value;
    if value.sees("(") {
        return Err(NoImpls::At(value.at(), Reason::TwoNames));
    }
    value.expect("=")?;
    let token = value.take(Kind::Text, "a string")?;
    match unquoted(token.text) {
        Some(text) => Ok((token.at, text)),
        None => Err(NoImpls::At(token.at, Reason::Key)),
    }
}

/// The text between quotes; `None` where it has escapes or is no plain string.
pub fn unquoted(literal: &str) -> Option<&str> {
    let text = literal.strip_prefix('"')?.strip_suffix('"')?;
    (!text.contains('\\')).then_some(text)
}

/// Whether a key can be written into a list of fields and into code alike.
pub fn is_plain(key: &str) -> bool {
    key.bytes().all(|b| (b == b' ' || b.is_ascii_graphic()) && b != b'"' && b != b'\\')
}

fn key_in<'t>(rule: Rule<'_, 't>) -> Result<&'t str, NoImpls<'t>> {
    match text_in(rule)? {
        (_, key) if is_plain(key) => Ok(key),
        (at, _) => Err(NoImpls::At(at, Reason::Key)),
    }
}

fn case_in<'t>(rule: Rule<'_, 't>) -> Result<Case, NoImpls<'t>> {
    let (at, name) = text_in(rule)?;
    Case::named(name).ok_or(NoImpls::At(at, Reason::Case))
}

fn skip_in<'t>(rule: Rule<'_, 't>) -> Result<usize, NoImpls<'t>> {
    match text_in(rule)? {
        (at, "Option::is_none") => Ok(at),
        (at, _) => Err(NoImpls::At(at, Reason::SkipIf)),
    }
}

fn default_in<'t>(alloc: Global, rule: Rule<'_, 't>) -> Result<DefaultRule<'t>, NoImpls<'t>> {
    let mut value = rule.value;
    if !value.takes("=") {
        return Ok(DefaultRule::OfType(rule.name.at));
    }
    let at = value.at();
    if matches!(value.rest.first(), Some(token) if token.kind == Kind::Text) {
        return Err(NoImpls::At(at, Reason::DefaultPath));
    }
    let literal = Literal::take(alloc, &mut value)?;
    if !value.is_empty() {
        return Err(NoImpls::At(value.at(), Reason::DefaultOfText));
    }
    Ok(DefaultRule::Value(at, literal))
}
