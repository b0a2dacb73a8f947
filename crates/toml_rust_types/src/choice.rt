//! An enum of variants without data as a choice of TOML: each is a string.

use std::alloc::{AllocError, Global};
use toml_rust_items::declared::Member;
use toml_rust_items::edits::between;
use toml_rust_items::items::Item;
use toml_rust_items::keys::key_of;
use toml_rust_items::lexer::{Kind, Token};
use toml_rust_items::refusal::{NoImpls, Reason};
use toml_rust_items::rules::{DefaultRule, TypeRules, field_rules, unquoted};

/// An enum as a choice.
#[derive(Drop)]
pub struct Choice<'t> {
    pub name: &'t str,
    /// The path of its variants in clauses.
    pub path: String,
    pub variants: Vec<Variant<'t>>,
}

/// A variant, and the string that it is.
#[derive(Drop)]
pub struct Variant<'t> {
    pub name: &'t str,
    pub key: String,
}

/// What the impls of a choice say that a file has already.
#[derive(Drop)]
pub struct VariantList<'t> {
    names: Vec<&'t str>,
    keys: Vec<&'t str>,
}

impl<'t> VariantList<'t> {
    // The string of a variant.
    fn key(&self, name: &str) -> Option<&'t str> {
        let index = self.names.iter().position(|known| *known == name)?;
        self.keys.get(index).copied()
    }
}

/// The path of the variants of an enum in clauses, by that of its module, else by the line that an impl has already.
pub fn variants_path<'t>(
    alloc: Global,
    text: &str,
    name: Token<'t>,
    module: Option<&str>,
    item: Option<&Item<'_, 't>>,
) -> Result<String, NoImpls<'t>> {
    match (module, item) {
        (Some(module), _) => Ok(module_path(alloc, module, name.text)?),
        (None, Some(item)) => Ok(String::from_str(alloc, written_path(text, item))?),
        (None, None) => Err(NoImpls::At(name.at, Reason::NoModule)),
    }
}

fn module_path(alloc: Global, module: &str, name: &str) -> Result<String, AllocError> {
    let path = format!(in alloc; "Rattle.{module}::{name}.TheVariants")?;
    path.replacen(alloc, "::", ".specs.declared.", 1)?
        .replace(alloc, "::", ".")
}

// The path of the first `ghost use` of an impl.
fn written_path<'t>(text: &'t str, item: &Item<'_, '_>) -> &'t str {
    let mut tokens = item.tokens;
    for _ in 0..tokens.len() {
        if tokens.takes("ghost") && tokens.takes("use") {
            break;
        }
        tokens.next();
    }
    let from = tokens.at();
    tokens.skip_to("{");
    let path = between(text, from, tokens.at()).trim_end();
    path.strip_suffix('.').unwrap_or(path)
}

/// The strings of an impl, and its variants; `None` where there is no impl.
pub fn variant_list<'t>(
    alloc: Global,
    item: Option<&Item<'_, 't>>,
) -> Result<Option<VariantList<'t>>, NoImpls<'t>> {
    match item {
        Some(item) => Ok(Some(variant_list_in(alloc, item)?)),
        None => Ok(None),
    }
}

fn variant_list_in<'t>(alloc: Global, item: &Item<'_, 't>) -> Result<VariantList<'t>, NoImpls<'t>> {
    let mut names = Vec::new(alloc);
    let mut keys = Vec::new(alloc);
    let mut tokens = item.tokens;
    for _ in 0..tokens.len() {
        if tokens.takes("apart") {
            break;
        }
        if tokens.takes("codes") {
            let key = tokens.take(Kind::Text, "a key")?;
            keys.push(unquoted(key.text).unwrap_or(""))?;
        } else if let Some(token) = tokens.next() {
            if tokens.sees("↦") {
                names.push(token.text)?;
            }
        }
    }
    Ok(VariantList { names, keys })
}

/// Refuses variants that hold something.
pub fn refuse_data<'t>(declared: &[Member<'_, 't>]) -> Result<(), NoImpls<'t>> {
    match declared.iter().find(|variant| variant.has_data()) {
        Some(variant) => Err(NoImpls::At(variant.rest.at(), Reason::VariantData)),
        None => Ok(()),
    }
}

/// The variants of a choice: by what the attributes say, and, where they say nothing, by the impl that the enum has.
pub fn variants_of<'t>(
    alloc: Global,
    rules: TypeRules,
    declared: &[Member<'_, 't>],
    list: &Option<VariantList<'t>>,
) -> Result<Vec<Variant<'t>>, NoImpls<'t>> {
    let mut variants = Vec::new(alloc);
    for variant in declared {
        let name = variant.name;
        let listed = match list {
            Some(list) => list.key(name.text),
            None => None,
        };
        let key = variant_key(alloc, rules, variant, listed)?;
        if has_key(variants.as_slice(), key.as_str()) {
            return Err(NoImpls::At(name.at, Reason::RepeatedKey));
        }
        variants.push(Variant {
            name: name.text,
            key,
        })?;
    }
    Ok(variants)
}

fn has_key(variants: &[Variant<'_>], key: &str) -> bool {
    variants.iter().any(|variant| variant.key.as_str() == key)
}

fn variant_key<'t>(
    alloc: Global,
    types: TypeRules,
    variant: &Member<'_, 't>,
    listed: Option<&'t str>,
) -> Result<String, NoImpls<'t>> {
    let rules = field_rules(alloc, variant.attributes.as_slice())?;
    match (rules.default, rules.skips_none) {
        (DefaultRule::Unsaid, None) => {}
        (DefaultRule::OfType(at) | DefaultRule::Value(at, _), _) | (_, Some(at)) => {
            return Err(NoImpls::At(at, Reason::OfVariant));
        }
    }
    key_of(alloc, variant.name, rules.key.or(listed), types.case, true)
}
