//! The messages of errors that a type makes at a node.
ghost use Rattle.std.specs.Prelude.{◌≡◌, Some, IfOk, map, string_bytes};
ghost use Rattle.std.specs.Char.{encode_utf8};
ghost use Rattle.std.specs.List.{flat_map};
ghost use Rattle.basic_toml_tree.specs.Nodes.{node_data};
ghost use Rattle.basic_toml_error.specs.Fault as fault;
ghost use Rattle.basic_toml_error.specs.KindView.{kind_of};
ghost use Rattle.basic_toml_error.specs.NodeFaults.{found, escaped_quotes, behind_comma, offered, type_message, value_message, length_message};
ghost use Rattle.basic_toml_error.specs.NodeFaults.{missing_message, unknown_field_message, unknown_variant_message};

use crate::kind::ErrorKind;
use basic_toml_explain::ReadErrorKind;
use basic_toml_tree::Node;
use std::alloc::{AllocError, Global};
use std::fmt;

// What was found at a node.
#[derive(Clone, Copy)]
struct Found<'t, 'de>(Node<'t, 'de>);

impl<'t, 'de> fmt::Display for Found<'t, 'de> {
    ghost output = { λ f. Some (found (node_data f.0)) };

    fn fmt<W: fmt::Write>(&self, f: &mut fmt::Formatter<W>) -> fmt::Result {
        let node = self.0;
        if let Some(truth) = node.as_bool() {
            return write!(f, "boolean `{truth}`");
        }
        if let Some(number) = node.as_integer() {
            return write!(f, "integer `{number}`");
        }
        if let Some(float) = node.as_float() {
            return write!(f, "floating point `{}`", float.as_str());
        }
        if let Some(text) = node.text() {
            return write!(f, "string \"{}\"", Quoted(text));
        }
        if node.is_table() {
            write!(f, "map")
        } else {
            write!(f, "sequence")
        }
    }
}

// A character, with a backslash before a quote and a backslash.
#[derive(Clone, Copy)]
struct QuotedChar(char);

impl fmt::Display for QuotedChar {
    ghost output = { λ c. Some (escaped_quotes (encode_utf8 c.0)) };

    #[tactic(auto, using(crate::proofs::EscapedQuotes::plain_char))]
    fn fmt<W: fmt::Write>(&self, f: &mut fmt::Formatter<W>) -> fmt::Result {
        match self.0 {
            '"' => f.write_str("\\\""),
            '\\' => f.write_str("\\\\"),
            c => f.write_char(c),
        }
    }
}

// The text of a string, with a backslash before each quote and each backslash.
#[derive(Clone, Copy)]
struct Quoted<'a>(&'a str);

impl<'a> fmt::Display for Quoted<'a> {
    ghost output = { λ q. Some (escaped_quotes q.0.now) };

    fn fmt<W: fmt::Write>(&self, f: &mut fmt::Formatter<W>) -> fmt::Result {
        for c in self.0.chars() {
            write!(f, "{}", QuotedChar(c))?;
        }
        Ok(())
    }
}

// Each name behind a comma.
#[derive(Clone, Copy)]
struct WithCommas<'a>(&'a [&'a str]);

impl<'a> fmt::Display for WithCommas<'a> {
    ghost output = { λ names. Some (flat_map behind_comma (map (λ name. name.now) names.0.now)) };

    fn fmt<W: fmt::Write>(&self, f: &mut fmt::Formatter<W>) -> fmt::Result {
        for name in self.0 {
            write!(f, ", `{name}`")?;
        }
        Ok(())
    }
}

// What is offered in place of an unknown name, `kinds` being what the names are names of.
#[derive(Clone, Copy)]
struct Offered<'a> {
    kinds: &'a str,
    names: &'a [&'a str],
}

impl<'a> fmt::Display for Offered<'a> {
    ghost output = { λ o. Some (offered o.kinds.now (map (λ name. name.now) o.names.now)) };

    fn fmt<W: fmt::Write>(&self, f: &mut fmt::Formatter<W>) -> fmt::Result {
        let Some((name, others)) = self.names.split_first() else {
            return write!(f, ", there are no {}", self.kinds);
        };
        let Some((other, more)) = others.split_first() else {
            return write!(f, ", expected `{name}`");
        };
        match more.split_first() {
            None => write!(f, ", expected `{name}` or `{other}`"),
            Some(_) => write!(f, ", expected one of `{name}`{}", WithCommas(others)),
        }
    }
}

#[tactic(auto, unfolding(crate::specs::NodeFaults::type_message))]
pub(crate) fn type_message(
    alloc: Global,
    node: Node<'_, '_>,
    expected: &str,
) -> Result<String, AllocError>
    ensures { IfOk result (λ text. string_bytes text ≡ type_message (node_data node.entry) expected.now) }
{
    let mut text = String::new(alloc);
    write!(text, "invalid type: {}, expected {expected}", Found(node))?;
    Ok(text)
}

#[tactic(auto, unfolding(crate::specs::NodeFaults::value_message))]
pub(crate) fn value_message(
    alloc: Global,
    node: Node<'_, '_>,
    expected: &str,
) -> Result<String, AllocError>
    ensures { IfOk result (λ text. string_bytes text ≡ value_message (node_data node.entry) expected.now) }
{
    let mut text = String::new(alloc);
    write!(text, "invalid value: {}, expected {expected}", Found(node))?;
    Ok(text)
}

#[tactic(auto, unfolding(crate::specs::NodeFaults::length_message))]
pub(crate) fn length_message(
    alloc: Global,
    length: usize,
    expected: &str,
) -> Result<String, AllocError>
    ensures { IfOk result (λ text. string_bytes text ≡ length_message length expected.now) }
{
    let mut text = String::new(alloc);
    write!(text, "invalid length {length}, expected {expected}")?;
    Ok(text)
}

#[tactic(auto, unfolding(crate::specs::NodeFaults::missing_message))]
pub(crate) fn missing_message(alloc: Global, field: &str) -> Result<String, AllocError>
    ensures { IfOk result (λ text. string_bytes text ≡ missing_message field.now) }
{
    let mut text = String::new(alloc);
    write!(text, "missing field `{field}`")?;
    Ok(text)
}

#[tactic(auto, unfolding(crate::specs::NodeFaults::unknown_field_message))]
pub(crate) fn unknown_field_kind(
    alloc: Global,
    field: &str,
    fields: &[&str],
) -> Result<ErrorKind, AllocError>
    ensures { let message = unknown_field_message field.now (map (λ name. name.now) fields.now) in
        IfOk result (λ kind. kind_of kind ≡ fault.unknown_field field.now message) }
{
    let offered = Offered {
        kinds: "fields",
        names: fields,
    };
    let mut message = String::new(alloc);
    write!(message, "unknown field `{field}`{offered}")?;
    Ok(ErrorKind::UnknownField {
        key: String::from_str(alloc, field)?,
        message,
    })
}

#[tactic(auto, unfolding(crate::specs::NodeFaults::unknown_variant_message))]
pub(crate) fn unknown_variant_message(
    alloc: Global,
    variant: &str,
    variants: &[&str],
) -> Result<String, AllocError>
    ensures { IfOk result (λ text.
        string_bytes text ≡ unknown_variant_message variant.now (map (λ name. name.now) variants.now)) }
{
    let offered = Offered {
        kinds: "variants",
        names: variants,
    };
    let mut text = String::new(alloc);
    write!(text, "unknown variant `{variant}`{offered}")?;
    Ok(text)
}

/// Another thing than what is wanted.
pub(crate) fn wanted_kind(
    alloc: Global,
    expected: &str,
    found: &str,
) -> Result<ErrorKind, AllocError>
    ensures { IfOk result (λ kind. kind_of kind ≡ fault.wanted expected.now found.now) }
{
    Ok(ErrorKind::Reading(ReadErrorKind::Wanted {
        expected: String::from_str(alloc, expected)?,
        found: String::from_str(alloc, found)?,
    }))
}
