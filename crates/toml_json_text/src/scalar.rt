//! Keys and scalars.
//!
//! A string stands between quotes as `basic_toml_layout` writes it: each escape that it writes is one of JSON's too.
ghost use Rattle.std.specs.Prelude.{◌≡◌, ◌++◌, IfOk, codes, string_bytes};
ghost use Rattle.std.specs.Fmt.{signed_decimal};
ghost use Rattle.basic_toml_layout.specs.Texts.{quoted};
ghost use Rattle.toml_json_text.specs.Json as json;

use crate::form::Form;
use crate::layout::{Layout, level_below, push_break, push_colon, push_separator};
use basic_toml_layout::Scalar;
use std::alloc::AllocError;

fn push_quoted(text: &mut String, value: &str) -> Result<(), AllocError>
    ensures { IfOk result (λ _. string_bytes text.new ≡ string_bytes text.old ++ quoted value.now) }
{
    Scalar::Text(value).write(text)
}

/// Appends a key of a level with its colon, after a comma where another stands before it.
#[tactic(auto, unfolding(crate::specs::Json::name_text))]
pub fn push_name(
    text: &mut String,
    layout: Layout,
    level: usize,
    is_later: bool,
    key: &str,
) -> Result<(), AllocError>
    ensures { IfOk result (λ _. string_bytes text.new
        ≡ string_bytes text.old ++ json.name_text layout level is_later key.now) }
{
    push_separator(text, layout, level, is_later)?;
    push_quoted(text, key)?;
    push_colon(text, layout)
}

// The beginning of a tagged scalar of a level.
#[tactic(auto, unfolding(crate::specs::Json::type_text))]
fn push_type(text: &mut String, layout: Layout, level: usize, kind: &str) -> Result<(), AllocError>
    ensures { IfOk result (λ _. string_bytes text.new ≡ string_bytes text.old ++ json.type_text layout level kind.now) }
{
    let below = level_below(level)?;
    text.push('{')?;
    push_name(text, layout, below, false, "type")?;
    push_between_quotes(text, kind)?;
    push_name(text, layout, below, true, "value")
}

// The end of a tagged scalar of a level.
fn push_end(text: &mut String, layout: Layout, level: usize) -> Result<(), AllocError>
    ensures { IfOk result (λ _. string_bytes text.new
        ≡ string_bytes text.old ++ (json.break layout level ++ codes "}")) }
{
    push_break(text, layout, level)?;
    text.push('}')
}

// A text without characters that JSON escapes.
fn push_between_quotes(text: &mut String, value: &str) -> Result<(), AllocError>
    ensures { IfOk result (λ _. string_bytes text.new ≡ string_bytes text.old ++ json.between_quotes value.now) }
{
    text.push('"')?;
    text.push_str(value)?;
    text.push('"')
}

// A scalar with its type; its text has no characters that JSON escapes.
#[tactic(auto, unfolding(crate::specs::Json::tagged))]
fn push_tagged(
    text: &mut String,
    layout: Layout,
    level: usize,
    kind: &str,
    value: &str,
) -> Result<(), AllocError>
    ensures { IfOk result (λ _. string_bytes text.new ≡ string_bytes text.old
        ++ json.tagged layout level kind.now (json.between_quotes value.now)) }
{
    push_type(text, layout, level, kind)?;
    push_between_quotes(text, value)?;
    push_end(text, layout, level)
}

#[tactic(auto, unfolding(crate::specs::Json::tagged))]
fn push_tagged_string(
    text: &mut String,
    layout: Layout,
    level: usize,
    value: &str,
) -> Result<(), AllocError>
    ensures { IfOk result (λ _. string_bytes text.new ≡ string_bytes text.old
        ++ json.tagged layout level (codes "string") (quoted value.now)) }
{
    push_type(text, layout, level, "string")?;
    push_quoted(text, value)?;
    push_end(text, layout, level)
}

fn push_quoted_integer(text: &mut String, number: i64) -> Result<(), AllocError>
    ensures { IfOk result (λ _. string_bytes text.new ≡ string_bytes text.old
        ++ json.between_quotes (signed_decimal number)) }
{
    text.push('"')?;
    Scalar::Signed(number).write(text)?;
    text.push('"')
}

#[tactic(auto, unfolding(crate::specs::Json::tagged))]
fn push_tagged_integer(
    text: &mut String,
    layout: Layout,
    level: usize,
    number: i64,
) -> Result<(), AllocError>
    ensures { IfOk result (λ _. string_bytes text.new ≡ string_bytes text.old
        ++ json.tagged layout level (codes "integer") (json.between_quotes (signed_decimal number))) }
{
    push_type(text, layout, level, "integer")?;
    push_quoted_integer(text, number)?;
    push_end(text, layout, level)
}

/// Appends an integer of a level.
pub fn push_integer(
    text: &mut String,
    form: Form,
    layout: Layout,
    level: usize,
    number: i64,
) -> Result<(), AllocError>
    ensures { IfOk result (λ _. string_bytes text.new
        ≡ string_bytes text.old ++ json.integer_text form layout level number) }
{
    match form {
        Form::Plain => Scalar::Signed(number).write(text),
        Form::Tagged => push_tagged_integer(text, layout, level, number),
    }
}

// Whether a float is none of JSON's numbers.
fn is_special(float: &str) -> bool
    ensures { result ≡ json.is_special float.now }
{
    float == "inf" || float == "-inf" || float == "nan" || float == "-nan"
}

/// Appends a float of a level, by its text.
pub fn push_float(
    text: &mut String,
    form: Form,
    layout: Layout,
    level: usize,
    float: &str,
) -> Result<(), AllocError>
    ensures { IfOk result (λ _. string_bytes text.new
        ≡ string_bytes text.old ++ json.float_text form layout level float.now) }
{
    match form {
        Form::Plain if is_special(float) => push_between_quotes(text, float),
        Form::Plain => text.push_str(float),
        Form::Tagged => push_tagged(text, layout, level, "float", float),
    }
}

fn truth_word(truth: bool) -> &'static str
    ensures { result.now ≡ json.truth_word truth }
{
    if truth { "true" } else { "false" }
}

/// Appends a boolean of a level.
pub fn push_boolean(
    text: &mut String,
    form: Form,
    layout: Layout,
    level: usize,
    truth: bool,
) -> Result<(), AllocError>
    ensures { IfOk result (λ _. string_bytes text.new
        ≡ string_bytes text.old ++ json.boolean_text form layout level truth) }
{
    match form {
        Form::Plain => text.push_str(truth_word(truth)),
        Form::Tagged => push_tagged(text, layout, level, "bool", truth_word(truth)),
    }
}

/// Appends a string of a level.
pub fn push_string(
    text: &mut String,
    form: Form,
    layout: Layout,
    level: usize,
    value: &str,
) -> Result<(), AllocError>
    ensures { IfOk result (λ _. string_bytes text.new
        ≡ string_bytes text.old ++ json.string_text form layout level value.now) }
{
    match form {
        Form::Plain => push_quoted(text, value),
        Form::Tagged => push_tagged_string(text, layout, level, value),
    }
}
