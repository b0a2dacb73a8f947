//! How JSON stands on lines.
ghost use Rattle.std.specs.Prelude.{◌≡◌, ◌+◌, ◌++◌, IfOk, string_bytes};
ghost use Rattle.toml_json_text.specs.Json as json;

use std::alloc::AllocError;

/// How JSON stands on lines.
#[derive(Clone, Copy, Debug)]
pub enum Layout {
    /// On one line, without blanks.
    Line,
    /// Each element and each member on a line of its own, two blanks a level; `[]` and `{}` where there is none.
    Lines,
}

/// The level of what stands in the brackets of a level; none where no memory could hold so many brackets.
pub fn level_below(level: usize) -> Result<usize, AllocError>
    ensures { IfOk result (λ below. below ≡ level + 1) }
{
    match level.checked_add(1) {
        Some(below) => Ok(below),
        None => Err(AllocError),
    }
}

// Two blanks a level.
fn push_blanks(text: &mut String, level: usize) -> Result<(), AllocError>
    ensures { IfOk result (λ _. string_bytes text.new ≡ string_bytes text.old ++ json.blanks level) }
{
    for _i in 0..level {
        text.push_str("  ")?;
    }
    Ok(())
}

/// Begins a line of a level, where each stands on its own.
pub fn push_break(text: &mut String, layout: Layout, level: usize) -> Result<(), AllocError>
    ensures { IfOk result (λ _. string_bytes text.new ≡ string_bytes text.old ++ json.break layout level) }
{
    match layout {
        Layout::Line => Ok(()),
        Layout::Lines => {
            text.push('\n')?;
            push_blanks(text, level)
        }
    }
}

/// Begins the line of a closing bracket of a level, where something stands before it in the brackets.
pub fn push_last_break(
    text: &mut String,
    layout: Layout,
    level: usize,
    is_later: bool,
) -> Result<(), AllocError>
    ensures { IfOk result (λ _. string_bytes text.new ≡ string_bytes text.old ++ json.last_break layout level is_later) }
{
    if is_later {
        push_break(text, layout, level)?;
    }
    Ok(())
}

fn push_comma(text: &mut String, is_later: bool) -> Result<(), AllocError>
    ensures { IfOk result (λ _. string_bytes text.new ≡ string_bytes text.old ++ json.comma is_later) }
{
    if is_later {
        text.push(',')?;
    }
    Ok(())
}

/// Begins an element or a key of a level, after a comma where another stands before it.
pub fn push_separator(
    text: &mut String,
    layout: Layout,
    level: usize,
    is_later: bool,
) -> Result<(), AllocError>
    ensures { IfOk result (λ _. string_bytes text.new ≡ string_bytes text.old ++ json.separator layout level is_later) }
{
    push_comma(text, is_later)?;
    push_break(text, layout, level)
}

/// Appends the colon behind a key.
pub fn push_colon(text: &mut String, layout: Layout) -> Result<(), AllocError>
    ensures { IfOk result (λ _. string_bytes text.new ≡ string_bytes text.old ++ json.colon layout) }
{
    match layout {
        Layout::Line => text.push(':'),
        Layout::Lines => text.push_str(": "),
    }
}
