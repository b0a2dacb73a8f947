//! Headers, and what stands before a row's value.
ghost use Rattle.std.specs.Prelude.{◌≡◌, ◌++◌, IfOk, OnErr, true, string_bytes, unwrap_or, []};
ghost use Rattle.basic_toml_emit.specs.Calls as c;
ghost use Rattle.basic_toml_emit.specs.Growth.{is_due};
ghost use Rattle.basic_toml_open_keys.specs.OpenKeys.{last_of};
ghost use Rattle.basic_toml_layout.specs.Texts.{joined, written_key};
ghost use Rattle.basic_toml_layout.specs.Layout.{table_header, element_header, row_start};
ghost use Rattle.basic_toml_emit.specs.Frames.{frames_of, frame_of, header_of, path_part, first_after};

use crate::frames::{Frame, Header};
use basic_toml_layout::write_key;
use basic_toml_open_keys::OpenKeys;
use std::alloc::AllocError;

// The key that was entered last.
#[inline(always)]
fn write_last_key(text: &mut String, keys: &OpenKeys) -> Result<(), AllocError>
    ensures { IfOk result (λ _. string_bytes text.new ≡ string_bytes text.old
        ++ written_key (unwrap_or (last_of keys.now) [])) }
{
    if keys.is_last_bare() {
        text.push_str(keys.last())
    } else {
        write_key(text, keys.last())
    }
}

// The key that a frame adds to a path; whether the path is still empty.
fn write_part(text: &mut String, frame: &Frame, first: bool) -> Result<bool, AllocError>
    ensures text { IfOk result (λ _. string_bytes text.new ≡ string_bytes text.old
        ++ path_part first (frame_of frame.now)) }
    ensures first { IfOk result (λ f. f ≡ first_after first (frame_of frame.now)) }
{
    match frame {
        Frame::Array { .. } => Ok(first),
        Frame::Table(table) => {
            if !first {
                text.push('.')?;
            }
            write_last_key(text, &*table.keys)?;
            Ok(false)
        }
    }
}

// The keys to the innermost frame, joined by periods.
fn write_path(text: &mut String, frames: &[Frame]) -> Result<(), AllocError>
    ensures { IfOk result (λ _. string_bytes text.new ≡ string_bytes text.old
        ++ joined (c.path (frames_of frames.now))) }
{
    let mut first = true;
    for frame in frames {
        first = write_part(text, frame, first)?;
    }
    Ok(())
}

// The header of a table in these frames, where it is due.
#[inline(always)]
pub fn write_header(text: &mut String, frames: &[Frame], header: Header) -> Result<(), AllocError>
    ensures text { IfOk result (λ _. string_bytes text.new ≡ string_bytes text.old
        ++ c.header_text (header_of header) (frames_of frames.now)) }
    ensures due { OnErr result (is_due (header_of header) ≡ true) }
{
    match header {
        Header::Settled => Ok(()),
        Header::Due { later } => write_table_header(text, frames, later),
    }
}

// The header of a table.
#[inline(never)]
fn write_table_header(text: &mut String, frames: &[Frame], later: bool) -> Result<(), AllocError>
    ensures { IfOk result (λ _. string_bytes text.new ≡ string_bytes text.old
        ++ table_header later (c.path (frames_of frames.now))) }
{
    if later {
        text.push('\n')?;
    }
    text.push('[')?;
    write_path(text, frames)?;
    text.push(']')?;
    text.push('\n')?;
    Ok(())
}

// The header of an element of an array of tables.
pub fn write_element_header(
    text: &mut String,
    frames: &[Frame],
    later: bool,
) -> Result<(), AllocError>
    ensures { IfOk result (λ _. string_bytes text.new ≡ string_bytes text.old
        ++ element_header later (c.path (frames_of frames.now))) }
{
    if later {
        text.push('\n')?;
    }
    text.push('[')?;
    text.push('[')?;
    write_path(text, frames)?;
    text.push(']')?;
    text.push(']')?;
    text.push('\n')?;
    Ok(())
}

// What stands before the value of the row whose key was entered last.
#[inline(always)]
pub fn write_row_start(text: &mut String, keys: &OpenKeys) -> Result<(), AllocError>
    ensures { IfOk result (λ _. string_bytes text.new ≡ string_bytes text.old
        ++ row_start (unwrap_or (last_of keys.now) [])) }
{
    write_last_key(text, keys)?;
    text.push(' ')?;
    text.push('=')?;
    text.push(' ')?;
    Ok(())
}
