//! Scalars, and arrays that hold no table.
ghost use Rattle.std.specs.Prelude.{◌≡◌, ◌⊎◌, ◌∷◌, true, false, Err, IfOk, IfErr, MatchOption};
ghost use Rattle.basic_toml_emit.specs.declared.error.EmitError.TheVariants.{OutOfMemory, DuplicateKey, ValueAfterTable};
ghost use Rattle.basic_toml_emit.specs.Items.{a_scalar, open_array, open_table, close};
ghost use Rattle.basic_toml_layout.specs.Written as w;
ghost use Rattle.basic_toml_layout.specs.Scalar.{scalar_of};
ghost use Rattle.basic_toml_emit.specs.Open.{an_array};
ghost use Rattle.basic_toml_emit.specs.Rules.{is_text, is_in_table, place_of, at_key, at_value, holds_section};
ghost use Rattle.basic_toml_emit.specs.Frames.{frames_of, kind_of};
ghost use Rattle.basic_toml_emit.specs.Changes.{outer, is_later, holds_key};
ghost use Rattle.basic_toml_emit.specs.Emitter.{Steps, MemoryHasCause, Enters, EntersPart, StartsValue, StartsRow, StartsElements, EndsRow};

use super::Emitter;
use crate::error::EmitError;
use crate::frames::{
    ElementKind, Frame, Stage, enter_key, innermost, is_full, leave, put_array, set_key, settle,
};
use crate::headers::{write_header, write_row_start};
use basic_toml_layout::Scalar;

// The text of a key.
fn key<'a>(scalar: Scalar<'a>) -> Option<&'a str>
    ensures { MatchOption result (is_text (a_scalar (scalar_of scalar.entry)) ≡ false)
        (λ k. scalar_of scalar.entry ≡ w.text k.now) }
{
    match scalar {
        Scalar::Text(text) => Some(text),
        _ => None,
    }
}

#[inline(always)]
pub(super) fn scalar_in_table(emitter: &mut Emitter, scalar: Scalar<'_>) -> Result<(), EmitError>
    requires { is_in_table (frames_of emitter.old.frames.items) ≡ true }
    ensures steps { Steps (a_scalar (scalar_of scalar.entry)) emitter.old emitter.new result }
    ensures memory { MemoryHasCause (a_scalar (scalar_of scalar.entry)) emitter.old result }
{
    let Some((Frame::Table(table), _)) = innermost(&emitter.frames) else {
        return Err(EmitError::CallOrder);
    };
    match table.stage {
        Stage::NoKey => Err(EmitError::CallOrder),
        Stage::KeyPlace => scalar_at_key(emitter, scalar),
        Stage::KeySet => scalar_at_value(emitter, scalar),
    }
}

// Sets a key.
fn scalar_at_key(emitter: &mut Emitter, scalar: Scalar<'_>) -> Result<(), EmitError>
    requires { place_of (frames_of emitter.old.frames.items) emitter.old.is_done ≡ at_key }
    ensures steps { Steps (a_scalar (scalar_of scalar.entry)) emitter.old emitter.new result }
    ensures memory { MemoryHasCause (a_scalar (scalar_of scalar.entry)) emitter.old result }
{
    let Some(key) = key(scalar) else {
        return Err(EmitError::KeyNotString);
    };
    set_key(&mut emitter.frames, key)?;
    Ok(())
}

// Writes a row.
#[inline(always)]
fn scalar_at_value(emitter: &mut Emitter, scalar: Scalar<'_>) -> Result<(), EmitError>
    requires { place_of (frames_of emitter.old.frames.items) emitter.old.is_done ≡ at_value }
    ensures { Steps (a_scalar (scalar_of scalar.entry)) emitter.old emitter.new result }
{
    if scalar.is_refused() {
        return Err(EmitError::UnsupportedType);
    }
    let is_full = is_full(&emitter.frames);
    enter(emitter)?;
    start_value(emitter)?;
    if scalar.is_bytes() && is_full {
        return Err(EmitError::NestedTooDeeply);
    }
    scalar.write(&mut emitter.text)?;
    emitter.text.push('\n')?;
    Ok(())
}

// Counts the key that is set among those of present entries.
#[inline(always)]
pub(super) fn enter(emitter: &mut Emitter) -> Result<(), EmitError>
    ensures ok { IfOk result (λ _. Enters emitter.old emitter.new) }
    ensures err { IfErr result (λ e. (e ≡ OutOfMemory) ⊎ (e ≡ DuplicateKey)
        × (holds_key (frames_of emitter.old.frames.items) ≡ true)
        × (frames_of emitter.new.frames.items ≡ frames_of emitter.old.frames.items)) }
{
    if enter_key(&mut emitter.frames)? {
        Ok(())
    } else {
        Err(EmitError::DuplicateKey)
    }
}

// Counts the key of an array or a table that is opened, and answers whether an entry stands before it; or the error
// that is due.
pub(super) fn enter_part(emitter: &mut Emitter) -> Result<bool, EmitError>
    requires { is_in_table (frames_of emitter.old.frames.items) ≡ true }
    ensures ok { IfOk result (λ later. EntersPart later emitter.old emitter.new) }
    ensures array { IfErr result (λ e. Steps open_array emitter.old emitter.new (Err e)) }
    ensures table { IfErr result (λ e. Steps open_table emitter.old emitter.new (Err e)) }
    ensures array_memory { MemoryHasCause open_array emitter.old result }
    ensures table_memory { MemoryHasCause open_table emitter.old result }
{
    let Some((Frame::Table(table), _)) = innermost(&emitter.frames) else {
        return Err(EmitError::CallOrder);
    };
    let later = !table.keys.is_empty();
    match table.stage {
        Stage::NoKey => return Err(EmitError::CallOrder),
        Stage::KeyPlace => return Err(EmitError::KeyNotString),
        Stage::KeySet => {}
    }
    let is_full = is_full(&emitter.frames);
    enter(emitter)?;
    if is_full {
        return Err(EmitError::NestedTooDeeply);
    }
    Ok(later)
}

// Writes what stands before the value of the key that was entered last in the innermost frame, a table.
#[inline(always)]
fn start_value(emitter: &mut Emitter) -> Result<(), EmitError>
    ensures ok { IfOk result (λ _. StartsValue emitter.old emitter.new) }
    ensures err { IfErr result (λ e. (e ≡ OutOfMemory) ⊎ (e ≡ ValueAfterTable)
        × (holds_section (frames_of emitter.old.frames.items) ≡ true)) }
{
    if let Some((Frame::Table(table), outer)) = innermost(&emitter.frames) {
        if table.holds_section {
            return Err(EmitError::ValueAfterTable);
        }
        write_header(&mut emitter.text, outer, table.header)?;
        write_row_start(&mut emitter.text, &*table.keys)?;
    }
    settle(&mut emitter.frames);
    Ok(())
}

#[inline(always)]
pub(super) fn scalar_in_array(
    emitter: &mut Emitter,
    kind: ElementKind,
    later: bool,
    scalar: Scalar<'_>,
) -> Result<(), EmitError>
    requires { frames_of emitter.old.frames.items ≡ an_array (kind_of kind) later
        ∷ outer (frames_of emitter.old.frames.items) }
    ensures { Steps (a_scalar (scalar_of scalar.entry)) emitter.old emitter.new result }
{
    if scalar.is_refused() {
        return Err(EmitError::UnsupportedType);
    }
    let is_full = is_full(&emitter.frames);
    match kind {
        ElementKind::Tables => return Err(EmitError::UnsupportedType),
        ElementKind::Unknown => start_elements(emitter, later)?,
        ElementKind::Others => {
            emitter.text.push(',')?;
            emitter.text.push(' ')?;
        }
    }
    if scalar.is_bytes() && is_full {
        return Err(EmitError::NestedTooDeeply);
    }
    scalar.write(&mut emitter.text)?;
    Ok(())
}

pub(super) fn open_array_in_table(emitter: &mut Emitter) -> Result<(), EmitError>
    requires { is_in_table (frames_of emitter.old.frames.items) ≡ true }
    ensures steps { Steps open_array emitter.old emitter.new result }
    ensures memory { MemoryHasCause open_array emitter.old result }
{
    let later = enter_part(emitter)?;
    put_array(&mut emitter.frames, ElementKind::Unknown, later)?;
    Ok(())
}

pub(super) fn open_array_in_array(
    emitter: &mut Emitter,
    kind: ElementKind,
    later: bool,
) -> Result<(), EmitError>
    requires { frames_of emitter.old.frames.items ≡ an_array (kind_of kind) later
        ∷ outer (frames_of emitter.old.frames.items) }
    ensures { Steps open_array emitter.old emitter.new result }
{
    let is_full = is_full(&emitter.frames);
    match kind {
        ElementKind::Tables => return Err(EmitError::UnsupportedType),
        ElementKind::Unknown => start_elements(emitter, later)?,
        ElementKind::Others => {
            emitter.text.push(',')?;
            emitter.text.push(' ')?;
        }
    }
    if is_full {
        return Err(EmitError::NestedTooDeeply);
    }
    put_array(&mut emitter.frames, ElementKind::Unknown, later)?;
    Ok(())
}

#[tactic(auto, using(crate::proofs::FramesOfStack::array_end_with_row))]
pub(super) fn close_array(emitter: &mut Emitter, kind: ElementKind) -> Result<(), EmitError>
    requires { let frames = frames_of emitter.old.frames.items in
        frames ≡ an_array (kind_of kind) (is_later frames) ∷ outer frames }
    ensures steps { Steps close emitter.old emitter.new result }
    ensures memory { MemoryHasCause close emitter.old result }
{
    leave(&mut emitter.frames, &mut emitter.spare);
    match kind {
        ElementKind::Unknown => {
            start_row(emitter)?;
            end_row(emitter)
        }
        ElementKind::Others => end_row(emitter),
        ElementKind::Tables => Ok(()),
    }
}

// Writes what stands before the first element of the innermost array, which is no table.
fn start_elements(emitter: &mut Emitter, later: bool) -> Result<(), EmitError>
    ensures ok { IfOk result (λ _. StartsElements later emitter.old emitter.new) }
    ensures err { IfErr result (λ e. (e ≡ OutOfMemory) ⊎ (e ≡ ValueAfterTable)
        × (holds_section (outer (frames_of emitter.old.frames.items)) ≡ true)) }
{
    leave(&mut emitter.frames, &mut emitter.spare);
    start_row(emitter)?;
    put_array(&mut emitter.frames, ElementKind::Others, later)?;
    Ok(())
}

// Writes what stands before the elements of an array that stands in the innermost frame, and holds no table.
fn start_row(emitter: &mut Emitter) -> Result<(), EmitError>
    ensures ok { IfOk result (λ _. StartsRow emitter.old emitter.new) }
    ensures err { IfErr result (λ e. (e ≡ OutOfMemory) ⊎ (e ≡ ValueAfterTable)
        × (holds_section (frames_of emitter.old.frames.items) ≡ true)) }
{
    start_value(emitter)?;
    emitter.text.push('[')?;
    Ok(())
}

// Writes what stands after them.
fn end_row(emitter: &mut Emitter) -> Result<(), EmitError>
    ensures ok { IfOk result (λ _. EndsRow emitter.old emitter.new) }
    ensures err { IfErr result (λ e. e ≡ OutOfMemory) }
{
    match innermost(&emitter.frames) {
        Some((Frame::Table(_), _)) => {
            emitter.text.push(']')?;
            emitter.text.push('\n')?;
        }
        Some((Frame::Array { .. }, _)) => emitter.text.push(']')?,
        None => emitter.text.push(']')?,
    }
    Ok(())
}
