//! Tables, and arrays of them.
ghost use Rattle.std.specs.Prelude.{◌≡◌, ◌⊎◌, ◌∷◌, true, IfOk, IfErr};
ghost use Rattle.basic_toml_emit.specs.declared.error.EmitError.TheVariants.{OutOfMemory, UnsupportedType};
ghost use Rattle.basic_toml_emit.specs.Items.{open_table, close};
ghost use Rattle.basic_toml_emit.specs.Open.{an_array};
ghost use Rattle.basic_toml_emit.specs.Rules.{is_in_table, is_in_array};
ghost use Rattle.basic_toml_emit.specs.Frames.{frames_of, kind_of};
ghost use Rattle.basic_toml_emit.specs.Changes.{outer};
ghost use Rattle.basic_toml_emit.specs.Emitter.{Steps, MemoryHasCause, StartsSections};

use super::Emitter;
use super::rows::enter_part;
use crate::error::EmitError;
use crate::frames::{
    ElementKind, Frame, Header, Stage, hold_section, innermost, is_full, is_nothing_open, leave,
    new_table, put, put_array,
};
use crate::headers::{write_element_header, write_header};

pub(super) fn open_table_in_table(emitter: &mut Emitter) -> Result<(), EmitError>
    requires { is_in_table (frames_of emitter.old.frames.items) ≡ true }
    ensures steps { Steps open_table emitter.old emitter.new result }
    ensures memory { MemoryHasCause open_table emitter.old result }
{
    let later = enter_part(emitter)?;
    hold_section(&mut emitter.frames);
    let table = new_table(emitter.alloc, &mut emitter.spare, Header::Due { later })?;
    put(&mut emitter.frames, table)?;
    Ok(())
}

pub(super) fn open_table_in_array(
    emitter: &mut Emitter,
    kind: ElementKind,
    later: bool,
) -> Result<(), EmitError>
    requires { frames_of emitter.old.frames.items ≡ an_array (kind_of kind) later
        ∷ outer (frames_of emitter.old.frames.items) }
    ensures { Steps open_table emitter.old emitter.new result }
{
    let is_full = is_full(&emitter.frames);
    match kind {
        ElementKind::Others => return Err(EmitError::UnsupportedType),
        ElementKind::Unknown => start_sections(emitter, later)?,
        ElementKind::Tables => {}
    }
    if is_full {
        return Err(EmitError::NestedTooDeeply);
    }
    let is_after = later || kind == ElementKind::Tables;
    write_element_header(&mut emitter.text, &emitter.frames, is_after)?;
    let table = new_table(emitter.alloc, &mut emitter.spare, Header::Settled)?;
    put(&mut emitter.frames, table)?;
    Ok(())
}

pub(super) fn close_table(emitter: &mut Emitter) -> Result<(), EmitError>
    requires { is_in_table (frames_of emitter.old.frames.items) ≡ true }
    ensures steps { Steps close emitter.old emitter.new result }
    ensures memory { MemoryHasCause close emitter.old result }
{
    let Some((Frame::Table(table), outer)) = innermost(&emitter.frames) else {
        return Err(EmitError::CallOrder);
    };
    match table.stage {
        Stage::NoKey => {
            write_header(&mut emitter.text, outer, table.header)?;
            leave(&mut emitter.frames, &mut emitter.spare);
            emitter.is_done = is_nothing_open(&emitter.frames);
            Ok(())
        }
        Stage::KeyPlace => Err(EmitError::CallOrder),
        Stage::KeySet => Err(EmitError::CallOrder),
    }
}

// From its first table on, the innermost array is one section for each element of the table that it stands in.
#[tactic(auto, using(crate::proofs::FramesOfStack::path_with_sections))]
fn start_sections(emitter: &mut Emitter, later: bool) -> Result<(), EmitError>
    ensures ok { IfOk result (λ _. StartsSections later emitter.old emitter.new) }
    ensures err { IfErr result (λ e. (e ≡ OutOfMemory) ⊎ (e ≡ UnsupportedType)
        × (is_in_array (outer (frames_of emitter.old.frames.items)) ≡ true)) }
{
    leave(&mut emitter.frames, &mut emitter.spare);
    if let Some((Frame::Array { .. }, _)) = innermost(&emitter.frames) {
        return Err(EmitError::UnsupportedType);
    }
    hold_section(&mut emitter.frames);
    put_array(&mut emitter.frames, ElementKind::Tables, later)?;
    Ok(())
}
