//! Keys, absent options, and the prefixes before a part.
ghost use Rattle.basic_toml_emit.specs.Items.{an_absent, key, field, some_prefix, value_prefix, element_prefix};
ghost use Rattle.basic_toml_emit.specs.Emitter.{Steps, MemoryHasCause};

use super::Emitter;
use crate::error::EmitError;
use crate::frames::{Frame, Stage, innermost, set_key, set_stage};

// Enters the key place.
pub(super) fn key(emitter: &mut Emitter) -> Result<(), EmitError>
    ensures steps { Steps key emitter.old emitter.new result }
    ensures memory { MemoryHasCause key emitter.old result }
{
    match innermost(&emitter.frames) {
        None => Err(EmitError::CallOrder),
        Some((Frame::Table(table), _)) => match table.stage {
            Stage::NoKey => {
                set_stage(&mut emitter.frames, Stage::KeyPlace);
                Ok(())
            }
            Stage::KeyPlace => Err(EmitError::CallOrder),
            Stage::KeySet => Err(EmitError::CallOrder),
        },
        Some((Frame::Array { .. }, _)) => Err(EmitError::CallOrder),
    }
}

// Sets a key.
#[inline(always)]
pub(super) fn field(emitter: &mut Emitter, name: &str) -> Result<(), EmitError>
    ensures steps { Steps (field name.now) emitter.old emitter.new result }
    ensures memory { MemoryHasCause (field name.now) emitter.old result }
{
    match innermost(&emitter.frames) {
        None => Err(EmitError::CallOrder),
        Some((Frame::Table(table), _)) => match table.stage {
            Stage::NoKey => {
                set_key(&mut emitter.frames, name)?;
                Ok(())
            }
            Stage::KeyPlace => Err(EmitError::CallOrder),
            Stage::KeySet => Err(EmitError::CallOrder),
        },
        Some((Frame::Array { .. }, _)) => Err(EmitError::CallOrder),
    }
}

// An absent option: an entry that is left out.
#[inline(always)]
pub(super) fn absent(emitter: &mut Emitter) -> Result<(), EmitError>
    ensures steps { Steps an_absent emitter.old emitter.new result }
    ensures memory { MemoryHasCause an_absent emitter.old result }
{
    match innermost(&emitter.frames) {
        None => Err(emitter.outside(EmitError::UnsupportedNone)),
        Some((Frame::Table(table), _)) => match table.stage {
            Stage::NoKey => Err(EmitError::CallOrder),
            Stage::KeyPlace => Err(EmitError::KeyNotString),
            Stage::KeySet => {
                set_stage(&mut emitter.frames, Stage::NoKey);
                Ok(())
            }
        },
        Some((Frame::Array { .. }, _)) => Err(EmitError::UnsupportedNone),
    }
}

// The prefix of an option that is there.
#[inline(always)]
pub(super) fn some_prefix(emitter: &mut Emitter) -> Result<(), EmitError>
    ensures steps { Steps some_prefix emitter.old emitter.new result }
    ensures memory { MemoryHasCause some_prefix emitter.old result }
{
    match innermost(&emitter.frames) {
        None => {
            if emitter.is_done {
                return Err(EmitError::CallOrder);
            }
            Ok(())
        }
        Some((Frame::Table(table), _)) => match table.stage {
            Stage::NoKey => Err(EmitError::CallOrder),
            Stage::KeyPlace => Err(EmitError::KeyNotString),
            Stage::KeySet => Ok(()),
        },
        Some((Frame::Array { .. }, _)) => Ok(()),
    }
}

// The prefix of a value that follows a key.
#[inline(always)]
pub(super) fn value_prefix(emitter: &mut Emitter) -> Result<(), EmitError>
    ensures steps { Steps value_prefix emitter.old emitter.new result }
    ensures memory { MemoryHasCause value_prefix emitter.old result }
{
    match innermost(&emitter.frames) {
        None => Err(EmitError::CallOrder),
        Some((Frame::Table(table), _)) => match table.stage {
            Stage::NoKey => Err(EmitError::CallOrder),
            Stage::KeyPlace => Err(EmitError::CallOrder),
            Stage::KeySet => Ok(()),
        },
        Some((Frame::Array { .. }, _)) => Err(EmitError::CallOrder),
    }
}

// The prefix of an element.
#[inline(always)]
pub(super) fn element_prefix(emitter: &mut Emitter) -> Result<(), EmitError>
    ensures steps { Steps element_prefix emitter.old emitter.new result }
    ensures memory { MemoryHasCause element_prefix emitter.old result }
{
    match innermost(&emitter.frames) {
        None => Err(EmitError::CallOrder),
        Some((Frame::Table(_), _)) => Err(EmitError::CallOrder),
        Some((Frame::Array { .. }, _)) => Ok(()),
    }
}
