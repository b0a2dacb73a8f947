//! The open arrays and tables.
ghost use Rattle.std.specs.Prelude.{◌≡◌, ◌≢◌, true, false, not, nat_le, List, [], ◌∷◌, None, IfOk, MatchOption, length};
ghost use Rattle.basic_toml_emit.specs.declared.frames.Frame.TheVariants.{Table};
ghost use Rattle.basic_toml_emit.specs.declared.frames.Stage.TheVariants.{KeySet};
ghost use Rattle.basic_toml_open_keys.specs.Keys.{no_keys};
ghost use Rattle.basic_toml_open_keys.specs.OpenKeys.{keys_of, last_of};
ghost use Rattle.basic_toml_emit.specs.Open as o;
ghost use Rattle.basic_toml_emit.specs.Calls as c;
ghost use Rattle.basic_toml_emit.specs.Rules.{key_of};
ghost use Rattle.basic_toml_emit.specs.Changes.{outer, with_stage, with_entry, holds_key};
ghost use Rattle.basic_toml_emit.specs.Frames.{frames_of, frame_of, header_of, stage_of, kind_of};

use basic_toml_open_keys::OpenKeys;
use basic_toml_value::NESTING_LIMIT;
use std::alloc::{AllocError, Global};

// Whether the header of a table is still to be written.
#[derive(Clone, Copy, Debug, PartialEq, Eq)]
pub enum Header {
    Settled,
    Due { later: bool },
}

// What an open table waits for. The key that is set stands with its keys.
#[derive(Clone, Copy, Debug, PartialEq, Eq)]
pub enum Stage {
    NoKey,
    KeyPlace,
    KeySet,
}

// What the elements of an open array are so far.
#[derive(Clone, Copy, Debug, PartialEq, Eq)]
pub enum ElementKind {
    Unknown,
    Tables,
    Others,
}

#[derive(Drop)]
pub struct TableFrame {
    pub header: Header,
    pub stage: Stage,
    pub holds_section: bool,
    pub keys: Box<OpenKeys>,
}

impl TableFrame {
    // Sets a key.
    #[inline(always)]
    fn set_key(&mut self, key: &str) -> Result<(), AllocError>
        ensures { IfOk result (λ _. (below : List o.Frame) → frame_of (Table self.new)
            ∷ below ≡ with_stage (o.key_set key.now) (frame_of (Table self.old) ∷ below)) }
    {
        self.keys.set(key)?;
        self.stage = Stage::KeySet;
        Ok(())
    }

    // Counts the key that is set among those of present entries. `false` where it is among them already, and then
    // nothing is changed.
    #[inline(always)]
    fn enter_key(&mut self) -> Result<bool, AllocError>
        ensures answer { IfOk result (λ is_new. (below : List o.Frame)
            → is_new ≡ not (holds_key (frame_of (Table self.old) ∷ below))) }
        ensures entered { IfOk result (λ is_new. is_new ≡ true → (below : List o.Frame) → frame_of (Table self.new)
            ∷ below ≡ with_entry (frame_of (Table self.old) ∷ below)) }
        ensures unchanged { IfOk result (λ is_new. is_new ≡ false → (below : List o.Frame) → frame_of (Table self.new)
            ∷ below ≡ frame_of (Table self.old) ∷ below) }
    {
        if self.stage == Stage::KeySet && !self.keys.enter()? {
            return Ok(false);
        }
        self.stage = Stage::NoKey;
        Ok(true)
    }
}

// An open array or table. An array knows whether its entry stands after a present one of the same table.
#[derive(Drop)]
pub enum Frame {
    Table(TableFrame),
    Array { kind: ElementKind, later: bool },
}

// No keys, in what other keys have left.
fn no_keys(alloc: Global, spare: &mut Vec<Box<OpenKeys>>) -> Result<Box<OpenKeys>, AllocError>
    ensures keys { IfOk result (λ keys. keys_of keys.value ≡ no_keys) }
    ensures last { IfOk result (λ keys. last_of keys.value ≡ None) }
{
    match spare.pop() {
        Some(mut keys) => {
            keys.clear();
            Ok(keys)
        }
        None => match Box::new(alloc, OpenKeys::new(alloc)) {
            Ok(keys) => Ok(keys),
            Err(_) => Err(AllocError),
        },
    }
}

// A table without keys.
pub fn new_table(
    alloc: Global,
    spare: &mut Vec<Box<OpenKeys>>,
    header: Header,
) -> Result<Frame, AllocError>
    ensures { IfOk result (λ frame. frame_of frame ≡ o.new_table (header_of header)) }
{
    Ok(Frame::Table(TableFrame {
        header,
        stage: Stage::NoKey,
        holds_section: false,
        keys: no_keys(alloc, spare)?,
    }))
}

// Puts a frame on the stack.
#[tactic(auto, using(crate::proofs::FramesOfStack::frames_push))]
pub fn put(frames: &mut Vec<Frame>, frame: Frame) -> Result<(), AllocError>
    ensures { IfOk result (λ _. frames_of frames.new.items ≡ frame_of frame ∷ frames_of frames.old.items) }
{
    match frames.push(frame) {
        Ok(()) => Ok(()),
        Err(_) => Err(AllocError),
    }
}

// Opens an array with such elements.
pub fn put_array(frames: &mut Vec<Frame>, kind: ElementKind, later: bool) -> Result<(), AllocError>
    ensures { IfOk result (λ _. frames_of frames.new.items ≡ o.an_array (kind_of kind) later
        ∷ frames_of frames.old.items) }
{
    put(frames, Frame::Array { kind, later })
}

// The innermost frame, and those around it.
#[inline(always)]
pub fn innermost(frames: &[Frame]) -> Option<(&Frame, &[Frame])>
    ensures { MatchOption result (frames_of frames.now ≡ []) (λ p. frames_of frames.now ≡ frame_of p.0.now
        ∷ frames_of p.1.now) }
{
    frames.split_last()
}

// Takes the innermost frame away. What held the keys of a table is kept for another.
#[tactic(auto, using(crate::proofs::FramesOfStack::frames_push))]
pub fn leave(frames: &mut Vec<Frame>, spare: &mut Vec<Box<OpenKeys>>)
    ensures { frames_of frames.new.items ≡ outer (frames_of frames.old.items) }
{
    if let Some(Frame::Table(table)) = frames.pop() {
        let _ = spare.push(table.keys);
    }
}

// Sets what the innermost table waits for.
#[inline(always)]
pub fn set_stage(frames: &mut [Frame], stage: Stage)
    requires { stage ≢ KeySet }
    ensures { frames_of frames.new ≡ with_stage (stage_of stage []) (frames_of frames.old) }
{
    let len = frames.len();
    if len > 0 {
        if let Frame::Table(table) = &mut frames[len - 1] {
            table.stage = stage;
        }
    }
}

// Sets a key in the innermost table.
#[inline(always)]
pub fn set_key(frames: &mut [Frame], key: &str) -> Result<(), AllocError>
    ensures { IfOk result (λ _. frames_of frames.new ≡ with_stage (o.key_set key.now) (frames_of frames.old)) }
{
    let len = frames.len();
    if len == 0 {
        return Ok(());
    }
    match &mut frames[len - 1] {
        Frame::Table(table) => table.set_key(key),
        Frame::Array { .. } => Ok(()),
    }
}

// The key that is set in the innermost table, or the empty text.
pub fn key_set(frames: &[Frame]) -> &str
    ensures { result.now ≡ key_of (frames_of frames.now) }
{
    match innermost(frames) {
        Some((Frame::Table(table), _)) if table.stage == Stage::KeySet => table.keys.pending(),
        _ => "",
    }
}

// Counts the key that is set in the innermost table among those of present entries. `false` where it is among them
// already, and then nothing is changed.
#[inline(always)]
pub fn enter_key(frames: &mut [Frame]) -> Result<bool, AllocError>
    ensures answer { IfOk result (λ is_new. is_new ≡ not (holds_key (frames_of frames.old))) }
    ensures entered { IfOk result (λ is_new. is_new ≡ true → frames_of frames.new ≡ with_entry (frames_of frames.old)) }
    ensures unchanged { IfOk result (λ is_new. is_new ≡ false → frames_of frames.new ≡ frames_of frames.old) }
{
    let len = frames.len();
    if len == 0 {
        return Ok(true);
    }
    match &mut frames[len - 1] {
        Frame::Table(table) => table.enter_key(),
        Frame::Array { .. } => Ok(true),
    }
}

// Notes that the header of the innermost table is written, or not to be written at all.
#[inline(always)]
pub fn settle(frames: &mut [Frame])
    ensures { frames_of frames.new ≡ c.with_row (frames_of frames.old) }
{
    let len = frames.len();
    if len > 0 {
        if let Frame::Table(table) = &mut frames[len - 1] {
            table.header = Header::Settled;
        }
    }
}

// Notes that a section stands in the innermost table.
pub fn hold_section(frames: &mut [Frame])
    ensures { frames_of frames.new ≡ c.with_sections (frames_of frames.old) }
{
    let len = frames.len();
    if len > 0 {
        if let Frame::Table(table) = &mut frames[len - 1] {
            table.header = Header::Settled;
            table.holds_section = true;
        }
    }
}

// Whether nothing is open.
#[tactic(auto, using(crate::proofs::FramesOfStack::nothing_open_no, crate::proofs::FramesOfStack::nothing_open_yes))]
pub fn is_nothing_open(frames: &Vec<Frame>) -> bool
    ensures { result ≡ c.is_nothing_open (frames_of frames.now.items) }
{
    frames.is_empty()
}

// Whether no array and no table may be opened within these.
#[tactic(auto, using(crate::proofs::FramesOfStack::frames_length))]
pub fn is_full(frames: &[Frame]) -> bool
    ensures { result ≡ nat_le NESTING_LIMIT (length (frames_of frames.now)) }
{
    frames.len() >= NESTING_LIMIT
}
