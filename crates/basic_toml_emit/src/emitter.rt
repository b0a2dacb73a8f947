//! The emitter.
ghost use Rattle.std.specs.Prelude.{◌≡◌, ◌&&◌, true, false, [], if◌then◌else◌, string_bytes};
ghost use Rattle.basic_toml_emit.specs.declared.error.EmitError.TheVariants.{CallOrder};
ghost use Rattle.basic_toml_emit.specs.Items.{a_scalar, an_absent, open_array, open_table, close, key, field, some_prefix, value_prefix, element_prefix};
ghost use Rattle.basic_toml_layout.specs.Scalar.{scalar_of};
ghost use Rattle.basic_toml_emit.specs.Recorded.{item_of};
ghost use Rattle.basic_toml_emit.specs.Open.{state, fresh};
ghost use Rattle.basic_toml_emit.specs.Calls as c;
ghost use Rattle.basic_toml_emit.specs.Rules.{key_of};
ghost use Rattle.basic_toml_emit.specs.Frames.{frames_of};

mod prefixes;
mod rows;
mod sections;

use crate::call::Call;
use crate::error::EmitError;
use crate::frames::{Frame, Header, innermost, is_nothing_open, key_set, new_table, put};
use basic_toml_layout::Scalar;
use basic_toml_open_keys::OpenKeys;
use std::alloc::Global;

/// The text so far, and the arrays and tables that are open in it.
///
/// Each step takes one item. After a step that answers an error an emitter is of no more use.
#[derive(Drop)]
pub struct Emitter {
    text: String,
    frames: Vec<Frame>,
    // What tables that are closed have left.
    spare: Vec<Box<OpenKeys>>,
    is_done: bool,
    alloc: Global,
}

impl Emitter {
    ghost use Rattle.basic_toml_emit.specs.Emitter.{state_of, Steps, MemoryHasCause, HandsOut};

    /// An emitter that has taken nothing. Takes no memory.
    pub fn new(alloc: Global) -> Emitter
        ensures { state_of result ≡ fresh }
    {
        Emitter {
            text: String::new(alloc),
            frames: Vec::new(alloc),
            spare: Vec::new(alloc),
            is_done: false,
            alloc,
        }
    }

    /// An emitter that has taken the items of a whole table, whose text is this. Takes no memory.
    pub fn with_whole(alloc: Global, text: String) -> Emitter
        ensures { state_of result ≡ state (string_bytes text) [] true }
    {
        Emitter {
            text,
            frames: Vec::new(alloc),
            spare: Vec::new(alloc),
            is_done: true,
            alloc,
        }
    }

    /// Whether nothing was taken yet, or nothing that left a trace.
    #[tactic(auto, using(crate::proofs::FramesOfStack::nothing_open_yes, crate::proofs::FramesOfStack::fresh_leaves))]
    pub fn is_fresh(&self) -> bool
        ensures yes { result ≡ true → state_of self.now ≡ fresh }
        ensures no { result ≡ false → state_of self.now ≡ fresh → ⊥ }
    {
        !self.is_done && self.frames.is_empty() && self.text.is_empty()
    }

    /// Takes what a call records, or answers the error that is due. `OutOfMemory` comes only of what opens an array or
    /// a table, sets a key, or lengthens the text, or would if no rule refused it.
    #[inline(always)]
    pub fn step(&mut self, call: Call<'_>) -> Result<(), EmitError>
        ensures steps { Steps (item_of call.entry) self.old self.new result }
        ensures memory { MemoryHasCause (item_of call.entry) self.old result }
    {
        match call {
            Call::Scalar(scalar) => self.scalar(scalar),
            Call::Absent => prefixes::absent(self),
            Call::OpenArray => self.open_array(),
            Call::OpenTable => self.open_table(),
            Call::Close => self.close(),
            Call::Key => prefixes::key(self),
            Call::Field(name) => prefixes::field(self, name),
            Call::SomePrefix => prefixes::some_prefix(self),
            Call::ValuePrefix => prefixes::value_prefix(self),
            Call::ElementPrefix => prefixes::element_prefix(self),
        }
    }

    /// The key that is set in the innermost table, or the empty text.
    pub fn key_set(&self) -> &str
        ensures { result.now ≡ key_of (frames_of self.now.frames.items) }
    {
        key_set(&self.frames)
    }

    /// The text, where the items made a whole table; else `CallOrder`. Takes no memory.
    #[tactic(auto, using(crate::proofs::FinishHandsOut::hands_out_whole, crate::proofs::FinishHandsOut::hands_out_nothing))]
    pub fn finish(self) -> Result<String, EmitError>
        ensures { HandsOut CallOrder self result }
    {
        if self.is_whole() {
            Ok(self.text)
        } else {
            Err(EmitError::CallOrder)
        }
    }

    // Whether the items made a whole table.
    fn is_whole(&self) -> bool
        ensures { result ≡ (self.now.is_done && c.is_nothing_open (frames_of self.now.frames.items)) }
    {
        self.is_done && is_nothing_open(&self.frames)
    }

    // The error of a value that finds nothing open.
    fn outside(&self, error: EmitError) -> EmitError
        ensures { result ≡ (if self.now.is_done then CallOrder else error) }
    {
        if self.is_done {
            EmitError::CallOrder
        } else {
            error
        }
    }

    // A value without parts of its own; at a key, the text of the key.
    #[inline(always)]
    fn scalar(&mut self, scalar: Scalar<'_>) -> Result<(), EmitError>
        ensures steps { Steps (a_scalar (scalar_of scalar.entry)) self.old self.new result }
        ensures memory { MemoryHasCause (a_scalar (scalar_of scalar.entry)) self.old result }
    {
        match innermost(&self.frames) {
            None => Err(self.outside(EmitError::UnsupportedType)),
            Some((Frame::Table(_), _)) => rows::scalar_in_table(self, scalar),
            Some((Frame::Array { kind, later }, _)) => {
                let (kind, later) = (*kind, *later);
                rows::scalar_in_array(self, kind, later, scalar)
            }
        }
    }

    fn open_table(&mut self) -> Result<(), EmitError>
        ensures steps { Steps open_table self.old self.new result }
        ensures memory { MemoryHasCause open_table self.old result }
    {
        match innermost(&self.frames) {
            None => {
                if self.is_done {
                    return Err(EmitError::CallOrder);
                }
                let table = new_table(self.alloc, &mut self.spare, Header::Settled)?;
                put(&mut self.frames, table)?;
                Ok(())
            }
            Some((Frame::Table(_), _)) => sections::open_table_in_table(self),
            Some((Frame::Array { kind, later }, _)) => {
                let (kind, later) = (*kind, *later);
                sections::open_table_in_array(self, kind, later)
            }
        }
    }

    fn open_array(&mut self) -> Result<(), EmitError>
        ensures steps { Steps open_array self.old self.new result }
        ensures memory { MemoryHasCause open_array self.old result }
    {
        match innermost(&self.frames) {
            None => Err(self.outside(EmitError::UnsupportedType)),
            Some((Frame::Table(_), _)) => rows::open_array_in_table(self),
            Some((Frame::Array { kind, later }, _)) => {
                let (kind, later) = (*kind, *later);
                rows::open_array_in_array(self, kind, later)
            }
        }
    }

    // Closes the innermost array or table.
    fn close(&mut self) -> Result<(), EmitError>
        ensures steps { Steps close self.old self.new result }
        ensures memory { MemoryHasCause close self.old result }
    {
        match innermost(&self.frames) {
            None => Err(EmitError::CallOrder),
            Some((Frame::Table(_), _)) => sections::close_table(self),
            Some((Frame::Array { kind, .. }, _)) => {
                let kind = *kind;
                rows::close_array(self, kind)
            }
        }
    }
}
