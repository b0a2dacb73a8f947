//! How a call is taken: the item that it records, and then its part.
//!
//! What is done with an error stands in functions of its own, which are not inlined, and an answer, which is large, is
//! made last: a call that is taken pays for none of it.
ghost use Rattle.std.specs.Prelude.{◌≡◌, ◌⊎◌, List, [], ◌∷◌, Result, Ok, OnOk, IfErr, IsErr, IsSome, MatchOption, None, IfOk};
ghost use Rattle.basic_toml_emit.specs.Items.{Item};
ghost use Rattle.basic_toml_emit.specs.Recorded.{item_of};
ghost use Rattle.basic_toml_emit.specs.declared.error.EmitError.TheVariants as emit;
ghost use Rattle.basic_toml_write.specs.declared.error.WriteError.TheVariants as write;

use super::Serializer;
use crate::again::{again, twice};
use crate::error::named;
use crate::{Serialize, WriteError};
use basic_toml_emit::{Call, EmitError};

impl Serializer {
    ghost use Rattle.basic_toml_emit.specs.Emitter.{state_of};
    ghost use Rattle.basic_toml_emit.specs.Error.{Meets};
    ghost use Rattle.basic_toml_emit.specs.Open.{State};
    ghost use Rattle.basic_toml_emit.specs.Rules.{CallFault, key_of};
    ghost use Rattle.basic_toml_write.specs.Error.{Names};
    ghost use Rattle.basic_toml_write.specs.Recordable.{IsRecordable};
    ghost use Rattle.basic_toml_write.specs.Serializer.{Takes, Passes, Refused, MemoryHasCause, error_of};
    ghost use Rattle.basic_toml_write.specs.Stops.{Stops};

    // Keeps an error, and answers the one that is kept.
    pub(super) fn refuse(&mut self, error: WriteError) -> Result<(), WriteError>
        ensures { Refused error self.new result }
    {
        let (kept, answer) = twice(error, self.alloc);
        self.error = Some(kept);
        Err(answer)
    }

    // An error of the emitter, with what it owns.
    fn named(&self, error: EmitError) -> WriteError
        ensures names { (x : Result State CallFault) → Meets error (key_of (state_of self.now.emitter).open_frames) x
            → Names result x }
        ensures memory { result ≡ write.OutOfMemory → (error ≡ emit.OutOfMemory) ⊎ (error ≡ emit.DuplicateKey) }
    {
        named(error, &self.emitter, self.alloc)
    }

    // The error that stands, once more.
    #[tactic(auto, using(crate::proofs::ListsAreSentInTurn::takes_refused))]
    fn refuse_again(&self) -> Result<(), WriteError>
        requires { IsSome (error_of self.now) }
        ensures takes { (is : List Item) → Takes is self.now self.now result }
        ensures err { IsErr result }
    {
        match &self.error {
            Some(error) => Err(again(error, self.alloc)),
            None => Ok(()),
        }
    }

    // The answer of an item that is stopped; an error that is met now is kept.
    #[cold]
    #[inline(never)]
    #[tactic(auto, using(crate::proofs::StoppedCalls::takes_again))]
    pub(super) fn refuse_item(&mut self, stop: Option<EmitError>) -> Result<(), WriteError>
        requires { stop ≡ None → IsSome (error_of self.old) }
        ensures takes { (i : Item) (before : Serializer) → Stops stop i before self.old
            → Takes (i ∷ []) before self.new result }
        ensures err { IsErr result }
    {
        match stop {
            Some(error) => self.refuse(self.named(error)),
            None => self.refuse_again(),
        }
    }

    // One item. Where it is not taken, what stops it: the error of the emitter, or none where an error stands.
    #[inline(always)]
    #[tactic(auto, using(crate::proofs::ListsAreSentInTurn::takes_ok))]
    fn step(&mut self, call: Call<'_>) -> Result<(), Option<EmitError>>
        requires { IsRecordable (item_of call) }
        ensures ok { OnOk result (Takes (item_of call.entry ∷ []) self.old self.new (Ok tt)) }
        ensures err { IfErr result (λ stop. Stops stop (item_of call.entry) self.old self.new) }
    {
        if self.has_refused() {
            return Err(None);
        }
        match self.emitter.step(call) {
            Ok(()) => Ok(()),
            Err(error) => Err(Some(error)),
        }
    }

    // One item: it is taken, or the error that is due is kept and answered.
    #[inline(always)]
    #[tactic(auto, using(crate::proofs::StoppedCalls::stands_there))]
    pub(super) fn take(&mut self, call: Call<'_>) -> Result<(), WriteError>
        requires { IsRecordable (item_of call) }
        ensures { Takes (item_of call.entry ∷ []) self.old self.new result }
    {
        match self.step(call) {
            Ok(()) => Ok(()),
            Err(stop) => self.refuse_item(stop),
        }
    }

    // The answer of a part, or the error that was met in it.
    #[cold]
    #[inline(never)]
    fn refuse_part(&mut self, answer: Result<(), WriteError>) -> Result<(), WriteError>
        ensures { MatchOption (error_of self.old) ((self.new ≡ self.old) × (result ≡ answer))
            (λ error. Refused error self.new result) }
    {
        match self.error.take() {
            Some(error) => self.refuse(error),
            None => answer,
        }
    }

    // The same, the way of a part that was taken first.
    #[inline(always)]
    fn answer(&mut self, answer: Result<(), WriteError>) -> Result<(), WriteError>
        ensures { MatchOption (error_of self.old) ((self.new ≡ self.old) × (result ≡ answer))
            (λ error. Refused error self.new result) }
    {
        if answer.is_ok() && !self.has_refused() {
            return Ok(());
        }
        self.refuse_part(answer)
    }

    // The calls of a part, where no error stands. An error that is met in it is answered even where the part answers
    // Ok; else the part's own error is.
    #[inline(always)]
    #[tactic(auto, using(crate::proofs::ListsAreSentInTurn::passes_answer, crate::proofs::MemoryHasCause::memory_answer))]
    fn send<T: Serialize>(&mut self, value: &T) -> Result<(), WriteError>
        requires { error_of self.old ≡ None }
        ensures passes { Passes [] (T.calls value.now) (T.gives_up value.now) self.old self.new result }
        ensures holds { IfOk result (λ _. T.holds value.now) }
        ensures memory { T.asks_no_memory value.now → MemoryHasCause (T.calls value.now) self.old self.new result }
    {
        let answer = value.serialize(self.alloc, self);
        self.answer(answer)
    }

    // The calls of a part.
    #[inline(always)]
    #[tactic(auto, using(crate::proofs::ListsAreSentInTurn::passes_refused, crate::proofs::MemoryHasCause::memory_refused))]
    pub(super) fn part<T: Serialize>(&mut self, value: &T) -> Result<(), WriteError>
        ensures passes { Passes [] (T.calls value.now) (T.gives_up value.now) self.old self.new result }
        ensures holds { IfOk result (λ _. T.holds value.now) }
        ensures memory { T.asks_no_memory value.now → MemoryHasCause (T.calls value.now) self.old self.new result }
    {
        if self.has_refused() {
            return self.refuse_again();
        }
        self.send(value)
    }

    // What a call records before its part, and the calls of the part.
    #[inline(always)]
    #[tactic(auto, using(crate::proofs::ListsAreSentInTurn::passes_then, crate::proofs::ListsAreSentInTurn::takes_none, crate::proofs::StoppedCalls::passes_stopped, crate::proofs::StoppedCalls::stands_there, crate::proofs::MemoryHasCause::memory_then, crate::proofs::MemoryHasCause::memory_stopped))]
    pub(super) fn after<T: Serialize>(
        &mut self,
        call: Call<'_>,
        value: &T,
    ) -> Result<(), WriteError>
        requires { IsRecordable (item_of call) }
        ensures passes { Passes (item_of call.entry ∷ []) (T.calls value.now) (T.gives_up value.now) self.old self.new
            result }
        ensures holds { IfOk result (λ _. T.holds value.now) }
        ensures memory { T.asks_no_memory value.now → MemoryHasCause (item_of call.entry ∷ T.calls value.now) self.old
            self.new result }
    {
        match self.step(call) {
            Ok(()) => self.send(value),
            Err(stop) => self.refuse_item(stop),
        }
    }
}
