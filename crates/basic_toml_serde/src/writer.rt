//! What a value of a type that derives is written to.
ghost use Rattle.std.specs.Prelude.{◌≡◌, [], Some, IfOk};
ghost use Rattle.basic_toml_serde.specs.Written.{HasTakenAll};

use crate::failure::Failure;
use crate::log::{Log, Note};
use crate::sender::Sender;
use crate::sink::Sink;
use basic_toml::WriteError;
use serde::{Case, Serializer};
use std::alloc::Global;
use std::cell::Cell;
use std::fmt::Display;
use std::marker::Model;

/// Sends each event, and keeps whether one failed.
#[derive(Drop)]
pub(crate) struct Writer<S: Sink> {
    sender: Sender<S>,
    has_failed: bool,
    /// The last error of a type's own.
    message: Cell<Option<WriteError>>,
    log: Log,
    alloc: Global,
}

impl<S: Sink> Model for Writer<S> {
    ghost use Rattle.std.specs.Prelude.{◌≡◌, false, List};
    ghost use Rattle.serde.specs.Event.{Event};
    ghost use Rattle.basic_toml_serde.specs.Sending.{HasSent};

    ghost Value = { List Event };

    ghost view = { λ w. w.log.events };

    // where no event failed, each was sent
    ghost invariant = { λ w. w.has_failed ≡ false → HasSent S.has_recorded w.log.events w.sender };
}

impl<S: Sink> Writer<S> {
    /// No event was sent, and the sink has taken nothing.
    pub(crate) fn new(alloc: Global, sink: S) -> Writer<S>
        requires { S.has_recorded sink [] }
        ensures { result ≡ [] }
    {
        Writer {
            sender: Sender::new(alloc, sink),
            has_failed: false,
            message: Cell::new(None),
            log: Log::new(),
            alloc,
        }
    }

    /// What has taken the items of every event, where none failed.
    #[tactic(auto, using(crate::proofs::EventsAreSent::all_taken))]
    pub(crate) fn into_sink(self) -> Result<S, WriteError>
        ensures { IfOk result (HasTakenAll S.has_recorded self) }
    {
        let Writer {
            sender,
            has_failed,
            ..
        } = self;
        let sink = sender.into_sink();
        // no error was kept where what was sent found no memory of its own
        if has_failed {
            return Err(sink.into_error().unwrap_or(WriteError::OutOfMemory));
        }
        Ok(sink)
    }

    /// The error of an event that failed.
    pub(crate) fn error(self, failure: Failure) -> WriteError {
        let Writer {
            sender,
            message,
            ..
        } = self;
        let error = match failure {
            Failure::OutOfMemory => None,
            Failure::Unsupported => Some(WriteError::UnsupportedType),
            Failure::Refused => sender.into_sink().into_error(),
            Failure::Custom => message.into_inner(),
        };
        error.unwrap_or(WriteError::OutOfMemory)
    }
}

#[tactic(auto, using(crate::proofs::EventsAreSent::written_on))]
impl<S: Sink> Serializer for Writer<S> {
    type Error = Failure;

    ghost written = { λ events. Some events };

    #[inline(always)]
    fn bool(&mut self, v: bool) -> Result<(), Failure> {
        if let Err(failure) = self.sender.bool(v) {
            self.has_failed = true;
            return Err(failure);
        }
        self.log = self.log.then(&Note::Bool(v));
        Ok(())
    }

    #[inline(always)]
    fn i64(&mut self, v: i64) -> Result<(), Failure> {
        if let Err(failure) = self.sender.i64(v) {
            self.has_failed = true;
            return Err(failure);
        }
        self.log = self.log.then(&Note::I64(v));
        Ok(())
    }

    #[inline(always)]
    fn u64(&mut self, v: u64) -> Result<(), Failure> {
        if let Err(failure) = self.sender.u64(v) {
            self.has_failed = true;
            return Err(failure);
        }
        self.log = self.log.then(&Note::U64(v));
        Ok(())
    }

    fn i128(&mut self, v: i128) -> Result<(), Failure> {
        if let Err(failure) = self.sender.i128(v) {
            self.has_failed = true;
            return Err(failure);
        }
        self.log = self.log.then(&Note::I128(v));
        Ok(())
    }

    fn u128(&mut self, v: u128) -> Result<(), Failure> {
        if let Err(failure) = self.sender.u128(v) {
            self.has_failed = true;
            return Err(failure);
        }
        self.log = self.log.then(&Note::U128(v));
        Ok(())
    }

    fn f32(&mut self, v: f32) -> Result<(), Failure> {
        if let Err(failure) = self.sender.f32(v) {
            self.has_failed = true;
            return Err(failure);
        }
        self.log = self.log.then(&Note::Single(v));
        Ok(())
    }

    fn f64(&mut self, v: f64) -> Result<(), Failure> {
        if let Err(failure) = self.sender.f64(v) {
            self.has_failed = true;
            return Err(failure);
        }
        self.log = self.log.then(&Note::Double(v));
        Ok(())
    }

    fn char(&mut self, v: char) -> Result<(), Failure> {
        if let Err(failure) = self.sender.char(v) {
            self.has_failed = true;
            return Err(failure);
        }
        self.log = self.log.then(&Note::Char(v));
        Ok(())
    }

    #[inline(always)]
    fn str(&mut self, v: &str) -> Result<(), Failure> {
        if let Err(failure) = self.sender.str(v) {
            self.has_failed = true;
            return Err(failure);
        }
        self.log = self.log.then(&Note::Text(v));
        Ok(())
    }

    fn bytes(&mut self, v: &[u8]) -> Result<(), Failure> {
        if let Err(failure) = self.sender.bytes(v) {
            self.has_failed = true;
            return Err(failure);
        }
        self.log = self.log.then(&Note::Bytes(v));
        Ok(())
    }

    fn unit(&mut self) -> Result<(), Failure> {
        if let Err(failure) = self.sender.unit() {
            self.has_failed = true;
            return Err(failure);
        }
        self.log = self.log.then(&Note::Unit);
        Ok(())
    }

    fn str_cased(&mut self, name: &str, case: Case) -> Result<(), Failure> {
        if let Err(failure) = self.sender.str_cased(name, case) {
            self.has_failed = true;
            return Err(failure);
        }
        self.log = self.log.then(&Note::UnitVariant(name, case));
        Ok(())
    }

    fn begin_seq(&mut self, len: Option<usize>) -> Result<(), Failure> {
        if let Err(failure) = self.sender.begin_seq() {
            self.has_failed = true;
            return Err(failure);
        }
        self.log = self.log.then(&Note::BeginSeq(len));
        Ok(())
    }

    fn end_seq(&mut self) -> Result<(), Failure> {
        if let Err(failure) = self.sender.end_seq() {
            self.has_failed = true;
            return Err(failure);
        }
        self.log = self.log.then(&Note::EndSeq);
        Ok(())
    }

    fn begin_map(&mut self, len: Option<usize>) -> Result<(), Failure> {
        if let Err(failure) = self.sender.begin_map() {
            self.has_failed = true;
            return Err(failure);
        }
        self.log = self.log.then(&Note::BeginMap(len));
        Ok(())
    }

    fn end_map(&mut self) -> Result<(), Failure> {
        if let Err(failure) = self.sender.end_map() {
            self.has_failed = true;
            return Err(failure);
        }
        self.log = self.log.then(&Note::EndMap);
        Ok(())
    }

    #[inline(always)]
    fn key_cased(&mut self, name: &str, case: Case) -> Result<(), Failure> {
        if let Err(failure) = self.sender.key_cased(name, case) {
            self.has_failed = true;
            return Err(failure);
        }
        self.log = self.log.then(&Note::FieldKey(name, case));
        Ok(())
    }

    fn variant_key(&mut self, name: &str, case: Case) -> Result<(), Failure> {
        if let Err(failure) = self.sender.variant_key(name, case) {
            self.has_failed = true;
            return Err(failure);
        }
        self.log = self.log.then(&Note::VariantKey(name, case));
        Ok(())
    }

    fn begin_key(&mut self) -> Result<(), Failure> {
        self.sender.begin_key();
        self.log = self.log.then(&Note::BeginKey);
        Ok(())
    }

    fn end_key(&mut self) -> Result<(), Failure> {
        self.sender.end_key();
        self.log = self.log.then(&Note::EndKey);
        Ok(())
    }

    fn flatten_next(&mut self) -> Result<(), Failure> {
        self.sender.flatten_next();
        self.log = self.log.then(&Note::Flatten);
        Ok(())
    }

    fn custom(&self, message: &str) -> Failure {
        self.message
            .set(Some(WriteError::custom(self.alloc, message)));
        Failure::Custom
    }

    fn collect_str<T: Display>(&mut self, value: &T) -> Result<(), Failure> {
        let text = value.to_string(self.alloc)?;
        self.str(text.as_str())
    }
}
