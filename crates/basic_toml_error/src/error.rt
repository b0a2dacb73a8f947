//! What can go wrong.
ghost use Rattle.std.specs.Prelude.{◌≡◌, Some, IsTrue, ◌↔◌, ◌⊎◌, IfOk, IfErr, codes, map, string_bytes};
ghost use Rattle.basic_toml_error.specs.FaultText as text;
ghost use Rattle.basic_toml_error.specs.KindView.{kind_of};

use crate::key_path::copy_keys;
use crate::kind::{ErrorKind, Message};
use crate::line_column::line_column_of;
use crate::message::{
    length_message, missing_message, type_message, unknown_field_kind, unknown_variant_message,
    value_message, wanted_kind,
};
use basic_toml_explain::{KeyPath, ReadError, ReadErrorKind};
use basic_toml_origin::Anchor;
use basic_toml_tree::Node;
use basic_toml_write::WriteError;
use std::alloc::{AllocError, Global};
use std::fmt;
use std::marker::Model;

/// Why a text was not read, or a value not written.
///
/// It is an error of reading, bytes that are not UTF-8, an error of the writer, a message of a type's own, or want of
/// memory. Its text says what is wrong, then the keys that lead there, if there are any, and where it has an offset at
/// which line and column, counted from 1; a column counts bytes.
///
/// A type makes errors of its own at the node that it does not read:
///
/// ```text
/// if text.is_empty() {
///     return Err(Error::invalid_length(alloc, node, 0, "a non-empty string"));
/// }
/// ```
///
/// This is from `toml_callers`. Such an error has the keys that lead to the node, and stands at its `place` where
/// the function names no other; line and column come with the text, from `from_str`. Its origin is that of the node,
/// or of an unknown field that of the field's key ([`origins`](Error::origins)). Where its words or its keys find no
/// memory, it is want of memory instead.
#[derive(Debug, Drop)]
pub struct Error {
    kind: ErrorKind,
    // `None`, or a list without keys, where no key leads there
    key_path: Option<Vec<String>>,
    // the byte offset where it stands, in the text from which line and column come
    offset: Option<usize>,
    line_column: Option<(usize, usize)>,
    // what its node is found by again, of an error that a type makes at one; in a box, as an error is small
    anchor: Option<Box<Anchor>>,
}

impl Model for Error {
    ghost use Rattle.basic_toml_error.specs.Fault.{Fault};

    ghost Value = { Fault };

    ghost use Rattle.basic_toml_error.specs.Error.{fault_of, HasSmallNumbers};

    ghost view = { fault_of };

    ghost invariant = { HasSmallNumbers };
}

impl std::error::Error for Error {}

impl fmt::Display for Error {
    ghost use Rattle.basic_toml_error.specs.FaultText.{fault_text};

    ghost output = { λ e. Some (fault_text e) };

    fn fmt<W: fmt::Write>(&self, f: &mut fmt::Formatter<W>) -> fmt::Result {
        write!(f, "{}{}", self.message(), KeyPath(self.key_path()))?;
        if let Some((line, column)) = self.line_column {
            write!(f, " at line {} column {}", line + 1, column + 1)?;
        }
        Ok(())
    }
}

impl Error {
    ghost use Rattle.basic_toml_tree.specs.Nodes.{node_data};
    ghost use Rattle.basic_toml_tree.specs.Origin.{name_of};
    ghost use Rattle.basic_toml_error.specs.Fault.{custom, wanted, unknown_field, not_text, out_of_memory, without_offset, want_of_memory};
    ghost use Rattle.basic_toml_error.specs.ReadFaults.{fault_in, lined};
    ghost use Rattle.basic_toml_error.specs.NodeFaults.{IsFault, fault_within, fault_at, fault_around, fault_at_start};
    ghost use Rattle.basic_toml_error.specs.NodeFaults.{type_message, value_message, length_message, missing_message};
    ghost use Rattle.basic_toml_error.specs.NodeFaults.{unknown_field_message, unknown_variant_message};

    /// What is wrong, for a caller to match on; [`ErrorKind`] has an example.
    pub fn kind(&self) -> &ErrorKind
        ensures { kind_of result.now ≡ self.now.kind }
    {
        &self.kind
    }

    /// What is wrong, without the keys and the place, to be printed. The error prints as its message, then its keys,
    /// then its line and its column.
    ///
    /// Of the text `"[a.b]\nc.d = 1\nc.d = 2\n"` it is ``duplicate key: `d` ``, as `toml_vectors` has it.
    pub fn message(&self) -> Message<'_>
        ensures { result ≡ text.message self.now.kind }
    {
        Message(&self.kind)
    }

    /// The keys that lead to the error, the outermost first, and none where no key does.
    ///
    /// An error of a clash has those of the section or the header, and in some rows the first key of the row; a type's
    /// own error has those of the section, and the first key of the row, that hold the node. Keys within a row's value
    /// are not among them, nor are numbers of elements. An error of writing a type that derives has the keys that lead
    /// to the value that was refused. Other errors have none, those of the writer too.
    ///
    /// Of the text `"[a.b]\nc.d = 1\nc.d = 2\n"` they are `a`, `b` and `c`, as `toml_vectors` has it.
    pub fn key_path(&self) -> &[String]
        ensures { map string_bytes result.now ≡ self.now.key_path }
    {
        match &self.key_path {
            Some(keys) => keys.as_slice(),
            None => &[],
        }
    }

    /// The byte offset of the error in the text, from 0; at the end of the text it is the text's length.
    ///
    /// `None` for errors of the writer, for want of memory and for bytes that are not UTF-8, and for a type's own error
    /// at the table of a text without rows and headers, which has no place.
    ///
    /// Of the text `"[a.b]\nc.d = 1\nc.d = 2\n"` it is 16, where the second `d` stands, as `toml_vectors` has it.
    pub fn offset(&self) -> Option<usize>
        ensures { result ≡ self.now.offset }
    {
        self.offset
    }

    /// The line and the column of the error's offset, both counted from 0: the text of the error counts them from 1. A
    /// column counts bytes.
    ///
    /// `None` where the error has no offset, and of an error that a type makes at a node, until `from_str` answers it.
    ///
    /// Of the text `"[a.b]\nc.d = 1\nc.d = 2\n"` they are `(2, 2)`, and it prints ` at line 3 column 3`, as
    /// `toml_vectors` has it.
    pub fn line_col(&self) -> Option<(usize, usize)>
        ensures { result ≡ self.now.line_column }
    {
        self.line_column
    }

    // What its node is found by again, of an error that a type makes at one.
    pub(crate) fn anchor(&self) -> Option<Anchor>
        ensures { result ≡ self.now.anchor }
    {
        match &self.anchor {
            Some(anchor) => Some(**anchor),
            None => None,
        }
    }

    /// Whether a growth was refused memory.
    pub fn is_out_of_memory(&self) -> bool
        ensures { IsTrue result ↔ (self.now.kind ≡ out_of_memory) }
    {
        matches!(
            self.kind,
            ErrorKind::Reading(ReadErrorKind::OutOfMemory)
                | ErrorKind::Writing(WriteError::OutOfMemory)
        )
    }

    /// An error of reading this text, with the line and the column of its offset; want of memory where its words cannot
    /// be copied.
    pub fn in_text(alloc: Global, text: &str, error: &ReadError) -> Error
        ensures { (result ≡ want_of_memory) ⊎ (result ≡ fault_in text.now error.now) }
    {
        match Error::copy(alloc, text, error) {
            Ok(error) => error,
            Err(e) => Error::from(e),
        }
    }

    fn copy(alloc: Global, text: &str, error: &ReadError) -> Result<Error, AllocError>
        ensures { IfOk result (λ copy. copy ≡ fault_in text.now error.now) }
    {
        let kind = ErrorKind::of_reading(alloc, error.kind())?;
        let key_path = copy_keys(alloc, error.key_path())?;
        Ok(Error {
            kind,
            key_path: Some(key_path),
            offset: error.place(),
            line_column: line_column_of(text, error.place()),
            anchor: None,
        })
    }

    /// The same error with the line and the column of its offset in this text, if it has none yet.
    pub fn with_line(self, text: &str) -> Error
        ensures { result ≡ lined text.now self }
    {
        let mut error = self;
        if error.line_column.is_none() {
            error.line_column = line_column_of(text, error.offset);
        }
        error
    }

    /// The same error with these keys, the outermost first.
    ///
    /// ```text
    /// Error::from(error).with_keys(keys)
    /// ```
    ///
    /// This is from `basic_toml_serde`, whose `to_string` names the field that is not written. With the keys
    /// `dependencies` and `b` an error prints
    /// ``values must be emitted before tables for key `dependencies.b` ``.
    pub fn with_keys(self, keys: Vec<String>) -> Error
        ensures { result ≡ record self { key_path = map string_bytes keys.items } }
    {
        let mut error = self;
        error.key_path = Some(keys);
        error
    }

    /// `invalid type: .., expected ..`: what a node holds is not of the type that was expected.
    pub fn invalid_type(alloc: Global, node: Node<'_, '_>, expected: &str) -> Error
        ensures { IsFault result (fault_at node.entry (custom (type_message (node_data node.entry) expected.now))) }
    {
        Error::custom_at(alloc, node, type_message(alloc, node, expected))
    }

    /// `invalid value: .., expected ..`: what a node holds is of the type, and not a value of it.
    pub fn invalid_value(alloc: Global, node: Node<'_, '_>, expected: &str) -> Error
        ensures { IsFault result (fault_at node.entry (custom (value_message (node_data node.entry) expected.now))) }
    {
        Error::custom_at(alloc, node, value_message(alloc, node, expected))
    }

    /// `invalid length .., expected ..`: what a node holds has another length than was expected.
    pub fn invalid_length(alloc: Global, node: Node<'_, '_>, length: usize, expected: &str) -> Error
        ensures { IsFault result (fault_at node.entry (custom (length_message length expected.now))) }
    {
        Error::custom_at(alloc, node, length_message(alloc, length, expected))
    }

    /// ``missing field `..` ``: a table lacks a key.
    pub fn missing_field(alloc: Global, node: Node<'_, '_>, field: &str) -> Error
        ensures { IsFault result (fault_at node.entry (custom (missing_message field.now))) }
    {
        Error::custom_at(alloc, node, missing_message(alloc, field))
    }

    /// ``unknown field `..`, expected ..``: a table has a key that is not among the fields.
    pub fn unknown_field(alloc: Global, node: Node<'_, '_>, field: &str, fields: &[&str]) -> Error
        ensures { let message = unknown_field_message field.now (map (λ f. f.now) fields.now) in
            IsFault result (fault_at node.entry (unknown_field field.now message)) }
    {
        Error::at_place(alloc, node, unknown_field_kind(alloc, field, fields))
    }

    /// An error with a message of one's own, which is its text up to the keys.
    pub fn custom(alloc: Global, node: Node<'_, '_>, message: &str) -> Error
        ensures { IsFault result (fault_at node.entry (custom message.now)) }
    {
        Error::custom_at(alloc, node, String::from_str(alloc, message))
    }

    /// ``unknown variant `..`, expected ..``: a string is none of the variants. It stands at the table around the node.
    #[tactic(auto, unfolding(crate::specs::NodeFaults::fault_around))]
    pub fn unknown_variant(
        alloc: Global,
        node: Node<'_, '_>,
        name: &str,
        variants: &[&str],
    ) -> Error
        ensures { IsFault result
            (fault_around node.entry (custom (unknown_variant_message name.now (map (λ v. v.now) variants.now)))) }
    {
        match unknown_variant_message(alloc, name, variants) {
            Ok(message) => Error::within_keys(
                alloc,
                node,
                node.outer_place(),
                ErrorKind::Reading(ReadErrorKind::Custom(message)),
            ),
            Err(e) => Error::from(e),
        }
    }

    /// `expected string, found ..`: a literal is no string. It stands where the node begins.
    #[tactic(auto, unfolding(crate::specs::NodeFaults::fault_at_start))]
    pub fn wanted_string(alloc: Global, node: Node<'_, '_>) -> Error
        ensures { IsFault result (fault_at_start node.entry (wanted (codes "string") (name_of node.entry))) }
    {
        match wanted_kind(alloc, "string", node.type_name()) {
            Ok(kind) => Error::within_keys(alloc, node, node.start(), kind),
            Err(e) => Error::from(e),
        }
    }

    // A message at a node; want of memory where there is none.
    fn custom_at(alloc: Global, node: Node<'_, '_>, message: Result<String, AllocError>) -> Error
        ensures { IfOk message (λ text. IsFault result (fault_at node.entry (custom (string_bytes text))))
            × IfErr message (λ _. result ≡ want_of_memory) }
    {
        let kind = match message {
            Ok(message) => Ok(ErrorKind::Reading(ReadErrorKind::Custom(message))),
            Err(e) => Err(e),
        };
        Error::at_place(alloc, node, kind)
    }

    // An error at a node; want of memory where its words have none.
    #[tactic(auto, unfolding(crate::specs::NodeFaults::fault_at))]
    fn at_place(alloc: Global, node: Node<'_, '_>, kind: Result<ErrorKind, AllocError>) -> Error
        ensures { IfOk kind (λ kind. IsFault result (fault_at node.entry (kind_of kind)))
            × IfErr kind (λ _. result ≡ want_of_memory) }
    {
        match kind {
            Ok(kind) => Error::within_keys(alloc, node, node.place(), kind),
            Err(e) => Error::from(e),
        }
    }

    // An error within the keys of a node.
    fn within_keys(
        alloc: Global,
        node: Node<'_, '_>,
        offset: Option<usize>,
        kind: ErrorKind,
    ) -> Error
        ensures { IsFault result (fault_within node.entry offset (kind_of kind)) }
    {
        match Error::about(alloc, node, offset, kind) {
            Ok(error) => error,
            Err(e) => Error::from(e),
        }
    }

    fn about(
        alloc: Global,
        node: Node<'_, '_>,
        offset: Option<usize>,
        kind: ErrorKind,
    ) -> Result<Error, AllocError>
        ensures { IfOk result (λ error. error ≡ fault_within node.entry offset (kind_of kind)) }
    {
        let keys = node.key_path(alloc)?;
        let anchor = Box::new(alloc, node.anchor())?;
        Ok(Error {
            kind,
            key_path: Some(keys),
            offset,
            line_column: None,
            anchor: Some(anchor),
        })
    }

    /// `input is not valid UTF-8`, without an offset.
    pub fn not_utf8() -> Error
        ensures { result ≡ not_text }
    {
        Error::without_offset(ErrorKind::NotUtf8)
    }

    fn without_offset(kind: ErrorKind) -> Error
        ensures { result ≡ without_offset (kind_of kind) }
    {
        Error {
            kind,
            key_path: None,
            offset: None,
            line_column: None,
            anchor: None,
        }
    }
}

impl From<AllocError> for Error {
    ghost use Rattle.basic_toml_error.specs.Fault.{want_of_memory};

    ghost from_gives = { λ _ e. e ≡ want_of_memory };

    fn from(_e: AllocError) -> Error {
        Error::without_offset(ErrorKind::Reading(ReadErrorKind::OutOfMemory))
    }
}

impl From<WriteError> for Error {
    ghost use Rattle.basic_toml_error.specs.Fault.{without_offset};
    ghost use Rattle.basic_toml_error.specs.WriteFaults.{write_kind};

    ghost from_gives = { λ fault e. e ≡ without_offset (write_kind fault) };

    fn from(fault: WriteError) -> Error {
        Error::without_offset(ErrorKind::Writing(fault))
    }
}
