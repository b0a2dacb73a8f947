//! Writing a type that derives as a text.
ghost use Rattle.std.specs.Prelude.{◌≡◌, ◌⊎◌, IfOk, IfErr, IfSome, string_bytes};
ghost use Rattle.basic_toml_value.specs.Data as d;
ghost use Rattle.basic_toml_value.specs.View.{entries};
ghost use Rattle.basic_toml_write.specs.Impls.{data_calls};
ghost use Rattle.basic_toml.specs.RowsFirst.{rows_first};
ghost use Rattle.basic_toml_serde.specs.Listed.{listed};
ghost use Rattle.basic_toml_serde.specs.Refusals.{AreSent, IsRefusal, IsTableRefusal, IsDataRefusal, IsRefusalRowsFirst, IsErrorOf, IsFaultOf, LeadsInto, HasNoKeys};
ghost use Rattle.basic_toml_serde.specs.Refused.{IsFirstRefused};
ghost use Rattle.basic_toml_serde.specs.Sent.{AreItemsOf};
ghost use Rattle.basic_toml_serde.specs.Written.{IsWritten, IsTextOf, IsSentTable, IsWrittenRowsFirst, IsTextRowsFirst};

use crate::built::{Unbuilt, table_of};
use crate::items::Item;
use crate::refused::{Refusal, first_refused, keys_to_item};
use crate::table_items::items_of;
use crate::writer::Writer;
use basic_toml::{Error, Serializer, Table, WriteError, into_rows_first};
use serde::Serialize;
use std::alloc::{AllocError, Global};

/// The TOML text of a value of a type that derives.
///
/// ```text
/// basic_toml_serde::to_string(alloc, &document)
/// ```
///
/// This is from the program `toml_workloads`. A record is a table, as [`basic_toml::to_string`] lays it out, so its
/// fields that are tables stand behind the others, or [`to_string_rows_first`] puts them there.
///
/// # Errors
///
/// The first that the value meets, as [`basic_toml::Serializer`] says of each: among them `values must be emitted
/// before tables` where a field stands behind a table, and `unsupported None value` for an option that is not there in
/// an array. It has the keys that lead to what is refused ([`Error::key_path`]), and prints them, as in
/// ``values must be emitted before tables for key `dependencies.b` ``. For that the value is sent a second time, and
/// only where it is refused. An error at the root has no keys, and nor has one of a type's own, want of memory, or that
/// of a value that gives up when it is sent again.
pub fn to_string<T: Serialize>(alloc: Global, value: &T) -> Result<String, Error>
    ensures written { IfOk result (λ text. IsWritten (T.writes value.now) (string_bytes text)) }
    ensures refused { IfErr result (IsRefusal (T.writes value.now)) }
{
    match sent_text(alloc, value) {
        Ok(text) => Ok(text),
        Err(error) => Err(value_refusal(alloc, value, error)),
    }
}

/// The TOML text of a value of a type that derives, with the rows of each table before its sections.
///
/// ```text
/// to_string_rows_first(alloc, &value)
/// ```
///
/// This is from the program `derived_manifest`. It is [`to_string`] for a type whose fields, or a map whose values, are
/// tables and other values in any order: what is sent is kept as a table, put in the order of
/// [`basic_toml::into_rows_first`], and then written. So it takes the memory of that table too.
///
/// # Errors
///
/// As [`to_string`], with their keys, but for `values must be emitted before tables`, which never comes. What no table
/// holds is refused first, and then an array that holds a table beside another value, or an array that holds a table.
#[tactic(auto, using(crate::proofs::RefusalsHaveKeys::ordered_refused))]
pub fn to_string_rows_first<T: Serialize>(alloc: Global, value: &T) -> Result<String, Error>
    ensures written { IfOk result (λ text. IsWrittenRowsFirst (T.writes value.now) (string_bytes text)) }
    ensures refused { IfErr result (IsRefusalRowsFirst (T.writes value.now)) }
{
    let table = sent_table(alloc, value)?;
    text_rows_first(alloc, table)
}

// The text of a value, or the error that its writing met.
fn sent_text<T: Serialize>(alloc: Global, value: &T) -> Result<String, WriteError>
    ensures { IfOk result (λ text. IsWritten (T.writes value.now) (string_bytes text)) }
{
    let mut out = Writer::new(alloc, Serializer::new(alloc));
    match value.serialize(&mut out) {
        Ok(()) => text_of(out),
        Err(failure) => Err(out.error(failure)),
    }
}

// The text of the events that were sent.
#[tactic(auto, using(crate::proofs::EventsAreSent::text_sent))]
fn text_of(out: Writer<Serializer>) -> Result<String, WriteError>
    ensures { IfOk result (λ text. IsTextOf out (string_bytes text)) }
{
    let ser = out.into_sink()?;
    ser.finish()
}

// The items that a value is sent as.
fn sent_items<T: Serialize>(alloc: Global, value: &T) -> Result<Vec<Item>, WriteError>
    ensures { IfOk result (λ items. AreSent (T.writes value.now) (listed items.items)) }
{
    let mut out = Writer::new(alloc, Vec::new(alloc));
    match value.serialize(&mut out) {
        Ok(()) => items_in(out),
        Err(failure) => Err(out.error(failure)),
    }
}

// The items of the events that were sent.
#[tactic(auto, using(crate::proofs::RefusalsHaveKeys::items_taken))]
fn items_in(out: Writer<Vec<Item>>) -> Result<Vec<Item>, WriteError>
    ensures { IfOk result (λ items. AreItemsOf out (listed items.items)) }
{
    out.into_sink()
}

// The table that a value is, without its absent options.
#[tactic(auto, using(crate::proofs::RefusalsHaveKeys::table_sent, crate::proofs::RefusalsHaveKeys::no_keys))]
fn sent_table<T: Serialize>(alloc: Global, value: &T) -> Result<Table, Error>
    ensures sent { IfOk result (λ table. IsSentTable (T.writes value.now) (entries table)) }
    ensures refused { IfErr result (IsTableRefusal (T.writes value.now)) }
{
    let items = sent_items(alloc, value)?;
    match table_of(alloc, items) {
        Ok(table) => Ok(table),
        Err(unbuilt) => Err(table_refusal(alloc, value, unbuilt)),
    }
}

// The text of a table with the rows of each table in it first.
#[tactic(auto, using(crate::proofs::TextRowsFirst::rows_first_laid_out, crate::proofs::RefusalsHaveKeys::data_refusals))]
fn text_rows_first(alloc: Global, table: Table) -> Result<String, Error>
    ensures written { IfOk result (λ text. IsTextRowsFirst (d.table (entries table)) (string_bytes text)) }
    ensures refused { IfErr result (IsDataRefusal (rows_first (d.table (entries table)))) }
{
    let table = into_rows_first(alloc, table)?;
    match basic_toml::to_string(alloc, &table) {
        Ok(text) => Ok(text),
        Err(error) => Err(data_refusal(alloc, &table, error)),
    }
}

// The error of a value that is not written. Its items are asked for once more, and the first that is refused tells the
// keys. A type's own error has none, and nor has that of a value that now gives up.
#[cold]
#[inline(never)]
#[tactic(auto, using(crate::proofs::RefusalsHaveKeys::value_refusals))]
fn value_refusal<T: Serialize>(alloc: Global, value: &T, error: WriteError) -> Error
    ensures { IsRefusal (T.writes value.now) result }
{
    if matches!(error, WriteError::Custom(_) | WriteError::OutOfMemory) {
        return Error::from(error);
    }
    match sent_items(alloc, value) {
        Ok(items) => refusal_among(alloc, items.as_slice(), error),
        Err(WriteError::OutOfMemory) => Error::from(WriteError::OutOfMemory),
        Err(_) => Error::from(error),
    }
}

// The error of the first of these items that is refused, or else this one.
#[tactic(auto, using(crate::proofs::RefusalsHaveKeys::no_keys, crate::proofs::RefusalsHaveKeys::first_fault))]
fn refusal_among(alloc: Global, items: &[Item], error: WriteError) -> Error
    ensures { HasNoKeys result ⊎ IsFaultOf (listed items.now) result }
{
    match first_refused(alloc, items) {
        Ok(Some(refusal)) => error_of(refusal),
        Ok(None) => Error::from(error),
        Err(e) => Error::from(e),
    }
}

// Want of memory has no keys.
fn error_of(refusal: Refusal) -> Error
    ensures { IsErrorOf refusal result }
{
    let Refusal { error, keys } = refusal;
    match error {
        WriteError::OutOfMemory => Error::from(WriteError::OutOfMemory),
        error => Error::from(error).with_keys(keys),
    }
}

// The error of a value that is no table, with the keys that lead to the item that met it.
#[cold]
#[inline(never)]
#[tactic(auto, using(crate::proofs::RefusalsHaveKeys::table_refusals))]
fn table_refusal<T: Serialize>(alloc: Global, value: &T, unbuilt: Unbuilt) -> Error
    ensures { IsTableRefusal (T.writes value.now) result }
{
    let Unbuilt { error, at } = unbuilt;
    if matches!(error, WriteError::OutOfMemory) {
        return Error::from(error);
    }
    match sent_items(alloc, value) {
        Ok(items) => error_at(alloc, items.as_slice(), error, at),
        Err(WriteError::OutOfMemory) => Error::from(WriteError::OutOfMemory),
        Err(_) => Error::from(error),
    }
}

// An error with the keys that lead to the item of this number.
#[tactic(auto, using(crate::proofs::RefusalsHaveKeys::no_keys, crate::proofs::RefusalsHaveKeys::item_led_to))]
fn error_at(alloc: Global, items: &[Item], error: WriteError, at: usize) -> Error
    ensures { HasNoKeys result ⊎ LeadsInto (listed items.now) result }
{
    match keys_to_item(alloc, items, at) {
        Ok(keys) => Error::from(error).with_keys(keys),
        Err(e) => Error::from(e),
    }
}

// The error of a table that is not written, with the keys that lead to what is refused first, if anything is.
#[cold]
#[inline(never)]
#[tactic(auto, using(crate::proofs::RefusalsHaveKeys::no_keys, crate::proofs::RefusalsHaveKeys::first_fault))]
fn data_refusal(alloc: Global, table: &Table, error: Error) -> Error
    ensures { (result ≡ error) ⊎ IsDataRefusal (d.table (entries table.now)) result }
{
    if error.is_out_of_memory() {
        return error;
    }
    match refused_in(alloc, table) {
        Ok(Some(refusal)) => error_of(refusal),
        Ok(None) => error,
        Err(e) => Error::from(e),
    }
}

// The first item of a table that is refused, if one is.
fn refused_in(alloc: Global, table: &Table) -> Result<Option<Refusal>, AllocError>
    ensures { IfOk result (λ found. IfSome found (IsFirstRefused (data_calls (d.table (entries table.now))))) }
{
    let items = items_of(alloc, table)?;
    first_refused(alloc, items.as_slice())
}
