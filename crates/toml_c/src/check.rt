//! What is wrong with a text, and where.
ghost use Rattle.std.specs.Prelude.{◌≡◌, ◌≢◌, IfOk, map, option_map, string_bytes};
ghost use Rattle.std.specs.Option.{option_and_then};
ghost use Rattle.basic_toml.specs.Fault.{out_of_memory};
ghost use Rattle.basic_toml.specs.FaultText.{message};
ghost use Rattle.basic_toml.specs.ReadErrorText.{joined};
ghost use Rattle.toml_c.specs.Checks as spec;
ghost use Rattle.toml_c.specs.Checks.{ArePlaces};

use crate::answer::{DONE, OUT_OF_MEMORY, REFUSED, put};
use crate::document::table_of;
use basic_toml::{Error, Origins, line_col};
use std::alloc::{AllocError, Global};

/// What is wrong with a text.
#[repr(C)]
#[derive(Clone, Copy, Debug)]
pub struct TomlFinding {
    /// 0 where the text is TOML, 1 where it is refused, and 3 where memory was refused.
    pub status: u32,
    /// Whether it is an error that stands at a line and a column: any but that of bytes that are not UTF-8.
    pub has_place: bool,
    /// The line, from 0; else 0.
    pub line: usize,
    /// The column, from 0 and in bytes; else 0.
    pub column: usize,
    /// The line where what the error is about is written, from 0: of a clash that of the later key or header, else that
    /// of the error; else 0.
    pub origin_line: usize,
    /// The column there, from 0 and in bytes; else 0.
    pub origin_column: usize,
    /// Whether it clashes with what stands before it, which has a place too: a key, a header, or the value that a row
    /// goes on from.
    pub has_other: bool,
    /// The line of what stands before it, from 0; else 0.
    pub other_line: usize,
    /// The column there, from 0 and in bytes; else 0.
    pub other_column: usize,
    /// How many bytes the message has, whether or not there was room for them.
    pub message_length: usize,
    /// How many bytes the keys that lead to the error have, with periods between them; 0 where there are none.
    pub key_path_length: usize,
}

/// Reads a text and says what is wrong with it: the message goes to the front of `message`, and the keys that lead to
/// the error to that of `key_path`, with periods between them, as much of each as there is room for.
///
/// A length above that of the memory asks for another call, with more room. Where the text is TOML, and where memory is
/// refused, nothing is written.
#[unsafe(no_mangle)]
pub extern "C" fn toml_c_check(
    alloc: Global,
    input: &[u8],
    message: &mut [u8],
    key_path: &mut [u8],
) -> TomlFinding
    ensures { spec.Checks input.now message.old message.new key_path.old key_path.new result }
{
    match table_of(alloc, input) {
        Ok(_) => found(DONE, NO_PLACES, 0, 0),
        Err(error) => match report_of(alloc, input, &error) {
            Ok(report) => {
                let words = report.message.as_bytes();
                let keys = report.key_path.as_bytes();
                put(message, words);
                put(key_path, keys);
                found(REFUSED, report.places, words.len(), keys.len())
            }
            Err(_) => found(OUT_OF_MEMORY, NO_PLACES, 0, 0),
        },
    }
}

// Lines and columns, from 0 and in bytes.
#[derive(Clone, Copy)]
struct Places {
    // where an error stands
    error: Option<(usize, usize)>,
    // where what it is about is written, and of a clash where what stands first is
    origin: Option<(usize, usize)>,
    other: Option<(usize, usize)>,
}

const NO_PLACES: Places = Places {
    error: None,
    origin: None,
    other: None,
};

fn found(status: u32, places: Places, message_length: usize, key_path_length: usize) -> TomlFinding
    ensures { result ≡ spec.found status places message_length key_path_length }
{
    let (line, column) = places.error.unwrap_or((0, 0));
    let (origin_line, origin_column) = places.origin.unwrap_or((0, 0));
    let (other_line, other_column) = places.other.unwrap_or((0, 0));
    TomlFinding {
        status,
        has_place: places.error.is_some(),
        line,
        column,
        origin_line,
        origin_column,
        has_other: places.other.is_some(),
        other_line,
        other_column,
        message_length,
        key_path_length,
    }
}

// What is told of an error.
#[derive(Drop)]
struct Report {
    message: String,
    key_path: String,
    places: Places,
}

// Nothing is told of want of memory.
fn report_of(alloc: Global, input: &[u8], error: &Error) -> Result<Report, AllocError>
    ensures message { IfOk result (λ t. string_bytes t.message ≡ message error.now.kind) }
    ensures keys { IfOk result (λ t. string_bytes t.key_path ≡ joined error.now.key_path) }
    ensures places { IfOk result (λ t. ArePlaces input.now error.now t.places) }
    ensures kind { IfOk result (λ _. error.now.kind ≢ out_of_memory) }
{
    if error.is_out_of_memory() {
        return Err(AllocError);
    }
    let message = error.message();
    Ok(Report {
        message: format!(in alloc; "{message}")?,
        key_path: with_periods(alloc, error.key_path())?,
        places: places_of(alloc, input, error)?,
    })
}

// Keys with periods between them.
fn with_periods(alloc: Global, keys: &[String]) -> Result<String, AllocError>
    ensures { IfOk result (λ text. string_bytes text ≡ joined (map string_bytes keys.now)) }
{
    keys.join(alloc, ".")
}

// Where an error of some bytes stands, and where what it is about is written.
#[tactic(auto, using(crate::proofs::PlacesAreFound::of_text, crate::proofs::PlacesAreFound::of_bytes))]
fn places_of(alloc: Global, input: &[u8], error: &Error) -> Result<Places, AllocError>
    ensures { IfOk result (λ places. ArePlaces input.now error.now places) }
{
    let Ok(text) = str::from_utf8(input) else {
        return Ok(Places {
            error: error.line_col(),
            origin: None,
            other: None,
        });
    };
    match error.origins(alloc, text) {
        Ok(origins) => Ok(Places {
            error: error.line_col(),
            origin: place_of(text, origin_offset(origins)),
            other: place_of(text, other_offset(origins)),
        }),
        Err(_) => Err(AllocError),
    }
}

fn origin_offset(origins: Option<Origins>) -> Option<usize>
    ensures { result ≡ option_map (λ o. o.origin) origins }
{
    Some(origins?.origin)
}

fn other_offset(origins: Option<Origins>) -> Option<usize>
    ensures { result ≡ option_and_then (λ o. o.other) origins }
{
    origins?.other
}

// The line and the column of an offset, if there is one.
fn place_of(text: &str, offset: Option<usize>) -> Option<(usize, usize)>
    ensures { result ≡ spec.place_of text.now offset }
{
    match offset {
        Some(offset) => Some(line_col(text, offset)),
        None => None,
    }
}
