//! What a text or a list of calls gives, in the form of the line that says what it must give.
use crate::calls::Outcome;
use crate::escapes::{bytes_of, push_escaped, spread};
use crate::lists::{of_joined, of_reversed};
use crate::numbers::number_of;
use crate::own_types::read_as_own;
use crate::sections_shown::sections_of;
use crate::targets::read_as;
use crate::tokens_shown::tokens_of;
use basic_toml::{Error, Table, from_slice, table_to_string, table_to_string_pretty, to_string};
use std::alloc::{AllocError, Global};
use std::str;
use toml_json_text::{Form, json_of};

/// What is wanted and what came out.
type Pair = (String, String);

fn plain(alloc: Global, wanted: &str, got: String) -> Result<Pair, AllocError> {
    Ok((String::from_str(alloc, wanted)?, got))
}

// A text that is wanted, written out and with the escapes that the output has.
fn even_out(alloc: Global, wanted: &str) -> Result<String, AllocError> {
    let bytes = bytes_of(alloc, wanted)?;
    let mut out = String::new(alloc);
    push_escaped(&mut out, str::from_utf8(bytes.as_slice()).unwrap_or(""))?;
    Ok(out)
}

fn escape(alloc: Global, text: &str) -> Result<String, AllocError> {
    let mut out = String::new(alloc);
    push_escaped(&mut out, text)?;
    Ok(out)
}

// The table as JSON, or that it is refused.
fn value_of(alloc: Global, bytes: &[u8]) -> Result<String, AllocError> {
    match from_slice::<Table>(alloc, bytes) {
        Ok(table) => json_of(alloc, Form::Tagged, &table),
        Err(error) => format!(in alloc; "error {error}"),
    }
}

// The printed error; the line and the column that it has are those that it prints.
fn error_of(alloc: Global, bytes: &[u8]) -> Result<String, AllocError> {
    match from_slice::<Table>(alloc, bytes) {
        Ok(table) => json_of(alloc, Form::Tagged, &table),
        Err(error) => {
            let shown = format!(in alloc; "{error}")?;
            let Some((line, column)) = error.line_col() else {
                return Ok(shown);
            };
            let line = line.saturating_add(1);
            let column = column.saturating_add(1);
            let place = format!(in alloc; " at line {line} column {column}")?;
            if shown.as_str().ends_with(place.as_str()) {
                Ok(shown)
            } else {
                format!(in alloc; "{shown}, and not{place}")
            }
        }
    }
}

// The text that is written of the table, or why none is.
fn written_of(alloc: Global, bytes: &[u8]) -> Result<String, AllocError> {
    match from_slice::<Table>(alloc, bytes) {
        Ok(table) => match to_string(alloc, &table) {
            Ok(text) => escape(alloc, text.as_str()),
            Err(error) => format!(in alloc; "unwritten {error}"),
        },
        Err(error) => format!(in alloc; "error {error}"),
    }
}

// The text of the table that is written whatever the table holds.
fn document_of(alloc: Global, bytes: &[u8]) -> Result<String, AllocError> {
    match from_slice::<Table>(alloc, bytes) {
        Ok(table) => text_or_error(alloc, table_to_string(alloc, &table)),
        Err(error) => format!(in alloc; "error {error}"),
    }
}

// The same for people.
fn pretty_of(alloc: Global, bytes: &[u8]) -> Result<String, AllocError> {
    match from_slice::<Table>(alloc, bytes) {
        Ok(table) => text_or_error(alloc, table_to_string_pretty(alloc, &table)),
        Err(error) => format!(in alloc; "error {error}"),
    }
}

fn text_or_error(alloc: Global, written: Result<String, Error>) -> Result<String, AllocError> {
    match written {
        Ok(text) => escape(alloc, text.as_str()),
        Err(error) => format!(in alloc; "error {error}"),
    }
}

fn unwritten_of(alloc: Global, bytes: &[u8]) -> Result<String, AllocError> {
    match from_slice::<Table>(alloc, bytes) {
        Ok(table) => match to_string(alloc, &table) {
            Ok(text) => escape(alloc, text.as_str()),
            Err(error) => format!(in alloc; "{error}"),
        },
        Err(error) => format!(in alloc; "error {error}"),
    }
}

fn of_joined_line(alloc: Global, text: &str, rest: &str) -> Result<Pair, AllocError> {
    let (more, wanted) = rest.split_once(" => ").unwrap_or((rest, ""));
    let more = bytes_of(alloc, more)?;
    let more = str::from_utf8(more.as_slice()).unwrap_or("");
    plain(alloc, wanted, of_joined(alloc, text, more)?)
}

fn of_type(alloc: Global, text: &str, is_root: bool, rest: &str) -> Result<Pair, AllocError> {
    let (kind, wanted) = rest.split_once(' ').unwrap_or((rest, ""));
    match read_as(alloc, kind, is_root, text) {
        Some(got) => plain(alloc, wanted, got?),
        None => plain(alloc, wanted, String::from_str(alloc, "no such type")?),
    }
}

fn of_own_type(alloc: Global, text: &str, rest: &str) -> Result<Pair, AllocError> {
    let (kind, wanted) = rest.split_once(' ').unwrap_or((rest, ""));
    match read_as_own(alloc, kind, text) {
        Some(got) => plain(alloc, wanted, got?),
        None => plain(alloc, wanted, String::from_str(alloc, "no such type")?),
    }
}

// Lines about the parts of reading, which only a text has.
fn answer_of_text(alloc: Global, text: &str, word: &str, rest: &str) -> Result<Pair, AllocError> {
    match word {
        "tokens" => plain(alloc, rest, tokens_of(alloc, text)?),
        "sections" => plain(alloc, rest, sections_of(alloc, text)?),
        "reversed" => plain(alloc, rest, of_reversed(alloc, text)?),
        "joined" => of_joined_line(alloc, text, rest),
        "v" => of_type(alloc, text, false, rest),
        "root" => of_type(alloc, text, true, rest),
        "own" => of_own_type(alloc, text, rest),
        "integer" | "float" | "no" => {
            let wanted = format!(in alloc; "{word} {rest}")?;
            Ok((wanted, number_of(alloc, text)?))
        }
        _ => {
            let got = format!(in alloc; "no such line as `{word}`")?;
            plain(alloc, rest, got)
        }
    }
}

/// What a line wants of a text, and what the text gives.
pub fn answer_of(alloc: Global, bytes: &[u8], word: &str, rest: &str) -> Result<Pair, AllocError> {
    match word {
        "value" => Ok((spread(alloc, rest)?, value_of(alloc, bytes)?)),
        "error" => plain(alloc, rest, error_of(alloc, bytes)?),
        "written" => Ok((even_out(alloc, rest)?, written_of(alloc, bytes)?)),
        "unwritten" => plain(alloc, rest, unwritten_of(alloc, bytes)?),
        "document" => Ok((even_out(alloc, rest)?, document_of(alloc, bytes)?)),
        "pretty" => Ok((even_out(alloc, rest)?, pretty_of(alloc, bytes)?)),
        _ => match str::from_utf8(bytes) {
            Ok(text) => answer_of_text(alloc, text, word, rest),
            Err(_) => plain(alloc, rest, String::from_str(alloc, "no text")?),
        },
    }
}

/// What a line wants of a list of calls, and what the calls came to.
pub fn calls_answer(
    alloc: Global,
    outcome: &Outcome,
    word: &str,
    rest: &str,
) -> Result<Pair, AllocError> {
    let taken = outcome.taken;
    let got = match &outcome.answer {
        Ok(text) => {
            let text = escape(alloc, text.as_str())?;
            format!(in alloc; "written {text}")?
        }
        Err(error) => format!(in alloc; "refused {taken} {error}")?,
    };
    if !outcome.stayed {
        return plain(
            alloc,
            rest,
            String::from_str(alloc, "refused, and then not")?,
        );
    }
    let wanted = match word {
        "written" => even_out(alloc, rest)?,
        _ => String::from_str(alloc, rest)?,
    };
    Ok((format!(in alloc; "{word} {wanted}")?, got))
}
