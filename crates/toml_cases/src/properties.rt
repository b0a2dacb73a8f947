//! What holds of every text: it is checked of each text of the case files, and of random ones.
use crate::report::{Place, Report};
use basic_toml::{
    Error, Table, from_slice, from_str, line_col, rows_first, table_to_string,
    table_to_string_pretty, to_string,
};
use basic_toml_read::{ReadError, sections};
use basic_toml_tree::resolve;
use std::alloc::{AllocError, Global};
use std::str;

// The longest text that is cut everywhere and written in other ways.
const LONGEST: usize = 2000;

/// What a text came to.
#[derive(Clone, Copy, PartialEq, Eq)]
pub(crate) enum Kind {
    NoText,
    Refused,
    Read,
    Written,
}

/// What holds, or what does not.
type Verdict = Result<Kind, &'static str>;

/// Whether a text has this line and column, both from 0, its end included; a column counts bytes.
fn is_within(text: &[u8], place: (usize, usize)) -> bool {
    let (mut lines_left, mut columns_left) = place;
    for byte in text {
        if lines_left > 0 {
            if *byte == b'\n' {
                lines_left -= 1;
            }
        } else if columns_left > 0 && *byte != b'\n' {
            columns_left -= 1;
        } else {
            return columns_left == 0;
        }
    }
    lines_left == 0 && columns_left == 0
}

// Why the text's sections or its tree are refused.
fn read_error(alloc: Global, text: &str) -> Option<ReadError> {
    match sections(alloc, text) {
        Ok(list) => resolve(alloc, list).err(),
        Err(error) => Some(error),
    }
}

// Whether the error prints as the section list's or the tree's, with its line and column, which lie in the text.
fn is_placed(alloc: Global, text: &str, error: &Error) -> Result<bool, AllocError> {
    let (Some(below), Some(place)) = (read_error(alloc, text), error.line_col()) else {
        return Ok(false);
    };
    let Some(offset) = below.place() else {
        return Ok(false);
    };
    let (line, column) = place;
    let long = format!(in alloc;
        "{below} at line {} column {}",
        line.saturating_add(1),
        column.saturating_add(1)
    )?;
    let printed = format!(in alloc; "{error}")?;
    Ok(long == printed && line_col(text, offset) == place && is_within(text.as_bytes(), place))
}

// A table that is written is read back as itself, and then written as the same text.
fn write_again(alloc: Global, table: &Table) -> Result<Verdict, AllocError> {
    let written = match to_string(alloc, table) {
        Ok(written) => written,
        Err(error) if error.is_out_of_memory() => return Err(AllocError),
        Err(_) => return Ok(Ok(Kind::Read)),
    };
    let Ok(again) = from_str::<Table>(alloc, written.as_str()) else {
        return Ok(Err("what is written is not read"));
    };
    if again != *table {
        return Ok(Err("what is written is read as another table"));
    }
    let is_same = match to_string(alloc, &again) {
        Ok(text) => text == written,
        Err(_) => false,
    };
    if is_same {
        Ok(Ok(Kind::Written))
    } else {
        Ok(Err("what is written is written otherwise again"))
    }
}

// Whether the text that any table has is read, and then written as the same text; where the table can be written with
// its rows first, it is that text. And so its text for people, which is read as the same table.
fn has_document(alloc: Global, table: &Table) -> Result<bool, Error> {
    let text = table_to_string(alloc, table)?;
    let Ok(again) = from_str::<Table>(alloc, text.as_str()) else {
        return Ok(false);
    };
    let ordered = rows_first(alloc, table)?;
    let is_same = match to_string(alloc, &ordered) {
        Ok(written) => written == text,
        Err(_) => true,
    };
    Ok(
        is_same
            && table_to_string(alloc, &again)? == text
            && has_text_for_people(alloc, table, &again)?,
    )
}

// Whether the text for people is read as the same table as the other text, and then written as the same text.
fn has_text_for_people(alloc: Global, table: &Table, as_read: &Table) -> Result<bool, Error> {
    let text = table_to_string_pretty(alloc, table)?;
    let Ok(again) = from_str::<Table>(alloc, text.as_str()) else {
        return Ok(false);
    };
    Ok(again == *as_read && table_to_string_pretty(alloc, &again)? == text)
}

/// What a text comes to: it is refused within it, or read, and read back where it is written.
pub(crate) fn kind_of(alloc: Global, text: &str) -> Result<Verdict, AllocError> {
    match from_str::<Table>(alloc, text) {
        Ok(table) => match has_document(alloc, &table) {
            Ok(true) => write_again(alloc, &table),
            Ok(false) => Ok(Err("the text of any table is not read back")),
            Err(_) => Err(AllocError),
        },
        Err(error) => {
            if is_placed(alloc, text, &error)? {
                Ok(Ok(Kind::Refused))
            } else {
                Ok(Err("the error is not placed"))
            }
        }
    }
}

// What a text gives, or how it is refused.
#[derive(Drop)]
enum Answer {
    Table(Table),
    Refused(String),
}

fn answer_of(alloc: Global, read: Result<Table, Error>) -> Result<Answer, AllocError> {
    match read {
        Ok(table) => Ok(Answer::Table(table)),
        Err(error) => Ok(Answer::Refused(format!(in alloc; "{error}")?)),
    }
}

// Whether two answers are the same; of two errors so much as stands before the place, or all.
fn are_same(one: &Answer, other: &Answer, with_place: bool) -> bool {
    match (one, other) {
        (Answer::Table(one), Answer::Table(other)) => *one == *other,
        (Answer::Refused(one), Answer::Refused(other)) => {
            if with_place {
                one.as_str() == other.as_str()
            } else {
                message(one.as_str()) == message(other.as_str())
            }
        }
        _ => false,
    }
}

fn message(printed: &str) -> &str {
    match printed.split_once(" at line ") {
        Some((message, _)) => message,
        None => printed,
    }
}

// The text with CR LF for each LF.
fn with_returns(alloc: Global, text: &str) -> Result<String, AllocError> {
    let mut long = String::new(alloc);
    for c in text.chars() {
        if c == '\n' {
            long.push('\r')?;
        }
        long.push(c)?;
    }
    Ok(long)
}

// A text without CR means the same with other line ends, and each with a byte order mark in front.
fn means_the_same(alloc: Global, text: &str) -> Result<Option<&'static str>, AllocError> {
    let answer = answer_of(alloc, from_str(alloc, text))?;
    if !text.contains('\r') {
        let long = with_returns(alloc, text)?;
        let other = answer_of(alloc, from_str(alloc, long.as_str()))?;
        if !are_same(&answer, &other, true) {
            return Ok(Some("it means something else with CR LF"));
        }
    }
    if !text.starts_with('\u{feff}') {
        let marked = format!(in alloc; "\u{feff}{text}")?;
        let other = answer_of(alloc, from_str(alloc, marked.as_str()))?;
        if !are_same(&answer, &other, false) {
            return Ok(Some("it means something else with U+FEFF in front"));
        }
    }
    Ok(None)
}

// What bytes come to that are this text: they answer as it does, and an error lies within it.
fn as_text(
    alloc: Global,
    text: &str,
    answer: &Answer,
    place: Option<(usize, usize)>,
) -> Result<Verdict, AllocError> {
    let same = answer_of(alloc, from_str(alloc, text))?;
    if !are_same(answer, &same, true) {
        return Ok(Err("the text and its bytes are not read alike"));
    }
    match (answer, place) {
        (Answer::Table(_), _) => Ok(Ok(Kind::Read)),
        (Answer::Refused(_), Some(place)) if is_within(text.as_bytes(), place) => {
            Ok(Ok(Kind::Refused))
        }
        (Answer::Refused(_), _) => Ok(Err("the error is not within the text")),
    }
}

// What bytes come to that are no text: they are refused as such, without a place.
fn as_no_text(answer: &Answer, place: Option<(usize, usize)>) -> Verdict {
    match answer {
        Answer::Refused(printed)
            if place.is_none() && printed.as_str() == "input is not valid UTF-8" => {
            Ok(Kind::NoText)
        }
        _ => Err("bytes that are no text are not refused as such"),
    }
}

/// What bytes come to: those that are no text are refused as such, and a text as it is as a text.
pub(crate) fn kind_of_bytes(alloc: Global, bytes: &[u8]) -> Result<Verdict, AllocError> {
    let read = from_slice::<Table>(alloc, bytes);
    let place = match &read {
        Ok(_) => None,
        Err(error) => error.line_col(),
    };
    let answer = answer_of(alloc, read)?;
    match str::from_utf8(bytes) {
        Ok(text) => as_text(alloc, text, &answer, place),
        Err(_) => Ok(as_no_text(&answer, place)),
    }
}

// Each cut of a text is read or refused within it, and one inside a character is no text.
fn each_cut(alloc: Global, text: &str) -> Result<Option<&'static str>, AllocError> {
    let bytes = text.as_bytes();
    for end in 0..bytes.len() {
        let cut = bytes.get(..end).unwrap_or(&[]);
        match kind_of_bytes(alloc, cut)? {
            Err(what) => return Ok(Some(what)),
            Ok(kind) => {
                if (kind == Kind::NoText) == text.is_char_boundary(end) {
                    return Ok(Some("a cut is no text, or a text, where it may not be"));
                }
            }
        }
    }
    Ok(None)
}

fn first_wrong(alloc: Global, bytes: &[u8]) -> Result<Option<&'static str>, AllocError> {
    let by_bytes = match kind_of_bytes(alloc, bytes)? {
        Err(what) => return Ok(Some(what)),
        Ok(kind) => kind,
    };
    let Ok(text) = str::from_utf8(bytes) else {
        return Ok(None);
    };
    match kind_of(alloc, text)? {
        Err(what) => return Ok(Some(what)),
        Ok(kind) => {
            if (kind == Kind::Refused) != (by_bytes == Kind::Refused) {
                return Ok(Some("the text and its bytes are not read alike"));
            }
        }
    }
    if bytes.len() > LONGEST {
        return Ok(None);
    }
    if let Some(what) = means_the_same(alloc, text)? {
        return Ok(Some(what));
    }
    each_cut(alloc, text)
}

/// Checks what holds of every text.
pub(crate) fn check(
    alloc: Global,
    report: &mut Report,
    place: Place<'_>,
    bytes: &[u8],
) -> Result<(), AllocError> {
    match first_wrong(alloc, bytes)? {
        None => {
            report.pass();
            Ok(())
        }
        Some(what) => report.fail(place, what),
    }
}
