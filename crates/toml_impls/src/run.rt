//! The bytes of a file to what is written for it, or to what is wrong with it.

use crate::answer::{Answer, Task, WRITTEN, answer_to};
use std::alloc::Global;
use std::io::{Read, Write};
use toml_streams::{read_all, write_all};

/// The status where reading, writing or memory failed.
pub const FAILED: u8 = 3;

/// Reads all bytes, and writes what is due for them to `output`, or what is wrong with it to `errors`; answers the
/// status.
///
/// An interrupted read or write counts as failed, and so does a write that takes no byte.
pub fn run<R: Read, W: Write, E: Write>(
    alloc: Global,
    task: Task<'_>,
    reader: &mut R,
    output: &mut W,
    errors: &mut E,
) -> u8 {
    let Ok(input) = read_all(alloc, reader) else {
        return FAILED;
    };
    let Ok(answer) = answer_to(alloc, task, input.as_slice()) else {
        return FAILED;
    };
    if answer.status == WRITTEN {
        return put(output, &answer);
    }
    put(errors, &answer)
}

// Writes the text of an answer; answers its status, or that writing failed.
fn put<W: Write>(writer: &mut W, answer: &Answer) -> u8 {
    match write_all(writer, answer.text.as_bytes()) {
        Ok(()) => answer.status,
        Err(_) => FAILED,
    }
}
