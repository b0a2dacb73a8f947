//! How code is laid out: as `rt fmt` has it.

use crate::template::filled;
use std::alloc::{AllocError, Global};
use std::convert::AsStr;

// The width that a line may have.
const LINE: usize = 100;

// The width that the arguments of a call on one line may have, and the elements of an array.
const ARGUMENTS: usize = 60;

// The width that an element of an array may have where several stand on a line.
const SHORT: usize = 10;

/// Parts with a comma behind each: this begins their lines, each of which has room for so many bytes behind that.
pub fn in_lines<S: AsStr>(
    alloc: Global,
    parts: &[S],
    begin: &str,
    room: usize,
) -> Result<String, AllocError> {
    let mut text = String::new(alloc);
    let mut left = 0;
    for part in parts {
        let part = part.as_str();
        let needed = part.len().saturating_add(2);
        if needed > left {
            text.push_str(begin)?;
            left = room.saturating_add(1);
        } else {
            text.push(' ')?;
        }
        write!(text, "{part},")?;
        left = left.saturating_sub(needed);
    }
    Ok(text)
}

/// An array by reference that stands behind twelve blanks where it needs several lines.
pub fn array(alloc: Global, elements: &[String]) -> Result<String, AllocError> {
    let all = elements.join(alloc, ", ")?;
    if all.len() <= ARGUMENTS {
        return format!(in alloc; "&[{all}]");
    }
    let is_short = elements.iter().all(|element| element.len() <= SHORT);
    let room = if is_short { LINE - 16 } else { 0 };
    let lines = in_lines(alloc, elements, "\n                ", room)?;
    format!(in alloc; "&[{lines}\n            ]")
}

/// A template in the first of its layouts whose first line is no longer than a line may be, else in the last.
pub fn laid_out(
    alloc: Global,
    layouts: &[&str],
    own: &[(&str, &str)],
    made: &[(&str, String)],
) -> Result<String, AllocError> {
    let mut text = String::new(alloc);
    for layout in layouts {
        text = filled(alloc, layout, own, made)?;
        if text.find('\n').unwrap_or(text.len()) <= LINE {
            break;
        }
    }
    Ok(text)
}

/// A call in the first of two layouts, if its arguments, which have so many bytes, may stand on a line, else in the
/// second.
pub fn call(
    alloc: Global,
    layouts: &[&str; 2],
    arguments: usize,
    own: &[(&str, &str)],
    made: &[(&str, String)],
) -> Result<String, AllocError> {
    if arguments <= ARGUMENTS {
        laid_out(alloc, layouts, own, made)
    } else {
        filled(alloc, layouts[1], own, made)
    }
}
