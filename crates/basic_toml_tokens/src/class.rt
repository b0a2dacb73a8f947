//! Runs of characters, by their bytes.
ghost use Rattle.std.specs.Prelude.{◌≡◌, ◌<◌, ◌≤◌, length, false, slice_index};
ghost use Rattle.std.specs.Str.{IsCharBoundary};
ghost use Rattle.basic_toml_tokens.specs.Reading.{IsRun};
ghost use Rattle.basic_toml_tokens.specs.Class.{passes, run_end};
ghost use Rattle.basic_toml_tokens.specs.Lanes.{class_of};

use crate::lanes::{LANES, Wide, run_in_block};

/// What a run is of. None holds a line feed or a carriage return.
#[derive(Clone, Copy, Drop)]
pub enum Class {
    /// Spaces and tabs.
    Blank,
    /// Letters, digits, `-` and `_`.
    Keylike,
    /// Tabs, and all characters from U+0020 on but U+007F.
    Comment,
    /// The same without `'`.
    Literal,
    /// The same without `"` and the backslash.
    Basic,
}

// A class is a bit of a byte's entry in the table.
const BLANK: u8 = 1;

const KEYLIKE: u8 = 2;

const COMMENT: u8 = 4;

const LITERAL: u8 = 8;

const BASIC: u8 = 16;

// A control character other than the tab, in no class.
const C: u8 = 0;

// A blank: a space or a tab.
const B: u8 = BLANK | COMMENT | LITERAL | BASIC;

// A letter, a digit, `-` or `_`, as in a word.
const W: u8 = KEYLIKE | COMMENT | LITERAL | BASIC;

// The single quote.
const S: u8 = COMMENT | BASIC;

// The double quote or the backslash.
const D: u8 = COMMENT | LITERAL;

// Any other byte, each byte of a character beyond ASCII among them.
const O: u8 = COMMENT | LITERAL | BASIC;

// The classes of each byte, 32 in a row.
static CLASSES: [u8; 256] = [
    C, C, C, C, C, C, C, C, C, B, C, C, C, C, C, C, C, C, C, C, C, C, C, C, C, C, C, C, C, C, C, C,
    B, O, D, O, O, O, O, S, O, O, O, O, O, W, O, O, W, W, W, W, W, W, W, W, W, W, O, O, O, O, O, O,
    O, W, W, W, W, W, W, W, W, W, W, W, W, W, W, W, W, W, W, W, W, W, W, W, W, W, W, O, D, O, O, W,
    O, W, W, W, W, W, W, W, W, W, W, W, W, W, W, W, W, W, W, W, W, W, W, W, W, W, W, O, O, O, O, C,
    O, O, O, O, O, O, O, O, O, O, O, O, O, O, O, O, O, O, O, O, O, O, O, O, O, O, O, O, O, O, O, O,
    O, O, O, O, O, O, O, O, O, O, O, O, O, O, O, O, O, O, O, O, O, O, O, O, O, O, O, O, O, O, O, O,
    O, O, O, O, O, O, O, O, O, O, O, O, O, O, O, O, O, O, O, O, O, O, O, O, O, O, O, O, O, O, O, O,
    O, O, O, O, O, O, O, O, O, O, O, O, O, O, O, O, O, O, O, O, O, O, O, O, O, O, O, O, O, O, O, O,
];

/// Whether a character with this first byte is of the class.
#[inline]
pub(crate) fn is_in(class: Class, byte: u8) -> bool
    ensures { result ≡ passes class byte }
{
    let bit = match class {
        Class::Blank => BLANK,
        Class::Keylike => KEYLIKE,
        Class::Comment => COMMENT,
        Class::Literal => LITERAL,
        Class::Basic => BASIC,
    };
    CLASSES[byte as usize] & bit != 0
}

// The first byte from an offset on that is not of a class, or the end of the bytes.
#[inline]
fn end_by_bytes(class: Class, bytes: &[u8], at: usize) -> usize
    requires { at ≤ length bytes.now }
    ensures { result ≡ run_end class bytes.now at }
{
    let mut end = at;
    while end < bytes.len() && is_in(class, bytes[end]) {
        end += 1;
    }
    end
}

// The same, by blocks as far as there are whole ones.
#[inline]
fn end_by_blocks(class: Wide, bytes: &[u8], at: usize) -> usize
    requires { at ≤ length bytes.now }
    ensures { result ≡ run_end (class_of class) bytes.now at }
{
    let behind = bytes.len().saturating_sub(LANES - 1);
    let mut end = at;
    while end < behind {
        let run = run_in_block(class, bytes, end);
        if run < LANES {
            return end + run;
        }
        end += LANES;
    }
    end_by_bytes(class.class(), bytes, end)
}

// How many bytes go one by one where a run is often shorter than that.
const FEW: usize = 3;

// The same, where the run is often no longer than a few bytes: these go one by one before the blocks.
#[inline]
fn end_after_few(class: Wide, bytes: &[u8], at: usize) -> usize
    requires { at ≤ length bytes.now }
    ensures { result ≡ run_end (class_of class) bytes.now at }
{
    let mut end = at;
    if at < bytes.len().saturating_sub(LANES - 1 + FEW) {
        while end - at < FEW {
            if !is_in(class.class(), bytes[end]) {
                return end;
            }
            end += 1;
        }
    }
    end_by_blocks(class, bytes, end)
}

// The same, in the way that suits the class.
#[inline(always)]
fn end_by_class(class: Class, bytes: &[u8], at: usize) -> usize
    requires { at ≤ length bytes.now }
    ensures { result ≡ run_end class bytes.now at }
{
    match class {
        Class::Blank => end_by_bytes(class, bytes, at),
        Class::Keylike => end_by_blocks(Wide::Keylike, bytes, at),
        Class::Comment => end_after_few(Wide::Comment, bytes, at),
        Class::Literal => end_by_blocks(Wide::Literal, bytes, at),
        Class::Basic => end_by_blocks(Wide::Basic, bytes, at),
    }
}

/// The byte offset where the longest run of a class ends that stands at a byte offset.
#[inline]
pub fn end_of_run(text: &str, at: usize, class: Class) -> usize
    requires { IsCharBoundary text.now at }
    ensures run { IsRun (passes class) text.now at result }
    ensures stopped { result < length text.now → passes class (slice_index text.now result) ≡ false }
{
    end_by_class(class, text.as_bytes(), at)
}

/// The same where the run is often no longer than a few bytes.
#[inline]
pub(crate) fn end_of_short_run(text: &str, at: usize, class: Wide) -> usize
    requires { IsCharBoundary text.now at }
    ensures run { IsRun (passes (class_of class)) text.now at result }
    ensures stopped { result < length text.now → passes (class_of class) (slice_index text.now result) ≡ false }
{
    end_after_few(class, text.as_bytes(), at)
}
