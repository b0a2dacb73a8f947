//! Runs of a class, sixteen bytes at a time.
ghost use Rattle.std.specs.Prelude.{◌≡◌, ◌+◌, ◌≤◌, length};
ghost use Rattle.std.specs.List.{prefix_len};
ghost use Rattle.basic_toml_tokens.specs.Class.{passes};
ghost use Rattle.basic_toml_tokens.specs.Lanes.{block, first_set, class_of, AreStops};
ghost use Rattle.basic_toml_tokens.specs.declared.class.Class.TheVariants.{Keylike, Comment, Literal, Basic};

use crate::class::Class;
use std::simd::prelude::*;

/// How many bytes are looked at together.
pub const LANES: usize = 16;

// The place of the lowest bit that is set, or the number of lanes.
#[inline(always)]
fn first_set(mask: u64) -> usize
    ensures { result ≡ first_set mask }
{
    if mask == 0 {
        LANES
    } else {
        mask.trailing_zeros() as usize
    }
}

/// A class whose runs are often longer than a byte or two, so that whole blocks are looked at.
#[derive(Clone, Copy, Drop)]
pub enum Wide {
    Keylike,
    Comment,
    Literal,
    Basic,
}

impl Wide {
    /// The class itself.
    #[inline(always)]
    pub(crate) fn class(self) -> Class
        ensures { result ≡ class_of self }
    {
        match self {
            Wide::Keylike => Class::Keylike,
            Wide::Comment => Class::Comment,
            Wide::Literal => Class::Literal,
            Wide::Basic => Class::Basic,
        }
    }
}

/// How many of the bytes from an offset on are of a class, up to the first that is not, of one block.
#[inline(always)]
pub(crate) fn run_in_block(class: Wide, bytes: &[u8], at: usize) -> usize
    requires { at + LANES ≤ length bytes.now }
    ensures { result ≡ prefix_len (passes (class_of class)) (block bytes.now at) }
{
    let v = u8x16::from_slice(&bytes[at..]);
    let stops = match class {
        Wide::Keylike => no_keylike(v),
        Wide::Comment => no_comment(v),
        Wide::Literal => no_literal(v),
        Wide::Basic => no_basic(v),
    };
    first_set(stops)
}

// The bytes that are not keylike, a bit for each.
#[inline(always)]
fn no_keylike(v: u8x16) -> u64
    ensures { AreStops Keylike v result }
{
    let from_a = (v | u8x16::splat(0x20)) - u8x16::splat(b'a');
    let from_zero = v - u8x16::splat(b'0');
    let no_letter = from_a.simd_ge(u8x16::splat(26));
    let no_digit = from_zero.simd_ge(u8x16::splat(10));
    let no_sign = v.simd_ne(u8x16::splat(b'-')) & v.simd_ne(u8x16::splat(b'_'));
    (no_letter & no_digit & no_sign).to_bitmask()
}

// The bytes that end a comment.
#[inline(always)]
fn no_comment(v: u8x16) -> u64
    ensures { AreStops Comment v result }
{
    let control = v.simd_lt(u8x16::splat(b' ')) & v.simd_ne(u8x16::splat(b'\t'));
    (control | v.simd_eq(u8x16::splat(0x7f))).to_bitmask()
}

// The same and single quotes.
#[inline(always)]
fn no_literal(v: u8x16) -> u64
    ensures { AreStops Literal v result }
{
    let control = v.simd_lt(u8x16::splat(b' ')) & v.simd_ne(u8x16::splat(b'\t'));
    let stops = control | v.simd_eq(u8x16::splat(0x7f)) | v.simd_eq(u8x16::splat(b'\''));
    stops.to_bitmask()
}

// The same as of a comment, double quotes and backslashes.
#[inline(always)]
fn no_basic(v: u8x16) -> u64
    ensures { AreStops Basic v result }
{
    let control = v.simd_lt(u8x16::splat(b' ')) & v.simd_ne(u8x16::splat(b'\t'));
    let escape = v.simd_eq(u8x16::splat(b'"')) | v.simd_eq(u8x16::splat(b'\\'));
    (control | v.simd_eq(u8x16::splat(0x7f)) | escape).to_bitmask()
}
