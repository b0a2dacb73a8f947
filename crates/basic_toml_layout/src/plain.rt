//! Bytes that stand for themselves between quotes, looked at eight at a time.
ghost use Rattle.std.specs.Prelude.{◌≡◌, ℕ, ◌+◌, ◌<◌, ◌≤◌, ◌==◌, nat_lt, true, false, not, length, slice_index};
ghost use Rattle.std.specs.List.{list_all};
ghost use Rattle.basic_toml_layout.specs.Texts as texts;

use crate::text::needs_escape;
use std::simd::prelude::*;

// Whether none of eight bytes, from this one on, is below a byte.
#[inline(always)]
fn none_below(bytes: &[u8], start: usize, limit: u8) -> bool
    requires { start + 8 ≤ length bytes.now }
    ensures { result ≡ true → (k : ℕ) → start ≤ k → k < start + 8 → nat_lt (slice_index bytes.now k) limit ≡ false }
{
    u8x8::from_slice(&bytes[start..])
        .simd_lt(u8x8::splat(limit))
        .to_bitmask()
        == 0
}

// Whether none of them is this byte.
#[inline(always)]
fn none_is(bytes: &[u8], start: usize, byte: u8) -> bool
    requires { start + 8 ≤ length bytes.now }
    ensures { result ≡ true → (k : ℕ) → start ≤ k → k < start + 8 → (slice_index bytes.now k == byte) ≡ false }
{
    u8x8::from_slice(&bytes[start..])
        .simd_eq(u8x8::splat(byte))
        .to_bitmask()
        == 0
}

// Whether eight bytes, from this one on, stand for themselves.
#[inline(always)]
#[tactic(auto, using(crate::proofs::PlainBytes::plain_where))]
fn are_eight_plain(bytes: &[u8], start: usize) -> bool
    requires { start + 8 ≤ length bytes.now }
    ensures { result ≡ true → (k : ℕ) → start ≤ k → k < start + 8
        → texts.needs_escape (slice_index bytes.now k) ≡ false }
{
    (none_below(bytes, start, 0x20) & none_is(bytes, start, b'"'))
        & (none_is(bytes, start, b'\\') & none_is(bytes, start, 0x7f))
}

// How many of the first bytes stand for themselves, as far as eight at a time tell. The last eight may be looked at
// twice.
#[inline(always)]
fn plain_start(bytes: &[u8]) -> usize
    ensures within { result ≤ length bytes.now }
    ensures plain { (k : ℕ) → k < result → texts.needs_escape (slice_index bytes.now k) ≡ false }
{
    let len = bytes.len();
    if len < 8 {
        return 0;
    }
    let mut start = 0;
    while len - start > 8 {
        if !are_eight_plain(bytes, start) {
            return start;
        }
        start += 8;
    }
    if are_eight_plain(bytes, len - 8) {
        len
    } else {
        start
    }
}

// Whether bytes stand for themselves, looked at one by one.
fn are_plain_singly(bytes: &[u8]) -> bool
    ensures { result ≡ list_all (λ b. not (texts.needs_escape b)) bytes.now }
{
    bytes.iter().all(|byte| !needs_escape(*byte))
}

// Whether bytes stand for themselves between quotes.
#[inline(always)]
pub fn are_plain(bytes: &[u8]) -> bool
    ensures { result ≡ list_all (λ b. not (texts.needs_escape b)) bytes.now }
{
    let start = plain_start(bytes);
    are_plain_singly(&bytes[start..])
}
