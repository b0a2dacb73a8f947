//! The texts of numbers.
ghost use Rattle.std.specs.Prelude.{◌≡◌, ◌≤◌, ◌+◌, ◌^◌, ◌-◌, ℕ, Some, None, min, length, if◌then◌else◌};
ghost use Rattle.basic_toml_numbers.specs.Numbers as spec;

/// The number of an integer: decimal with an optional sign and no leading zero, or `0x`, `0o` or `0b` with digits
/// and no sign, with single underscores between digits (TOML v0.5.0, "Integer").
///
/// `None` where the text is no such integer, or the number lies outside `i64`: `1_000` is 1000 and `0x1F` is 31;
/// `01`, `1__0` and `-0x1` are none.
#[inline(always)]
pub fn integer_of(text: &str) -> Option<i64>
    ensures { result ≡ spec.integer_of text.now }
{
    match text.as_bytes() {
        [b'+', digits @ ..] => decimal(false, digits),
        [b'-', digits @ ..] => decimal(true, digits),
        [b'0'] => Some(0),
        [b'0', b'x', digits @ ..] => in_radix(16, digits),
        [b'0', b'o', digits @ ..] => in_radix(8, digits),
        [b'0', b'b', digits @ ..] => in_radix(2, digits),
        digits => decimal(false, digits),
    }
}

#[inline(always)]
fn decimal(negative: bool, digits: &[u8]) -> Option<i64>
    ensures { result ≡ spec.decimal negative digits.now }
{
    match whole_value(digits) {
        Some(value) => signed(negative, value),
        None => None,
    }
}

// The number that a whole part writes, or the greatest `u64` where it is greater; `None` where this is none.
#[inline(always)]
fn whole_value(digits: &[u8]) -> Option<u64>
    ensures { result ≡ (if spec.is_whole digits.now then Some
        (min (spec.value_in 10 digits.now) (2 ^ 64 - 1)) else None) }
{
    match digits {
        [b'0'] => Some(0),
        [b'0', ..] => None,
        _ => decimal_value(digits),
    }
}

fn in_radix(radix: u32, digits: &[u8]) -> Option<i64>
    requires least { 2 ≤ radix }
    requires most { radix ≤ 36 }
    ensures { result ≡ spec.in_radix radix digits.now }
{
    match value_of(radix, digits) {
        Some(value) => signed(false, value),
        None => None,
    }
}

fn signed(negative: bool, value: u64) -> Option<i64>
    ensures { result ≡ spec.signed negative value }
{
    if value < 1 << 63 {
        let value = value as i64;
        Some(if negative { -value } else { value })
    } else if negative && value == 1 << 63 {
        Some(i64::MIN)
    } else {
        None
    }
}

// The number that digits write, or the greatest `u64` where it is greater; `None` where these are no digits.
fn value_of(radix: u32, digits: &[u8]) -> Option<u64>
    requires least { 2 ≤ radix }
    requires most { radix ≤ 36 }
    ensures { result ≡ (if spec.is_digits radix digits.now then Some
        (min (spec.value_in radix digits.now) (2 ^ 64 - 1)) else None) }
{
    let mut value: u64 = 0;
    let mut must_follow = true;
    for byte in digits {
        match (*byte as char).to_digit(radix) {
            Some(digit) => {
                value = value
                    .saturating_mul(radix as u64)
                    .saturating_add(digit as u64);
                must_follow = false;
            }
            None => {
                if *byte != b'_' || must_follow {
                    return None;
                }
                must_follow = true;
            }
        }
    }
    if must_follow {
        return None;
    }
    Some(value)
}

// The same as `value_of` in radix 10, and faster for up to 19 bytes that are all digits.
fn decimal_value(digits: &[u8]) -> Option<u64>
    ensures { result ≡ (if spec.is_digits 10 digits.now then Some
        (min (spec.value_in 10 digits.now) (2 ^ 64 - 1)) else None) }
{
    if digits.is_empty() || digits.len() > 19 {
        return value_of(10, digits);
    }
    let mut value: u64 = 0;
    for byte in digits {
        match (*byte as char).to_digit(10) {
            Some(digit) => value = value * 10 + digit as u64,
            None if *byte == b'_' => return value_of(10, digits),
            None => return None,
        }
    }
    Some(value)
}

// So many decimal digits write a number within `i64`.
const FEW: usize = 18;

/// The integer that the first decimal digits of a text write, and how many these are: at most 18. `None` where no digit
/// stands there, or a zero before another one. It is the number of the text only where that ends behind them.
#[inline(always)]
pub fn first_digits(text: &[u8]) -> Option<(i64, usize)>
    ensures { result ≡ spec.first_digits text.now }
{
    let most = text.len().min(FEW);
    let mut value: u64 = 0;
    let mut count = 0;
    while count < most && text[count].is_ascii_digit() {
        value = value * 10 + u64::from(text[count] - b'0');
        count += 1;
    }
    if count == 0 {
        return None;
    }
    if count > 1 && text[0] == b'0' {
        return None;
    }
    Some((value as i64, count))
}

/// Whether these are decimal digits with single underscores between them. Public for `basic_toml_explain`, which tells
/// the parts of a number where it breaks.
pub fn is_digits(digits: &[u8]) -> bool
    ensures { result ≡ spec.is_digits 10 digits.now }
{
    value_of(10, digits).is_some()
}

/// Whether the text is a whole part: `0`, or digits that begin with another digit. Public for `basic_toml_explain`.
pub fn is_whole(digits: &[u8]) -> bool
    ensures { result ≡ spec.is_whole digits.now }
{
    match digits {
        [b'0', more @ ..] => more.is_empty(),
        _ => is_digits(digits),
    }
}

// Whether the text is a float.
pub fn is_float(text: &[u8]) -> bool
    ensures { result ≡ spec.is_unsigned_float (spec.without_sign text.now) }
{
    let text = without_sign(text);
    if text == b"inf".as_slice() || text == b"nan".as_slice() {
        return true;
    }
    let (whole, tail) = split_part(text);
    is_whole(whole) && is_tail(tail)
}

fn without_sign(text: &[u8]) -> &[u8]
    ensures { result.now ≡ spec.without_sign text.now }
{
    match text {
        [b'+' | b'-', rest @ ..] => rest,
        _ => text,
    }
}

// Whether the text is what may follow a float's whole part: a fraction, an exponent, or both.
fn is_tail(text: &[u8]) -> bool
    ensures { result ≡ spec.is_tail text.now }
{
    match text {
        [b'.', rest @ ..] => {
            let (fraction, exponent) = split_part(rest);
            is_digits(fraction) && (exponent.is_empty() || is_exponent(exponent))
        }
        _ => is_exponent(text),
    }
}

fn is_exponent(text: &[u8]) -> bool
    ensures { result ≡ spec.is_exponent text.now }
{
    match text {
        [b'e' | b'E', power @ ..] => is_digits(without_sign(power)),
        _ => false,
    }
}

/// The decimal digits and underscores that the text begins with, and what stands after them. Public for
/// `basic_toml_explain`.
pub fn split_part(text: &[u8]) -> (&[u8], &[u8])
    ensures part { result.0.now ≡ spec.part_of text.now }
    ensures rest { result.1.now ≡ spec.after_part text.now }
    ensures lengths { length result.0.now + length result.1.now ≡ length text.now }
{
    for (end, byte) in text.iter().enumerate() {
        if !(*byte as char).is_digit(10) && *byte != b'_' {
            return text.split_at(end);
        }
    }
    text.split_at(text.len())
}
