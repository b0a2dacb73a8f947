//! Where a part of a number is at fault: its digits before a period, after one, or in an exponent.
ghost use Rattle.std.specs.Prelude.{◌≡◌, ◌+◌, ◌<◌, ◌^◌, length};
ghost use Rattle.basic_toml_grammar.specs.NumberFaults as spec;

use basic_toml_numbers::{is_digits, is_whole, split_part};

// The offset of a digit after a leading zero.
fn after_zero(at: usize, text: &[u8]) -> Option<usize>
    requires { at + length text.now < 2 ^ 64 }
    ensures { result ≡ spec.after_zero at text.now }
{
    match text {
        [b'0', b'0'..=b'9', ..] => Some(at + 1),
        [b'0', b'_', b'0'..=b'9', ..] => Some(at + 2),
        _ => None,
    }
}

// The fault of a part that begins at `start` and whose digits begin at `at`.
pub(crate) fn part_fault(
    zeros_may_lead: bool,
    start: usize,
    at: usize,
    text: &[u8],
) -> Option<usize>
    requires { at + length text.now < 2 ^ 64 }
    ensures { result ≡ spec.part_fault zeros_may_lead start at text.now }
{
    if text.first() == Some(&b'_') {
        return Some(at);
    }
    if !zeros_may_lead {
        let offset = after_zero(at, text);
        if offset.is_some() {
            return offset;
        }
    }
    let (part, _) = split_part(text);
    let is_fine = if zeros_may_lead {
        is_digits(part)
    } else {
        is_whole(part)
    };
    if is_fine { None } else { Some(start) }
}

// The fault of a part that may begin with a minus.
pub(crate) fn signed_part_fault(zeros_may_lead: bool, start: usize, text: &[u8]) -> Option<usize>
    requires { start + length text.now < 2 ^ 64 }
    ensures { result ≡ spec.signed_part_fault zeros_may_lead start text.now }
{
    match text {
        [] => Some(start),
        [b'-', digits @ ..] => part_fault(zeros_may_lead, start, start + 1, digits),
        _ => part_fault(zeros_may_lead, start, start, text),
    }
}
