//! Dates and times, which are not read.
ghost use Rattle.std.specs.Prelude.{◌≡◌, ◌≤◌, length, take};
ghost use Rattle.toml_findings.specs.Dates as dates;

fn is_date_byte(byte: u8) -> bool
    ensures { result ≡ dates.is_date_byte byte }
{
    byte.is_ascii_digit() || byte == b'-' || byte == b':'
}

// Whether a text begins in this form, in which `0` stands for any digit.
#[tactic(auto, unfolding(crate::specs::Dates::has_form))]
fn has_form(form: &[u8], text: &[u8]) -> bool
    ensures { result ≡ dates.has_form form.now text.now }
{
    let Some((wanted, form)) = form.split_first() else {
        return true;
    };
    let Some((byte, text)) = text.split_first() else {
        return false;
    };
    let fits = if *wanted == b'0' {
        byte.is_ascii_digit()
    } else {
        byte == wanted
    };
    fits && has_form(form, text)
}

// The bytes before an offset, all of them where the text ends before it.
fn before(text: &str, offset: usize) -> &[u8]
    ensures { result.now ≡ take offset text.now }
{
    match text.as_bytes().get(..offset) {
        Some(front) => front,
        None => text.as_bytes(),
    }
}

// How many digits, hyphens and colons stand at the end of some bytes.
fn run_length(before: &[u8]) -> usize
    ensures { result ≡ dates.run_length before.now }
{
    before
        .iter()
        .rev()
        .take_while(|b| is_date_byte(**b))
        .count()
}

// Where those begin that stand right before an offset.
fn word_start(text: &str, offset: usize) -> usize
    ensures value { result ≡ dates.word_start text.now offset }
    ensures bound { result ≤ length text.now }
{
    let before = before(text, offset);
    before.len().saturating_sub(run_length(before))
}

/// Whether the word that an offset stands in begins as a date or a time does.
pub fn is_date_or_time(text: &str, offset: usize) -> bool
    ensures { result ≡ dates.is_date_or_time text.now offset }
{
    let word = &text.as_bytes()[word_start(text, offset)..];
    has_form(b"0000-00-00", word) || has_form(b"00:00", word)
}
