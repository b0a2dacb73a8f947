//! Makes texts by chance: the same ones for the same seed.
use std::alloc::AllocError;

/// A source of chance: a linear congruential generator (Knuth's constants), of which the upper half of the bits count.
#[derive(Drop)]
pub struct Maker {
    state: u64,
}

const WORDS: [&str; 64] = [
    "serde", "tokio", "log", "anyhow", "regex", "clap", "rand", "bytes", "http", "hyper",
    "futures", "libc", "syn", "quote", "proc", "macro", "core", "async", "stream", "parser",
    "reader", "writer", "buffer", "cache", "index", "table", "vector", "string", "number", "float",
    "json", "config", "server", "client", "socket", "thread", "atomic", "memory", "alloc",
    "unicode", "width", "ident", "digest", "sha", "crypto", "random", "time", "chrono", "date",
    "error", "result", "derive", "build", "script", "linux", "windows", "unix", "path", "file",
    "walk", "glob", "term", "color", "style",
];

const DIGITS: [&str; 32] = [
    "9f767c45", "bde5c099", "f17fd374", "a6233255", "e6a16a3b", "1cfb10f6", "3f1f65a8", "8b33e968",
    "92edcf45", "377b9aa2", "478c281d", "c4069545", "cc11d357", "9e115e4b", "206f5c66", "df1461aa",
    "fb7ff337", "df561d80", "4a0fe75d", "f6236bf2", "346c6e2b", "b0cde917", "e4cc4132", "4c7d6df0",
    "5c76f18a", "254cb864", "10acff00", "568068b9", "4f596727", "d18a669a", "50d7d13f", "7b3120df",
];

impl Maker {
    pub fn new(seed: u64) -> Maker {
        Maker {
            state: seed
                .wrapping_mul(2_862_933_555_777_941_757)
                .wrapping_add(3_037_000_493),
        }
    }

    /// A number below 2^32.
    pub fn number(&mut self) -> u64 {
        self.state = self
            .state
            .wrapping_mul(6_364_136_223_846_793_005)
            .wrapping_add(1_442_695_040_888_963_407);
        self.state >> 32
    }

    /// A number from `low` up to `low + many - 1`; `low` where `many` is 0.
    pub fn between(&mut self, low: u64, many: u64) -> u64 {
        let number = self.number();
        if many == 0 {
            return low;
        }
        low.wrapping_add(number % many)
    }

    /// Whether one of `many` fell.
    pub fn one_of(&mut self, many: u64) -> bool {
        self.between(0, many) == 0
    }

    /// A word of the list, by its number.
    pub fn word_at(number: u64) -> &'static str {
        WORDS[(number % 64) as usize]
    }

    /// Any word.
    pub fn word(&mut self) -> &'static str {
        Maker::word_at(self.number())
    }

    /// Appends some words with this between them.
    pub fn push_words(
        &mut self,
        text: &mut String,
        many: u64,
        between: &str,
    ) -> Result<(), AllocError> {
        for i in 0..many {
            if i > 0 {
                text.push_str(between)?;
            }
            text.push_str(self.word())?;
        }
        Ok(())
    }

    /// Appends a number below `many` in decimal digits.
    pub fn push_number(&mut self, text: &mut String, many: u64) -> Result<(), AllocError> {
        let number = self.between(0, many);
        push_decimal(text, number)
    }

    /// Appends a version such as `1.4.27`.
    pub fn push_version(&mut self, text: &mut String) -> Result<(), AllocError> {
        self.push_number(text, 9)?;
        text.push('.')?;
        self.push_number(text, 30)?;
        text.push('.')?;
        self.push_number(text, 40)
    }

    /// Appends hexadecimal digits, eight for each of `many`.
    pub fn push_digits(&mut self, text: &mut String, many: u64) -> Result<(), AllocError> {
        for _ in 0..many {
            text.push_str(DIGITS[(self.number() % 32) as usize])?;
        }
        Ok(())
    }
}

/// Appends a number in decimal digits.
pub fn push_decimal(text: &mut String, number: u64) -> Result<(), AllocError> {
    let mut digits = [b'0'; 20];
    let mut rest = number;
    let mut start = 20;
    for i in 0..20 {
        let at = 19 - i;
        digits[at] = b'0' + (rest % 10) as u8;
        rest /= 10;
        start = at;
        if rest == 0 {
            break;
        }
    }
    match digits.get(start..) {
        Some(digits) => match std::str::from_utf8(digits) {
            Ok(digits) => text.push_str(digits),
            Err(_) => Ok(()),
        },
        None => Ok(()),
    }
}
