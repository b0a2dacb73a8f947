// Random texts: the grammar's, in which now and then a piece is left out, stands twice or is another.
use crate::dice::Dice;
use std::alloc::{AllocError, Global};

const KEYS: [&str; 24] = [
    "a",
    "b",
    "c",
    "d",
    "e",
    "f",
    "g",
    "h",
    "i",
    "j",
    "k",
    "l",
    "m",
    "n",
    "A-1",
    "_",
    "7",
    "'a'",
    "\"b\"",
    "\"\\u0063\"",
    "''",
    "'x y'",
    "\"\u{e9}\"",
    "\"\\t\"",
];

const SCALARS: [&str; 30] = [
    "1",
    "-7",
    "+1_000",
    "0",
    "0x1f",
    "0o17",
    "0b01",
    "-9223372036854775808",
    "9223372036854775807",
    "true",
    "false",
    "1.5",
    "-0.0",
    "1_0e+0_1",
    "9e99999",
    "inf",
    "-nan",
    "+nan",
    "''",
    "'a\"b'",
    "\"\\b\\t\\n\\f\\r\\\"\\\\\"",
    "\"\\u00e9\\U0001F600\"",
    "'\u{1F600}'",
    "'''x\n'y'\n'''",
    "''''''",
    "\"\"\"\nx\\\n  \n  y\"\"\"",
    "\"\"\"\"q\"\"\"\"",
    "'''''q'''''",
    "\"\"\"\\u0000\"\"\"",
    "\"#[]{}=,.\"",
];

const NO_SCALARS: [&str; 16] = [
    "01",
    "1__0",
    "1_",
    "0x",
    "0xg",
    "-0x1",
    "1.",
    ".5",
    "1e",
    "+-1",
    "9223372036854775808",
    "1979-05-27",
    "tru",
    "\"\\x\"",
    "\"\\ud800\"",
    "\"\\u12\"",
];

const PIECES: [&str; 28] = [
    "",
    " ",
    "\n",
    "\r",
    "\r\n",
    "\0",
    "\u{7f}",
    "\u{feff}",
    "\u{e9}",
    "\u{10ffff}",
    "'",
    "\"",
    "'''",
    "\"\"\"",
    "\\",
    "[",
    "]",
    "[[",
    "]]",
    "{",
    "}",
    ",",
    ".",
    "=",
    "#",
    ":",
    "+",
    "a",
];

const BLANKS: [&str; 6] = ["", "", "", " ", "\t", "  \t"];

const ENDS: [&str; 8] = [
    "\n",
    "\n",
    "\n",
    "\n",
    "\n\n",
    "\r\n",
    " # c\n",
    "\t#\u{e9}\r\n",
];

const GAPS: [&str; 8] = ["", "", "", "", " ", "\n", " # x\n\t", "\r\n"];

// A text in the making.
#[derive(Drop)]
struct Sentence<'d> {
    text: String,
    dice: &'d mut Dice,
    // Once in how many pieces another stands.
    pieces_a_fault: usize,
}

impl<'d> Sentence<'d> {
    fn put(&mut self, piece: &str) -> Result<(), AllocError> {
        if !self.dice.is_one_in(self.pieces_a_fault) {
            return self.text.push_str(piece);
        }
        match self.dice.below(3) {
            0 => Ok(()),
            1 => {
                self.text.push_str(piece)?;
                self.text.push_str(piece)
            }
            _ => self.text.push_str(self.dice.pick(&PIECES)),
        }
    }

    fn blank(&mut self) -> Result<(), AllocError> {
        let blank = self.dice.pick(&BLANKS);
        self.text.push_str(blank)
    }

    fn key(&mut self) -> Result<(), AllocError> {
        let key = self.dice.pick(&KEYS);
        self.put(key)
    }

    fn keys(&mut self) -> Result<(), AllocError> {
        self.key()?;
        for _ in 0..self.dice.below(5).saturating_sub(2) {
            self.blank()?;
            self.put(".")?;
            self.blank()?;
            self.key()?;
        }
        Ok(())
    }

    fn gap(&mut self) -> Result<(), AllocError> {
        let gap = self.dice.pick(&GAPS);
        self.text.push_str(gap)
    }

    fn scalar(&mut self) -> Result<(), AllocError> {
        let scalar = if self.dice.is_one_in(self.pieces_a_fault) {
            self.dice.pick(&NO_SCALARS)
        } else {
            self.dice.pick(&SCALARS)
        };
        self.put(scalar)
    }

    #[cycle(values)]
    fn value(&mut self, levels: usize) -> Result<(), AllocError> {
        if levels == 0 {
            return self.scalar();
        }
        match self.dice.below(5) {
            0 => self.array(levels - 1),
            1 => self.inline_table(levels - 1),
            _ => self.scalar(),
        }
    }

    #[cycle(values)]
    fn array(&mut self, levels: usize) -> Result<(), AllocError> {
        self.put("[")?;
        self.gap()?;
        let count = self.dice.below(4);
        for at in 0..count {
            if at > 0 {
                self.put(",")?;
                self.gap()?;
            }
            self.value(levels)?;
            self.gap()?;
        }
        if count > 0 && self.dice.is_one_in(4) {
            self.put(",")?;
            self.gap()?;
        }
        self.put("]")
    }

    #[cycle(values)]
    fn inline_table(&mut self, levels: usize) -> Result<(), AllocError> {
        self.put("{")?;
        self.blank()?;
        for at in 0..self.dice.below(4) {
            if at > 0 {
                self.put(",")?;
                self.blank()?;
            }
            self.row(levels)?;
            self.blank()?;
        }
        self.put("}")
    }

    #[cycle(values)]
    fn row(&mut self, levels: usize) -> Result<(), AllocError> {
        self.keys()?;
        self.blank()?;
        self.put("=")?;
        self.blank()?;
        self.value(levels)
    }

    fn header(&mut self, open: &str, close: &str) -> Result<(), AllocError> {
        self.put(open)?;
        self.blank()?;
        self.keys()?;
        self.blank()?;
        self.put(close)
    }

    fn line(&mut self) -> Result<(), AllocError> {
        self.blank()?;
        match self.dice.below(8) {
            0 => {}
            1 | 2 => self.header("[", "]")?,
            3 => self.header("[[", "]]")?,
            _ => self.row(3)?,
        }
        let end = self.dice.pick(&ENDS);
        self.put(end)
    }
}

// A text of some lines; of three one has no fault that is put in, and one has many.
pub(crate) fn random_text(alloc: Global, dice: &mut Dice) -> Result<String, AllocError> {
    let pieces_a_fault = match dice.below(3) {
        0 => usize::MAX,
        1 => 100,
        _ => 20,
    };
    let lines = dice.below(12);
    let mut sentence = Sentence {
        text: String::new(alloc),
        dice,
        pieces_a_fault,
    };
    if sentence.dice.is_one_in(40) {
        sentence.put("\u{feff}")?;
    }
    for _ in 0..lines {
        sentence.line()?;
    }
    let Sentence { text, .. } = sentence;
    Ok(text)
}
