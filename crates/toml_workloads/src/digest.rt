//! A digest of what came of a job.
use basic_toml::{Table, Value};

/// A digest (FNV-1a, a word at a time).
#[derive(Drop)]
pub struct Digest {
    state: u64,
}

impl Digest {
    pub fn new() -> Digest {
        Digest {
            state: 14_695_981_039_346_656_037,
        }
    }

    pub fn value(&self) -> u64 {
        self.state
    }

    pub fn number(&mut self, number: u64) {
        self.state = (self.state ^ number).wrapping_mul(1_099_511_628_211);
        self.state ^= self.state >> 29;
    }

    pub fn text(&mut self, text: &str) {
        let (words, rest) = text.as_bytes().as_chunks::<8>();
        for word in words {
            self.number(u64::from_le_bytes(*word));
        }
        for byte in rest {
            self.number(u64::from(*byte));
        }
        self.number(text.len() as u64);
    }
}

/// Takes in a value.
#[cycle(values)]
pub fn take_value(digest: &mut Digest, value: &Value) {
    match value {
        Value::Integer(number) => digest.number(number.cast_unsigned()),
        Value::Float(float) => digest.text(float.as_str()),
        Value::Boolean(truth) => digest.number(u64::from(*truth)),
        Value::String(text) => digest.text(text.as_str()),
        Value::Array(values) => take_values(digest, values.as_slice()),
        Value::Table(table) => take_table(digest, table),
    }
}

#[cycle(values)]
fn take_values(digest: &mut Digest, values: &[Value]) {
    digest.number(values.len() as u64);
    for value in values {
        take_value(digest, value);
    }
}

/// Takes in a table.
#[cycle(values)]
pub fn take_table(digest: &mut Digest, table: &Table) {
    digest.number(table.len() as u64);
    for (key, value) in table.iter() {
        digest.text(key);
        take_value(digest, value);
    }
}
