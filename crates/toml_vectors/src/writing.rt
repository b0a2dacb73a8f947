// What `to_string` answers for types that make odd calls.
ghost use Rattle.std.specs.Prelude.{codes};
ghost use Rattle.basic_toml_write.specs.Parts.{a_record, a_field, the_end, record_gives_up, field_gives_up};
ghost use Rattle.basic_toml_write.specs.Serializer.{NoFault};

use crate::parts::{Halting, Silent};
use basic_toml::{Serialize, Serializer, WriteError, to_string};
use std::alloc::{AllocError, Global};
use toml_callers::writers::{Careless, Label, text_of_words};

// A table of two entries under one key.
#[derive(Drop)]
struct Twice<A, B> {
    first: A,
    second: B,
}

impl<A: Serialize, B: Serialize> Serialize for Twice<A, B> {
    ghost calls = { λ t. a_record
        (a_field (codes "k") (A.calls t.first) (a_field (codes "k") (B.calls t.second) the_end)) };

    ghost gives_up = { λ t. record_gives_up
        (field_gives_up (codes "k") (A.calls t.first) (A.gives_up t.first)
        (field_gives_up (codes "k") (B.calls t.second) (B.gives_up t.second) NoFault)) };

    fn serialize(&self, alloc: Global, ser: &mut Serializer) -> Result<(), WriteError> {
        let _ = alloc;
        ser.serialize_map(None)?;
        ser.serialize_field("k", &self.first)?;
        ser.serialize_field("k", &self.second)?;
        ser.end()
    }
}

fn text_or_fault<T: Serialize>(alloc: Global, value: &T) -> Result<String, AllocError> {
    match to_string(alloc, value) {
        Ok(text) => Ok(text),
        Err(fault) => format!(in alloc; "{fault}"),
    }
}

#[test]
fn refuses_a_second_entry(rt: HostRuntime) -> Result<(), AllocError> {
    let alloc = rt.alloc();
    let repeated = Twice {
        first: 1u8,
        second: 2u8,
    };
    let text = text_or_fault(alloc, &repeated)?;
    assert_eq!(rt; text.as_str(), "duplicate key: `k`");
    Ok(())
}

// An absent value is no second entry, also after the prefix of an option.
#[test]
fn takes_an_absent_value_under_a_key_again(rt: HostRuntime) -> Result<(), AllocError> {
    let absent: Option<u8> = None;
    let value = Twice {
        first: 1u8,
        second: Some(absent),
    };
    let text = text_or_fault(rt.alloc(), &value)?;
    assert_eq!(rt; text.as_str(), "k = 1\n");
    Ok(())
}

#[test]
fn answers_for_the_type(rt: HostRuntime) -> Result<(), AllocError> {
    let alloc = rt.alloc();
    let silent = text_or_fault(alloc, &Silent)?;
    assert_eq!(rt; silent.as_str(), "serializer calls out of order");
    let halting = text_or_fault(alloc, &Halting)?;
    assert_eq!(rt; halting.as_str(), "no");
    let careless = text_or_fault(alloc, &Careless)?;
    assert_eq!(rt; careless.as_str(), "unsupported Rust type");
    Ok(())
}

// A type that says that it asks for no memory, and a value that needs none.
#[test]
fn writes_a_label_but_no_words(rt: HostRuntime) -> Result<(), AllocError> {
    let alloc = rt.alloc();
    let label = Label {
        name: "lamp",
        place: None,
    };
    let text = text_or_fault(alloc, &label)?;
    assert_eq!(rt; text.as_str(), "name = \"lamp\"\n");
    let refused = match text_of_words(alloc, "lamp") {
        Ok(text) => text,
        Err(fault) => format!(in alloc; "{fault}")?,
    };
    assert_eq!(rt; refused.as_str(), "unsupported Rust type");
    Ok(())
}
