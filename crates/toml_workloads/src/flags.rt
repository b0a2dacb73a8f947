//! One table of very many keys.
use crate::digest::{Digest, take_value};
use crate::maker::{Maker, push_decimal};
use crate::manifests::read;
use basic_toml::Table;
use std::alloc::{AllocError, Global};
use std::io;

/// The order that keys stand in.
#[derive(Clone, Copy)]
enum Order {
    Rising,
    Falling,
    Scattered,
}

/// Reads tables of this many flags in each of three orders, and looks up a third as many keys in each.
pub fn rounds(
    alloc: Global,
    maker: &mut Maker,
    many: u32,
    length: u64,
    digest: &mut Digest,
) -> io::Result<()> {
    for _ in 0..many {
        for order in [Order::Rising, Order::Falling, Order::Scattered] {
            let step = maker.number();
            let text = flags(alloc, maker, order, length, step)?;
            let table = read(alloc, text.as_str())?;
            look_up(alloc, maker, &table, length, step, digest)?;
        }
    }
    Ok(())
}

// The number of the flag at a place, below 2^22; each comes once in 2^22.
fn number_at(order: Order, place: u64, many: u64, step: u64) -> u64 {
    match order {
        Order::Rising => place,
        Order::Falling => many.wrapping_sub(place) % 4_194_304,
        Order::Scattered => place.wrapping_mul(step.wrapping_mul(2).wrapping_add(1)) % 4_194_304,
    }
}

fn push_key(text: &mut String, number: u64) -> Result<(), AllocError> {
    text.push_str(Maker::word_at(number))?;
    text.push('_')?;
    push_decimal(text, 10_000_000u64.wrapping_add(number))
}

fn flags(
    alloc: Global,
    maker: &mut Maker,
    order: Order,
    many: u64,
    step: u64,
) -> Result<String, AllocError> {
    let mut text = String::new(alloc);
    for place in 0..many {
        push_key(&mut text, number_at(order, place, many, step))?;
        if maker.one_of(4) {
            text.push_str(" = \"")?;
            maker.push_words(&mut text, 2, " ")?;
            text.push_str("\"\n")?;
        } else {
            text.push_str(if maker.one_of(2) {
                " = true\n"
            } else {
                " = false\n"
            })?;
        }
    }
    Ok(text)
}

fn below(number: u64, many: u64) -> u64 {
    if many == 0 { 0 } else { number % many }
}

// In a scattered order, whatever the order of the table; some are not there.
fn look_up(
    alloc: Global,
    maker: &mut Maker,
    table: &Table,
    many: u64,
    step: u64,
    digest: &mut Digest,
) -> io::Result<()> {
    digest.number(table.len() as u64);
    let mut key = String::new(alloc);
    let first = maker.number();
    for i in 0..many / 3 {
        key.clear();
        push_key(
            &mut key,
            number_at(
                Order::Scattered,
                below(first.wrapping_add(i), many),
                many,
                step,
            ),
        )?;
        match table.get(key.as_str()) {
            Some(value) => take_value(digest, value),
            None => digest.number(i),
        }
    }
    Ok(())
}
