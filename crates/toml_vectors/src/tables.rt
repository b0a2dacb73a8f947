// Tables and their values, each call once: that it succeeds with ample memory.
use basic_toml::from_str;
use basic_toml_index::Index;
use basic_toml_value::{Pairs, Table, Text, Value};
use std::alloc::{AllocError, Global};
use std::test::Fail;

// A text of so many rows.
fn many_rows(alloc: Global, count: u32) -> Result<String, AllocError> {
    let mut text = String::new(alloc);
    for number in 0..count {
        write!(text, "key-{number} = {number}\n")?;
    }
    Ok(text)
}

#[test]
fn fills_tables(rt: HostRuntime) -> Result<(), Fail> {
    let alloc = rt.alloc();
    let mut table = Table::new(alloc);
    for number in 0..40_i64 {
        let key = format!(in alloc; "key-{number}")?;
        assert!(rt; table.push(key, Value::Integer(number)).is_ok());
    }
    assert!(rt; table.enter_value("copied", Value::Boolean(false))?.is_new);
    assert_eq!(rt; table.len(), 41);
    Ok(())
}

#[test]
fn reads_and_copies_tables(rt: HostRuntime) -> Result<(), Fail> {
    let alloc = rt.alloc();
    let floats = "1e5, 1_234_567_890.123_456_789_012e5";
    let values = "true, 'short', 'a string of more than 24 bytes', [7, { b = 8 }]";
    let text = format!(in alloc; "a = [{floats}, {values}]\n'a key of more than 24 bytes' = 9\n")?;
    let table: Table = from_str(alloc, text.as_str())?;
    assert!(rt; table.clone()? == table);
    for count in [15, 16, 17, 63, 64, 300_u32] {
        let table: Table = from_str(alloc, many_rows(alloc, count)?.as_str())?;
        assert_eq!(rt; table.len(), count as usize);
    }
    Ok(())
}

#[test]
fn makes_tables_of_parts(rt: HostRuntime) -> Result<(), Fail> {
    let alloc = rt.alloc();
    let read: Table = from_str(alloc, many_rows(alloc, 40)?.as_str())?;
    let entries = read.into_entries();
    let (index, count) = Index::until_repeat(alloc, &entries)?;
    assert_eq!(rt; count, entries.len());
    let table: Table = Pairs::from_parts(entries, index.clone(alloc)?);
    let entries = table.into_entries();
    let index = Index::of(alloc, &entries)?;
    let table: Table = Pairs::from_parts(entries, index);
    assert!(rt; table.get("key-39").is_some());
    Ok(())
}

// A text that stands in place, and one that does not.
const WORDS: [&str; 2] = ["localhost", "a text of more than 24 bytes"];

#[test]
fn shows_short_and_long_texts(rt: HostRuntime) -> Result<(), Fail> {
    let alloc = rt.alloc();
    for words in WORDS {
        let text = Text::from_str(alloc, words)?;
        assert_eq!(rt; format!(in alloc; "{text}")?.as_str(), words);
        let quoted = format!(in alloc; "\"{words}\"")?;
        assert_eq!(rt; format!(in alloc; "{text:?}")?.as_str(), quoted.as_str());
    }
    Ok(())
}

#[test]
fn copies_short_and_long_texts(rt: HostRuntime) -> Result<(), Fail> {
    let alloc = rt.alloc();
    for words in WORDS {
        let text = Text::from_str(alloc, words)?;
        assert!(rt; text == text.clone()?);
        assert_eq!(rt; text.into_string(alloc)?.as_str(), words);
    }
    Ok(())
}

#[test]
fn takes_short_and_long_strings(rt: HostRuntime) -> Result<(), Fail> {
    let alloc = rt.alloc();
    for words in WORDS {
        let text = Text::from(String::from_str(alloc, words)?);
        assert!(rt; text == Text::from_str(alloc, words)?);
        assert_eq!(rt; Value::String(text).as_str(), Some(words));
    }
    Ok(())
}
