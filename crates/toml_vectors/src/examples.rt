// The calls that the documentation of `basic_toml` and of the crates below it shows.
use basic_toml::tokens::{Span, Tokenizer};
use basic_toml::{
    Error, ErrorKind, Float, Origin, PushRefusal, ReadErrorKind, Serializer, Step, Table, Value,
    WriteError, from_slice, from_str, integer_of, into_rows_first, line_col, origin_of,
    origin_of_node, read_tree, rows_first, table_to_string, table_to_string_pretty, to_string,
    value_to_string,
};
use std::alloc::{AllocError, Global};
use std::test::Fail;
use toml_callers::types::{Child, Parent, Strict};

#[test]
fn reads_and_writes_a_table(rt: HostRuntime) -> Result<(), Fail> {
    let alloc = rt.alloc();
    let settings: Table = from_str(alloc, "port = 80\n")?;
    let port = settings.get("port");
    assert!(rt; port.is_some_and(|value| *value == Value::Integer(80)));
    let text = to_string(alloc, &settings)?;
    assert_eq!(rt; text.as_str(), "port = 80\n");
    Ok(())
}

#[test]
fn reads_a_tree(rt: HostRuntime) -> Result<(), Fail> {
    let tree = read_tree(rt.alloc(), "port = 80\n")?;
    let port = tree.root().get("port");
    assert!(rt; port.is_some_and(|node| node.as_integer() == Some(80)));
    Ok(())
}

#[test]
fn fills_a_table(rt: HostRuntime) -> Result<(), Fail> {
    let alloc = rt.alloc();
    let mut table = Table::new(alloc);
    let first = table.push(String::from_str(alloc, "port")?, Value::Integer(80));
    assert!(rt; first.is_ok());
    let second = table.push(String::from_str(alloc, "port")?, Value::Integer(81));
    assert!(rt; matches!(&second, Err((PushRefusal::KeyPresent, _, _))));
    let port = table.get("port");
    assert!(rt; port.is_some_and(|value| *value == Value::Integer(80)));
    Ok(())
}

#[test]
fn reads_numbers(rt: HostRuntime) -> Result<(), Fail> {
    assert_eq!(rt; integer_of("0x50"), Some(80));
    let float = Float::parse(rt.alloc(), "+1.50e3")?;
    assert!(rt; matches!(&float, Some(float) if float.as_str() == "1.50E3"));
    Ok(())
}

#[test]
fn takes_tokens(rt: HostRuntime) -> Result<(), Fail> {
    let alloc = rt.alloc();
    let mut tokens = Tokenizer::new("a = 'b'");
    for (start, end) in [(0, 1), (1, 2), (2, 3), (3, 4), (4, 7)] {
        let next = tokens.next(alloc)?;
        assert!(rt; matches!(&next, Some((span, _)) if *span == Span { start, end }));
    }
    assert!(rt; tokens.next(alloc)?.is_none());
    assert_eq!(rt; line_col("a\nbc", 3), (1, 1));
    Ok(())
}

#[test]
fn tells_where_things_are_written(rt: HostRuntime) -> Result<(), Fail> {
    let text = "verison = 2\n[needs.x]\n[[bin]]\n[[bin]]\nport.low = 7\n";
    let row = [Step::Key("verison")];
    let header = [Step::Key("needs"), Step::Key("x")];
    let element = [Step::Key("bin"), Step::Element(1)];
    let dotted = [Step::Key("bin"), Step::Element(1), Step::Key("port")];
    for (path, at, key) in [
        (row.as_slice(), 10, Some(0)),
        (header.as_slice(), 12, Some(19)),
        (element.as_slice(), 30, None),
        (dotted.as_slice(), 38, Some(38)),
    ] {
        let origin = origin_of(rt.alloc(), text, path)?;
        assert_eq!(rt; origin, Some(Origin { at, key }));
    }
    let nowhere = origin_of(rt.alloc(), text, &[Step::Key("needs"), Step::Key("y")])?;
    assert_eq!(rt; nowhere, None);
    Ok(())
}

#[test]
fn tells_where_tables_are_written(rt: HostRuntime) -> Result<(), Fail> {
    let alloc = rt.alloc();
    let text = "\n[a.b]\nc = 1\n";
    let tree = read_tree(alloc, text)?;
    let root = origin_of_node(alloc, text, tree.root())?;
    assert_eq!(rt; root, Some(Origin { at: 1, key: None }));
    let table = tree.root().get("a").ok_or("no a")?.get("b").ok_or("no b")?;
    let found = origin_of_node(alloc, text, table)?;
    assert_eq!(rt;
        found,
        Some(Origin {
            at: 1,
            key: Some(4)
        })
    );
    Ok(())
}

#[test]
fn tells_where_a_value_is_written(rt: HostRuntime) -> Result<(), Fail> {
    let alloc = rt.alloc();
    let text = "\n[a]\nc = [1, { d = 2 }]\n";
    let tree = read_tree(alloc, text)?;
    let array = tree.root().get("a").ok_or("no a")?.get("c").ok_or("no c")?;
    let mut elements = array.elements().ok_or("no array")?;
    elements.next();
    let inline = elements.next().ok_or("no second")?;
    let found = origin_of_node(alloc, text, inline.get("d").ok_or("no d")?)?;
    assert_eq!(rt;
        found,
        Some(Origin {
            at: 19,
            key: Some(15)
        })
    );
    Ok(())
}

#[test]
fn tells_where_arrays_of_tables_are_written(rt: HostRuntime) -> Result<(), Fail> {
    let alloc = rt.alloc();
    let text = "\n[[e]]\n[[e]]\n";
    let tree = read_tree(alloc, text)?;
    let tables = tree.root().get("e").ok_or("no e")?;
    let mut elements = tables.elements().ok_or("no array")?;
    elements.next();
    let second = elements.next().ok_or("no second")?;
    let found = origin_of_node(alloc, text, tables)?;
    assert_eq!(rt;
        found,
        Some(Origin {
            at: 1,
            key: Some(3)
        })
    );
    let found = origin_of_node(alloc, text, second)?;
    assert_eq!(rt; found, Some(Origin { at: 7, key: None }));
    Ok(())
}

#[test]
fn makes_calls(rt: HostRuntime) -> Result<(), Fail> {
    let alloc = rt.alloc();
    let mut ser = Serializer::new(alloc);
    ser.serialize_map(None)?;
    ser.serialize_field("answer", &42u8)?;
    ser.end()?;
    let text = ser.finish()?;
    assert_eq!(rt; text.as_str(), "answer = 42\n");
    Ok(())
}

#[test]
fn puts_rows_first(rt: HostRuntime) -> Result<(), Fail> {
    let alloc = rt.alloc();
    let table: Table = from_str(alloc, "size = { width = 2 }\nname = \"box\"\n")?;
    assert!(rt; to_string(alloc, &table).is_err());
    let copy = rows_first(alloc, &table)?;
    let moved = into_rows_first(alloc, table)?;
    assert!(rt; copy == moved);
    let text = to_string(alloc, &moved)?;
    assert_eq!(rt; text.as_str(), "name = \"box\"\n\n[size]\nwidth = 2\n");
    Ok(())
}

#[test]
fn writes_any_table_for_people(rt: HostRuntime) -> Result<(), Fail> {
    let alloc = rt.alloc();
    let text = "hosts = [\"alpha\", \"beta\"]\nnote = \"one\\ntwo\"\n";
    let table: Table = from_str(alloc, text)?;
    let text = table_to_string_pretty(alloc, &table)?;
    assert_eq!(rt;
        text.as_str(),
        "hosts = [\"alpha\", \"beta\"]\nnote = \"\"\"\none\ntwo\"\"\"\n"
    );
    Ok(())
}

#[test]
fn writes_any_table(rt: HostRuntime) -> Result<(), Fail> {
    let alloc = rt.alloc();
    let text = "size = { width = 2 }\nname = \"box\"\nsteps = [1, { b = 2 }]\n";
    let table: Table = from_str(alloc, text)?;
    let text = table_to_string(alloc, &table)?;
    assert_eq!(rt;
        text.as_str(),
        "name = \"box\"\nsteps = [1, { b = 2 }]\n\n[size]\nwidth = 2\n"
    );
    let shown = match table.get("steps") {
        Some(steps) => value_to_string(alloc, steps)?,
        None => String::new(alloc),
    };
    assert_eq!(rt; shown.as_str(), "[1, { b = 2 }]");
    Ok(())
}

// What a caller tells of an error: by its kind, or else its message.
fn describe(alloc: Global, error: &Error) -> Result<String, AllocError> {
    match error.kind() {
        ErrorKind::Reading(ReadErrorKind::DuplicateKey(key)) => {
            format!(in alloc; "{key} stands twice")
        }
        ErrorKind::Writing(WriteError::ValueAfterTable) => format!(in alloc; "rows go first"),
        ErrorKind::UnknownField { key, .. } => format!(in alloc; "{key} is no setting"),
        _ => format!(in alloc; "{}", error.message()),
    }
}

#[test]
fn asks_an_error_of_reading(rt: HostRuntime) -> Result<(), Fail> {
    let alloc = rt.alloc();
    let read = from_str::<Table>(alloc, "[a.b]\nc.d = 1\nc.d = 2\n");
    let error = read.err().ok_or("read")?;
    assert_eq!(rt; describe(alloc, &error)?.as_str(), "d stands twice");
    let message = format!(in alloc; "{}", error.message())?;
    assert_eq!(rt; message.as_str(), "duplicate key: `d`");
    assert_eq!(rt; error.key_path().len(), 3);
    for (key, name) in error.key_path().iter().zip(["a", "b", "c"]) {
        assert_eq!(rt; key.as_str(), name);
    }
    assert_eq!(rt;
        (error.offset(), error.line_col()),
        (Some(16), Some((2, 2)))
    );
    Ok(())
}

#[test]
fn asks_an_error_of_a_type(rt: HostRuntime) -> Result<(), Fail> {
    let alloc = rt.alloc();
    let read = from_str::<Parent<Child>>(alloc, "p_a = 'a'\np_b = 1\n");
    let error = read.err().ok_or("read")?;
    assert_eq!(rt;
        describe(alloc, &error)?.as_str(),
        "invalid type: integer `1`, expected a sequence"
    );
    assert_eq!(rt; error.key_path().len(), 1);
    assert_eq!(rt;
        (error.offset(), error.line_col()),
        (Some(16), Some((1, 6)))
    );
    Ok(())
}

#[test]
fn asks_an_error_of_an_unknown_field(rt: HostRuntime) -> Result<(), Fail> {
    let alloc = rt.alloc();
    let read = from_str::<Strict>(alloc, "c_a = 'a'\nc_c = 'c'\n");
    let error = read.err().ok_or("read")?;
    assert_eq!(rt; describe(alloc, &error)?.as_str(), "c_c is no setting");
    let message = format!(in alloc; "{}", error.message())?;
    assert_eq!(rt;
        message.as_str(),
        "unknown field `c_c`, expected `c_a` or `c_b`"
    );
    Ok(())
}

// An error of writing, and one of bytes, has no keys and no place.
#[test]
fn asks_an_error_without_a_place(rt: HostRuntime) -> Result<(), Fail> {
    let alloc = rt.alloc();
    let table: Table = from_str(alloc, "size = { width = 2 }\nname = \"box\"\n")?;
    for (error, words) in [
        (to_string(alloc, &table).err(), "rows go first"),
        (
            from_slice::<Table>(alloc, b"a\xff").err(),
            "input is not valid UTF-8",
        ),
    ] {
        let error = error.ok_or(words)?;
        assert_eq!(rt; describe(alloc, &error)?.as_str(), words);
        assert!(rt; error.key_path().is_empty());
        assert_eq!(rt; (error.offset(), error.line_col()), (None, None));
    }
    Ok(())
}

#[test]
fn asks_the_kind_of_an_error(rt: HostRuntime) {
    let deep = Error::from(WriteError::NestedTooDeeply);
    assert!(rt; matches!(deep.kind(), ErrorKind::Writing(WriteError::NestedTooDeeply)));
    let refused = Error::from(AllocError);
    assert!(rt;
        matches!(
            refused.kind(),
            ErrorKind::Reading(ReadErrorKind::OutOfMemory)
        )
    );
}
