// Where what an error is about is written, beside the place that its text tells.
use basic_toml::{
    Error, Node, Step, Table, from_str, line_col, only_fields, read_field, read_tree, variant,
};
use basic_toml_read::sections;
use std::alloc::Global;
use std::test::Fail;

// The line and the column of an error's place, and those of its origins, all from 1.
fn places(alloc: Global, text: &str, error: Error) -> Result<(String, String), Fail> {
    let error = error.with_line(text);
    let place = match error.line_col() {
        Some((line, column)) => format!(in alloc; "{}:{}", line + 1, column + 1)?,
        None => String::from_str(alloc, "none")?,
    };
    let Some(origins) = error.origins(alloc, text)? else {
        return Ok((place, String::from_str(alloc, "none")?));
    };
    let (line, column) = line_col(text, origins.origin);
    let mut found = format!(in alloc; "{}:{}", line + 1, column + 1)?;
    if let Some(other) = origins.other {
        let (line, column) = line_col(text, other);
        write!(found, ", {}:{}", line + 1, column + 1)?;
    }
    Ok((place, found))
}

// What stands at a path of keys, and at the second element where an array does.
fn at<'t, 'de>(root: Node<'t, 'de>, path: &str) -> Result<Node<'t, 'de>, Fail> {
    let mut node = root;
    for key in path.split('.') {
        node = node.get(key).ok_or("no such key")?;
        if let Some(mut elements) = node.elements() {
            elements.next();
            node = elements.next().ok_or("no second element")?;
        }
    }
    Ok(node)
}

#[test]
fn of_texts(rt: HostRuntime) -> Result<(), Fail> {
    for (text, place, origin) in [
        ("a = 1\nb = 2\na = 3", "3:1", "3:1, 1:1"),
        ("[a]\n[b]\n[a]", "3:1", "3:1, 1:1"),
        ("a.b = 1\n[a]", "2:2", "2:2, 1:1"),
        ("a = {}\na.b = 1", "1:5", "2:1, 1:5"),
        ("a = ", "1:5", "1:5"),
    ] {
        let read: Result<Table, Error> = from_str(rt.alloc(), text);
        let Err(error) = read else {
            return Err(Fail::from("it is read"));
        };
        let found = places(rt.alloc(), text, error)?;
        assert_eq!(rt; found.0.as_str(), place);
        assert_eq!(rt; found.1.as_str(), origin);
    }
    Ok(())
}

// Errors of a field `name`, which is missing or no string in the table at a path.
#[test]
fn of_fields(rt: HostRuntime) -> Result<(), Fail> {
    for (text, path, place, origin) in [
        (
            "\n\n\n\n[needs.x]\n\n\n\n[features.z]\n",
            "needs.x",
            "9:1",
            "5:1",
        ),
        ("a.b.c = 1", "a.b", "1:9", "1:3"),
        ("k = {}", "k", "1:5", "1:5"),
        (
            "[[bin]]\nname = \"a\"\n\n[[bin]]\nname = 2\n\n[[bin]]\n",
            "bin",
            "5:8",
            "5:8",
        ),
    ] {
        let tree = read_tree(rt.alloc(), text)?;
        let read: Result<String, Error> = read_field(rt.alloc(), at(tree.root(), path)?, "name");
        let Err(error) = read else {
            return Err(Fail::from("it is read"));
        };
        let found = places(rt.alloc(), text, error)?;
        assert_eq!(rt; found.0.as_str(), place);
        assert_eq!(rt; found.1.as_str(), origin);
    }
    Ok(())
}

// The same of the whole text.
#[test]
fn of_fields_of_the_root(rt: HostRuntime) -> Result<(), Fail> {
    for (text, place, origin) in [
        ("", "none", "none"),
        ("# nothing\n", "none", "none"),
        ("name = [\"a\"]", "1:1", "1:8"),
    ] {
        let tree = read_tree(rt.alloc(), text)?;
        let read: Result<String, Error> = read_field(rt.alloc(), tree.root(), "name");
        let Err(error) = read else {
            return Err(Fail::from("it is read"));
        };
        let found = places(rt.alloc(), text, error)?;
        assert_eq!(rt; found.0.as_str(), place);
        assert_eq!(rt; found.1.as_str(), origin);
    }
    Ok(())
}

// Three servers, of which the second has no port.
const SERVERS: &str = "[[server]]\nport = 1\n[[server]]\nprot = 2\n[[server]]\n";

#[test]
fn path_to_an_unknown_field(rt: HostRuntime) -> Result<(), Fail> {
    let alloc = rt.alloc();
    let text = SERVERS;
    let tree = read_tree(alloc, text)?;
    let Err(error) = only_fields(alloc, at(tree.root(), "server")?, &["port"]) else {
        return Err(Fail::from("it is known"));
    };
    let sections = sections(alloc, text)?;
    let path = error.path(alloc, sections.as_slice())?;
    let field = [Step::Key("server"), Step::Element(1), Step::Key("prot")];
    assert!(rt; path.is_some_and(|path| path.as_slice() == field.as_slice()));
    Ok(())
}

#[test]
fn path_to_a_table_that_lacks_a_field(rt: HostRuntime) -> Result<(), Fail> {
    let alloc = rt.alloc();
    let tree = read_tree(alloc, SERVERS)?;
    let read: Result<u16, Error> = read_field(alloc, at(tree.root(), "server")?, "port");
    let Err(error) = read else {
        return Err(Fail::from("it is read"));
    };
    let sections = sections(alloc, SERVERS)?;
    let path = error.path(alloc, sections.as_slice())?;
    let server = [Step::Key("server"), Step::Element(1)];
    assert!(rt; path.is_some_and(|path| path.as_slice() == server.as_slice()));
    Ok(())
}

#[test]
fn of_names(rt: HostRuntime) -> Result<(), Fail> {
    let alloc = rt.alloc();
    let text = "name = 1\nverison = 2\n[needs]\n[features]\n";
    let tree = read_tree(alloc, text)?;
    let Err(error) = only_fields(alloc, tree.root(), &["name", "needs", "features"]) else {
        return Err(Fail::from("it is known"));
    };
    let origins = error.origins(alloc, text)?;
    assert!(rt; origins.is_some_and(|origins| origins.origin == 9 && origins.other.is_none()));
    let found = places(alloc, text, error)?;
    assert_eq!(rt; found.0.as_str(), "4:1");
    assert_eq!(rt; found.1.as_str(), "2:1");
    Ok(())
}

#[test]
fn of_variants(rt: HostRuntime) -> Result<(), Fail> {
    let alloc = rt.alloc();
    let text = "colour = \"x\"\n[z]\n";
    let tree = read_tree(alloc, text)?;
    let Err(error) = variant(alloc, at(tree.root(), "colour")?, &["red", "blue"]) else {
        return Err(Fail::from("it is known"));
    };
    let found = places(alloc, text, error)?;
    assert_eq!(rt; found.0.as_str(), "2:1");
    assert_eq!(rt; found.1.as_str(), "1:10");
    Ok(())
}
