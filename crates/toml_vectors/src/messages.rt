// The texts of errors of reading that no text shows, with their line and column.
use basic_toml::Error;
use basic_toml_read::{ReadError, ReadErrorKind};
use std::alloc::{AllocError, Global};
use std::test::Fail;

fn error_text(alloc: Global, text: &str, error: ReadError) -> Result<String, AllocError> {
    let error = Error::in_text(alloc, text, &error);
    format!(in alloc; "{error}")
}

// The keys that lead to an error stand between slashes.
#[test]
fn of_errors_that_no_text_shows(rt: HostRuntime) -> Result<(), Fail> {
    for (text, offset, kind, keys, message) in [
        (
            "'\n' = 1",
            1,
            ReadErrorKind::NewlineInTableKey,
            "",
            "found newline in table key at line 1 column 2",
        ),
        (
            "a = [[1]]",
            5,
            ReadErrorKind::NestedTooDeeply,
            "",
            "nested too deeply at line 1 column 6",
        ),
        (
            "[a.b]\nc = 1",
            10,
            ReadErrorKind::Custom(String::from_str(rt.alloc(), "no\tport")?),
            "a/b/c",
            "no\tport for key `a.b.c` at line 2 column 5",
        ),
    ] {
        let mut path = Vec::new(rt.alloc());
        if !keys.is_empty() {
            for key in keys.split('/') {
                path.push(String::from_str(rt.alloc(), key)?)?;
            }
        }
        let shown = error_text(rt.alloc(), text, ReadError::within(offset, kind, path))?;
        assert_eq!(rt; shown.as_str(), message);
    }
    Ok(())
}

#[test]
fn of_want_of_memory(rt: HostRuntime) -> Result<(), Fail> {
    let error = Error::in_text(rt.alloc(), "a = 1", &ReadError::from(AllocError));
    assert!(rt; error.is_out_of_memory());
    assert_eq!(rt; error.line_col(), None);
    let shown = format!(in rt.alloc(); "{error}")?;
    assert_eq!(rt; shown.as_str(), "out of memory");
    Ok(())
}
