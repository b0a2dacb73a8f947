// What a type of a caller's own reads. Errors of such types are cases of `toml_cases` (`data/types/own.cases`).
use basic_toml::from_str;
use std::borrow::CowStr;
use std::test::Fail;
use toml_callers::types::Title;

#[test]
fn a_string_without_an_escape_is_borrowed(rt: HostRuntime) -> Result<(), Fail> {
    let plain: Title<'static> = from_str(rt.alloc(), "title = 'a'")?;
    assert!(rt; matches!(&plain.title, CowStr::Borrowed("a")));
    let escaped: Title<'static> = from_str(rt.alloc(), "title = \"\\u0061\"")?;
    assert!(rt; matches!(&escaped.title, CowStr::Owned(text) if text.as_str() == "a"));
    Ok(())
}
