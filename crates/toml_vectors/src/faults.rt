// Want of memory as an error, and the names that are passed on.
use basic_toml::{Error, WriteError, float_of, tokens};
use std::alloc::AllocError;
use std::test::Fail;

#[test]
fn shows_want_of_memory(rt: HostRuntime) -> Result<(), Fail> {
    for error in [
        Error::from(WriteError::OutOfMemory),
        Error::from(AllocError),
    ] {
        assert!(rt; error.is_out_of_memory());
        let shown = format!(in rt.alloc(); "{error}")?;
        assert_eq!(rt; shown.as_str(), "out of memory");
    }
    Ok(())
}

#[test]
fn shows_tokens_and_numbers(rt: HostRuntime) -> Result<(), Fail> {
    let mut tokenizer = tokens::Tokenizer::new(" a");
    let (_, token) = tokenizer.next(rt.alloc())?.ok_or("no token")?;
    assert!(rt; token == tokens::Token::Whitespace(" "));
    let float = float_of(rt.alloc(), "+1.5")?.ok_or("no float")?;
    assert_eq!(rt; float.as_str(), "1.5");
    Ok(())
}
