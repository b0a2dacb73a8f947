// Calls of a tokenizer.
use basic_toml_tokens::{Error, Span, Token, Tokenizer};
use std::borrow::CowStr;
use std::test::Fail;
use toml_callers::readers::rest;

#[test]
fn rest_of_a_text(rt: HostRuntime) {
    let text = "\u{feff}\u{e9}a";
    let mut tokenizer = Tokenizer::new(text);
    assert_eq!(rt; rest(text, &mut tokenizer), "\u{e9}a");
    assert_eq!(rt; tokenizer.one(), Some((3, '\u{e9}')));
    assert_eq!(rt; rest(text, &mut tokenizer), "a");
}

// Each call that can take memory finds it, in these two.
#[test]
fn calls_with_ample_memory(rt: HostRuntime) -> Result<(), Fail> {
    let alloc = rt.alloc();
    let mut tokenizer = Tokenizer::new("\"\\u0061\" = 1");
    assert!(rt; tokenizer.peek(alloc).is_ok());
    assert!(rt; tokenizer.clone().unwrap().table_key(alloc).is_ok());
    let key = Token::String {
        src: "\"\\u0061\"",
        val: CowStr::Borrowed("a"),
        multiline: false,
    };
    assert_eq!(rt;
        tokenizer.eat_spanned(alloc, key),
        Ok(Some(Span { start: 0, end: 8 }))
    );
    assert_eq!(rt; tokenizer.eat(alloc, Token::Whitespace(" ")), Ok(true));
    assert_eq!(rt; tokenizer.expect(alloc, Token::Equals), Ok(()));
    tokenizer.eat_whitespace();
    assert_eq!(rt;
        tokenizer.expect_spanned(alloc, Token::Keylike("1")),
        Ok(Span { start: 11, end: 12 })
    );
    Ok(())
}

#[test]
fn calls_at_the_end_of_a_line(rt: HostRuntime) -> Result<(), Fail> {
    let alloc = rt.alloc();
    let mut tokenizer = Tokenizer::new(" # x\n\n.");
    assert_eq!(rt; tokenizer.one(), Some((0, ' ')));
    assert_eq!(rt; tokenizer.eat_comment(), Ok(true));
    assert_eq!(rt; tokenizer.eat_newline_or_eof(alloc), Ok(()));
    assert_eq!(rt; tokenizer.current(), 6);
    assert_eq!(rt;
        tokenizer.expect(alloc, Token::Comma),
        Err(Error::Wanted {
            at: 6,
            expected: "a comma",
            found: "a period",
        })
    );
    tokenizer.skip_to_newline();
    assert_eq!(rt; tokenizer.eat_newline_or_eof(alloc), Ok(()));
    Ok(())
}
