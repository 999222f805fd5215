use crate::{
    ByteText, Bytes, Class, Edition, IntKind, List, Mark, Name, Span, Text, Token, TokenKind, Word,
    between, find, is_integer_suffix, is_known_prefix, is_name, keyword_in, rest_from,
};
use std::process::Abort;
use std::test::Fail;

#[test]
fn texts_and_names(rt: HostRuntime) -> Result<(), Fail> {
    let alloc = rt.alloc();
    let text = Text::from_str(alloc, "é")?;
    assert_eq!(rt; text.as_bytes(), [0xC3u8, 0xA9].as_slice());
    assert_eq!(rt; Text::from_ascii(alloc, b"a_1")?.as_str(), "a_1");
    let text = Text::from_string(String::from_str(alloc, "b")?)?;
    assert_eq!(rt; text.share()?.as_str(), "b");
    let name = Name::from_ascii(alloc, b"async")?;
    assert_eq!(rt; name.share()?.as_str(), "async");
    let mut bytes = Vec::new(alloc);
    bytes.push(0xFFu8)?;
    let bytes = ByteText::from_vec(bytes)?;
    assert_eq!(rt; bytes.share()?.as_slice(), [0xFFu8].as_slice());
    Ok(())
}

#[test]
fn shared_tokens(rt: HostRuntime) -> Result<(), Fail> {
    let alloc = rt.alloc();
    let token = Token {
        kind: TokenKind::Int {
            value: 7,
            suffix: Some(IntKind::U8),
        },
        text: Text::from_str(alloc, "7u8")?,
        span: Span {
            file: 1,
            start: 2,
            end: 5,
        },
        edition: Edition::E2018,
        marks: List::from_slice(alloc, &[Mark(3), Mark(4)])?,
        doc: true,
    };
    let shared = token.share(alloc)?;
    assert!(rt;
        match &shared.kind {
            TokenKind::Int { value, suffix } => *value == 7 && *suffix == Some(IntKind::U8),
            _ => false,
        }
    );
    assert_eq!(rt; shared.text.as_str(), "7u8");
    assert_eq!(rt; shared.span, token.span);
    assert_eq!(rt; shared.edition, Edition::E2018);
    assert_eq!(rt; shared.marks.as_slice(), [Mark(3), Mark(4)].as_slice());
    assert!(rt; shared.doc);
    Ok(())
}

#[test]
fn lists_and_bytes(rt: HostRuntime) -> Result<(), Fail> {
    let alloc = rt.alloc();
    let mut list = List::new(alloc);
    list.push(7u8)?;
    list.push(8u8)?;
    assert_eq!(rt; list.len(), 2);
    assert_eq!(rt; list.get(1), Some(&8u8));
    assert_eq!(rt; list.get(2), None);
    assert_eq!(rt; list.as_slice(), [7u8, 8].as_slice());
    let mut bytes = Bytes::from_vec(list.into_vec());
    bytes.extend(b"ab")?;
    assert_eq!(rt; bytes.len(), 4);
    assert_eq!(rt; rest_from(bytes.as_slice(), 2), b"ab".as_slice());
    assert_eq!(rt; between(bytes.as_slice(), 1, 3), [8u8, 97].as_slice());
    let copy = Bytes::from_slice(alloc, bytes.as_slice())?;
    assert_eq!(rt; List::from_vec(copy.into_vec()).len(), 4);
    assert_eq!(rt; Bytes::new(alloc).len(), 0);
    Ok(())
}

#[test]
fn identifiers(rt: HostRuntime) -> Result<(), Fail> {
    let alloc = rt.alloc();
    for (text, name) in [
        ("e\u{301}", "\u{e9}"),
        ("\u{212b}ngstrom", "\u{c5}ngstrom"),
        ("_identifier", "_identifier"),
        ("__", "__"),
        ("dyn", "dyn"),
        ("\u{6771}\u{4eac}", "\u{6771}\u{4eac}"),
    ] {
        let found = is_name(alloc, text)?;
        let bytes = match &found {
            Some(found) => found.as_bytes(),
            None => b"".as_slice(),
        };
        assert_eq!(rt; bytes, name.as_bytes(), "{text}");
    }
    for text in ["", "_", "9a", "a-b", "r#a", "\u{301}e", "a "] {
        assert!(rt; is_name(alloc, text)?.is_none());
    }
    Ok(())
}

#[test]
fn words(rt: HostRuntime) -> Result<(), Fail> {
    let alloc = rt.alloc();
    for (text, in_2015, from_2018) in [
        ("dyn", Class::Weak, Class::Keyword),
        ("async", Class::Ident, Class::Keyword),
        ("try", Class::Ident, Class::Keyword),
        ("Self", Class::Keyword, Class::Keyword),
        ("yield", Class::Keyword, Class::Keyword),
        ("union", Class::Ident, Class::Ident),
        ("gen", Class::Ident, Class::Ident),
    ] {
        let name = Name::from_ascii(alloc, text.as_bytes())?;
        assert_eq!(rt; keyword_in(Edition::E2015, &name), in_2015);
        assert_eq!(rt; keyword_in(Edition::E2018, &name), from_2018);
        assert_eq!(rt; keyword_in(Edition::E2021, &name), from_2018);
    }
    let since = Edition::E2015;
    let table = [Word { text: "a", since }, Word { text: "b", since }];
    assert_eq!(rt; find(&table, "b"), Some(1));
    assert_eq!(rt; find(&table, "c"), None);
    assert!(rt; is_known_prefix("br") & !is_known_prefix("c"));
    assert!(rt; is_integer_suffix("usize") & !is_integer_suffix("f32"));
    Ok(())
}
