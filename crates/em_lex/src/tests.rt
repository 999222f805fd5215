use crate::{LexError, LexKind, Lexings, lex};
use em_base::{Edition, IntKind, Limit, Token, TokenKind};
use std::alloc::{AllocError, Global};
use std::test::Fail;

const E15: Edition = Edition::E2015;

const E18: Edition = Edition::E2018;

const E21: Edition = Edition::E2021;

fn suffix_text(suffix: Option<IntKind>) -> &'static str {
    match suffix {
        None => "",
        Some(IntKind::I8) => "i8",
        Some(IntKind::I16) => "i16",
        Some(IntKind::I32) => "i32",
        Some(IntKind::I64) => "i64",
        Some(IntKind::Isize) => "isize",
        Some(IntKind::U8) => "u8",
        Some(IntKind::U16) => "u16",
        Some(IntKind::U32) => "u32",
        Some(IntKind::U64) => "u64",
        Some(IntKind::Usize) => "usize",
    }
}

/// A token's kind with its value, or its spelling, and its place.
fn shown(alloc: Global, token: &Token) -> Result<String, AllocError> {
    let start = token.span.start;
    let end = token.span.end;
    let doc = if token.doc { "doc " } else { "" };
    let text = token.text.as_str();
    match &token.kind {
        TokenKind::Ident { name, raw } => {
            let name = name.as_str();
            let raw = if *raw { "raw" } else { "word" };
            format!(in alloc; "{doc}{raw} {name} {start}..{end}; ")
        }
        TokenKind::Lifetime { name } => {
            let name = name.as_str();
            format!(in alloc; "{doc}life {name} {start}..{end}; ")
        }
        TokenKind::Int { value, suffix } => {
            let value = *value;
            let suffix = suffix_text(*suffix);
            format!(in alloc; "{doc}int {value}{suffix} {start}..{end}; ")
        }
        TokenKind::Char { value } => {
            let value = *value as u32;
            format!(in alloc; "{doc}char {value} {start}..{end}; ")
        }
        TokenKind::Byte { value } => {
            let value = *value;
            format!(in alloc; "{doc}byte {value} {start}..{end}; ")
        }
        TokenKind::Str { value } => {
            let value = value.as_str();
            format!(in alloc; "{doc}str [{value}] {start}..{end}; ")
        }
        TokenKind::ByteStr { value } => {
            let mut list = String::new(alloc);
            for byte in value.as_slice() {
                let byte = *byte;
                list.push_str(format!(in alloc; "{byte},")?.as_str())?;
            }
            format!(in alloc; "{doc}bytes [{list}] {start}..{end}; ")
        }
        TokenKind::Open => format!(in alloc; "{doc}open {text} {start}..{end}; "),
        TokenKind::Close => format!(in alloc; "{doc}close {text} {start}..{end}; "),
        TokenKind::Punct => format!(in alloc; "{doc}punct {text} {start}..{end}; "),
    }
}

/// Texts that `rustc` takes as these tokens in the edition, and their values by the Reference.
#[test]
fn texts_have_these_tokens(rt: HostRuntime) -> Result<(), Fail> {
    let alloc = rt.alloc();
    let mut count = Lexings::new();
    for (edition, text, want) in [
        (
            E15,
            "a _b1 fn",
            "word a 0..1; word _b1 2..5; word fn 6..8; ",
        ),
        (E18, "_ __", "punct _ 0..1; word __ 2..4; "),
        (
            E21,
            "\u{e9} e\u{301}",
            "word \u{e9} 0..2; word \u{e9} 3..6; ",
        ),
        (
            E15,
            "r#fn r#async r",
            "raw fn 0..4; raw async 5..12; word r 13..14; ",
        ),
        (E18, "r#a.r#b", "raw a 0..3; punct . 3..4; raw b 4..7; "),
        (E21, "r#e\u{301}", "raw \u{e9} 0..5; "),
        (
            E15,
            "'a 'static '_",
            "life a 0..2; life static 3..10; life _ 11..13; ",
        ),
        (E21, "&'a;", "punct & 0..1; life a 1..3; punct ; 3..4; "),
        (E18, "'a: 'b", "life a 0..2; punct : 2..3; life b 4..6; "),
        (
            E15,
            "0 1_000 18446744073709551615",
            "int 0 0..1; int 1000 2..7; int 18446744073709551615 8..28; ",
        ),
        (
            E18,
            "0xff_u8 0o17i32 0b1_0usize 1_i64",
            "int 255u8 0..7; int 15i32 8..15; int 2usize 16..26; int 1i64 27..32; ",
        ),
        (E21, "0xE+1", "int 14 0..3; punct + 3..4; int 1 4..5; "),
        (
            E18,
            "p.0.1",
            "word p 0..1; punct . 1..2; int 0 2..3; punct . 3..4; int 1 4..5; ",
        ),
        (
            E18,
            "1.x 1..2 1._a",
            "int 1 0..1; punct . 1..2; word x 2..3; int 1 4..5; punct .. 5..7; int 2 7..8; int 1 9..10; punct . 10..11; word _a 11..13; ",
        ),
        (
            E15,
            "'a' '\\'' '\"' '\\0'",
            "char 97 0..3; char 39 4..8; char 34 9..12; char 0 13..17; ",
        ),
        (
            E21,
            "'\\u{1F600}' '\\u{1_0_}' '\\x7f'",
            "char 128512 0..11; char 16 12..22; char 127 23..29; ",
        ),
        (
            E18,
            "b'a' b'\\xff' b'\\\\'",
            "byte 97 0..4; byte 255 5..12; byte 92 13..18; ",
        ),
        (E18, "'\u{e9}''a'", "char 233 0..4; char 97 4..7; "),
        (
            E15,
            "\"\" \"a\\tb\" \"\\\"\\u{e9}\"",
            "str [] 0..2; str [a\tb] 3..9; str [\"\u{e9}] 10..20; ",
        ),
        (
            E18,
            "\"a\\\n \t\r\n b\" \"c\r\nd\"",
            "str [ab] 0..11; str [c\nd] 12..18; ",
        ),
        (E18, "\"a\\\r\n  b\"", "str [ab] 0..9; "),
        (E21, "\"/* // \0\"", "str [/* // \0] 0..9; "),
        (
            E15,
            "r\"a\\n\" r#\"a\"b\"# r##\"x\"#y\"##",
            "str [a\\n] 0..6; str [a\"b] 7..15; str [x\"#y] 16..27; ",
        ),
        (E21, "r#\"a\r\nb\"#", "str [a\nb] 0..9; "),
        (
            E15,
            "b\"a\\xff\\0\" br#\"a\"b\"#",
            "bytes [97,255,0,] 0..10; bytes [97,34,98,] 11..20; ",
        ),
        (
            E18,
            "b\"\" br\"\\\" \"\\\\\"",
            "bytes [] 0..3; bytes [92,] 4..9; str [\\] 10..14; ",
        ),
        (E15, "z\"a\"", "word z 0..1; str [a] 1..4; "),
        (
            E18,
            "z'a' a#b",
            "word z 0..1; char 97 1..4; word a 5..6; punct # 6..7; word b 7..8; ",
        ),
        (
            E15,
            "([{}])",
            "open ( 0..1; open [ 1..2; open { 2..3; close } 3..4; close ] 4..5; close ) 5..6; ",
        ),
        (
            E21,
            "<<= >>= ... ..= <<==",
            "punct <<= 0..3; punct >>= 4..7; punct ... 8..11; punct ..= 12..15; punct <<= 16..19; punct = 19..20; ",
        ),
        (
            E18,
            "&&& ||= ->> <-= =>= ::: ....",
            "punct && 0..2; punct & 2..3; punct || 4..6; punct = 6..7; punct -> 8..10; punct > 10..11; punct <- 12..14; punct = 14..15; punct => 16..18; punct = 18..19; punct :: 20..22; punct : 22..23; punct ... 24..27; punct . 27..28; ",
        ),
        (
            E18,
            "+=-=*=/=%=^=&=|===!=>=<=@,;#$?~",
            "punct += 0..2; punct -= 2..4; punct *= 4..6; punct /= 6..8; punct %= 8..10; punct ^= 10..12; punct &= 12..14; punct |= 14..16; punct == 16..18; punct != 18..20; punct >= 20..22; punct <= 22..24; punct @ 24..25; punct , 25..26; punct ; 26..27; punct # 27..28; punct $ 28..29; punct ? 29..30; punct ~ 30..31; ",
        ),
        (
            E21,
            "\t\n\u{b}\u{c}\r \u{85}\u{200e}\u{200f}\u{2028}\u{2029}a",
            "word a 20..21; ",
        ),
        (
            E18,
            "a// b\nc/* /* */ d */e",
            "word a 0..1; word c 6..7; word e 20..21; ",
        ),
        (
            E18,
            "/**/a /***/b ////\nc",
            "word a 4..5; word b 11..12; word c 18..19; ",
        ),
        (E15, "/// x\na b", "doc word a 6..7; word b 8..9; "),
        (E15, "/** x */ /* y */ a", "doc word a 17..18; "),
        (
            E21,
            "/*!*/a //!\n;",
            "doc word a 5..6; doc punct ; 11..12; ",
        ),
        (E18, "", ""),
        (E18, "\u{feff}a", "word a 3..4; "),
    ] {
        let tokens = lex(alloc, 3, edition, text.as_bytes(), &mut count)?;
        let mut found = String::new(alloc);
        for token in tokens.list.as_slice() {
            assert!(rt; token.edition == edition && token.span.file == 3);
            found.push_str(shown(alloc, token)?.as_str())?;
        }
        assert_eq!(rt; found.as_str(), want, "{text}");
    }
    assert_eq!(rt; count.count(), 40);
    Ok(())
}

/// Texts with a fault, at its first place. `rustc` refuses each in the edition too, between the braces of a macro call,
/// but for what this profile leaves out: numbers that are no integers of 64 bits, suffixes, and a `#` behind a lifetime.
#[test]
fn texts_have_these_faults(rt: HostRuntime) {
    let alloc = rt.alloc();
    let mut count = Lexings::new();
    for (edition, text, kind, offset) in [
        (E18, "\\", LexKind::BadCharacter, 0),
        (E18, "a \u{a0}", LexKind::BadCharacter, 2),
        (E21, "\0", LexKind::BadCharacter, 0),
        (E18, "a\u{feff}", LexKind::BadCharacter, 1),
        (E18, "\"a\rb\"", LexKind::BadCharacter, 2),
        (E15, "b\"\u{e9}\"", LexKind::BadCharacter, 2),
        (E18, "'\r'", LexKind::BadCharacter, 1),
        (E18, "b'\u{e9}'", LexKind::BadCharacter, 2),
        (E18, "r\"a\r\"", LexKind::BadCharacter, 3),
        (E18, "\"\u{e9}\r\"", LexKind::BadCharacter, 3),
        (E18, "\"abc", LexKind::Unclosed, 0),
        (E18, "\u{e9} /* /* */", LexKind::Unclosed, 3),
        (E18, "'", LexKind::Unclosed, 0),
        (E18, "''", LexKind::Unclosed, 0),
        (E18, "r#\"a\"", LexKind::Unclosed, 0),
        (E18, "b'a", LexKind::Unclosed, 0),
        (E18, "'\n'", LexKind::Unclosed, 0),
        (E18, "'\\nab'", LexKind::Unclosed, 0),
        (E21, "z\"a\"", LexKind::ReservedPrefix, 0),
        (E21, "z'a'", LexKind::ReservedPrefix, 0),
        (E21, "a#b", LexKind::ReservedPrefix, 0),
        (E21, "_\"a\"", LexKind::ReservedPrefix, 0),
        (E21, "br'a'", LexKind::ReservedPrefix, 0),
        (E18, "2.0", LexKind::Float, 0),
        (E18, "1e3", LexKind::Float, 0),
        (E15, "1.", LexKind::Float, 0),
        (E21, "1_e3", LexKind::Float, 0),
        (E18, "1f32", LexKind::Float, 0),
        (E18, "1.;", LexKind::Float, 0),
        (E18, "0x", LexKind::BadNumber, 0),
        (E18, "0b12", LexKind::BadNumber, 0),
        (E18, "0o8", LexKind::BadNumber, 0),
        (E18, "18446744073709551616", LexKind::BadNumber, 0),
        (E18, "0b_", LexKind::BadNumber, 0),
        (E18, "1u7", LexKind::LiteralSuffix, 0),
        (E18, "\"a\"b", LexKind::LiteralSuffix, 0),
        (E18, "'a'b", LexKind::LiteralSuffix, 0),
        (E18, "p.0u8", LexKind::LiteralSuffix, 2),
        (E18, "p.0e3", LexKind::LiteralSuffix, 2),
        (E18, "0b1e3", LexKind::LiteralSuffix, 0),
        (E18, "\"\\q\"x", LexKind::LiteralSuffix, 0),
        (E18, "br\"a\"_", LexKind::LiteralSuffix, 0),
        (E18, "\"\\q\"", LexKind::BadEscape, 1),
        (E18, "'\\q'", LexKind::BadEscape, 1),
        (E18, "\"\\x80\"", LexKind::BadEscape, 1),
        (E18, "b'\\u{41}'", LexKind::BadEscape, 2),
        (E18, "\"a\\u{110000}\"", LexKind::BadEscape, 2),
        (E18, "\"\\u{_1}\"", LexKind::BadEscape, 1),
        (E18, "\"\\u{1234567}\"", LexKind::BadEscape, 1),
        (E18, "'ab'", LexKind::BadLifetime, 0),
        (E18, "'a#", LexKind::BadLifetime, 0),
        (E21, "x 'r#a", LexKind::BadLifetime, 2),
        (E18, "r#", LexKind::BadRaw, 0),
        (E18, "r#_", LexKind::BadRaw, 0),
        (E21, "r#crate", LexKind::BadRaw, 0),
        (E18, "br#a", LexKind::BadRaw, 0),
        (E15, "r##a", LexKind::BadRaw, 0),
    ] {
        let refused = lex(alloc, 0, edition, text.as_bytes(), &mut count);
        assert!(rt;
            refused.is_err_and(|error| error == LexError::At { offset, kind }),
            "{text}"
        );
    }
    assert_eq!(rt; count.count(), 57);
}

/// The places that `std::str::from_utf8` tells.
#[test]
fn bytes_that_are_no_text(rt: HostRuntime) {
    let alloc = rt.alloc();
    let mut count = Lexings::new();
    let kind = LexKind::NotUtf8;
    for (bytes, offset) in [
        ([0xe2, 0x28, 0x61], 0),
        ([0x61, 0x5c, 0xff], 2),
        ([0x61, 0x62, 0xc3], 2),
        ([0x61, 0xed, 0xa0], 1),
    ] {
        let refused = lex(alloc, 0, E18, &bytes, &mut count);
        assert!(rt; refused.is_err_and(|error| error == LexError::At { offset, kind }));
    }
}

#[test]
fn a_text_is_at_most_so_long(rt: HostRuntime) -> Result<(), Fail> {
    let alloc = rt.alloc();
    let mut count = Lexings::new();
    let line = [b' '; 4096];
    let mut text = Vec::new(alloc);
    for _ in 0..1024 {
        text.extend_from_slice(&line)?;
    }
    text.push(b'\xff')?;
    let refused = lex(alloc, 0, E15, &text, &mut count);
    assert!(rt; refused.is_err_and(|error| error == LexError::Limit(Limit::FileBytes)));
    assert_eq!(rt; count.count(), 1);
    Ok(())
}

/// Bytes by a linear congruence, from a fixed seed, among those that begin tokens.
#[test]
fn any_bytes_have_an_answer(rt: HostRuntime) -> Result<(), Fail> {
    let alloc = rt.alloc();
    let mut count = Lexings::new();
    let alphabet = b"rb\"'#\\u{x}0_1.e/*<=>&|!\n\r \xc3\xa9a";
    let mut seed = 20_260_801u32;
    for _ in 0..2_000 {
        let mut text = Vec::new(alloc);
        for _ in 0..12 {
            seed = seed.wrapping_mul(1_664_525).wrapping_add(1_013_904_223);
            let index = (seed >> 16) as usize % alphabet.len();
            text.push(alphabet[index])?;
        }
        match lex(alloc, 0, E21, &text, &mut count) {
            Ok(tokens) => assert!(rt; tokens.list.as_slice().len() <= 12),
            Err(LexError::At { offset, kind: _ }) => assert!(rt; offset < 12),
            Err(_) => assert!(rt; false),
        }
    }
    assert_eq!(rt; count.count(), 2_000);
    Ok(())
}
