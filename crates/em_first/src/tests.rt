use crate::{is_first_form, keyword_findings};
use em_base::{Edition, Lint, Span, Tokens};
use em_lex::{Lexings, lex};
use std::alloc::Global;
use std::process::Abort;

fn tokens_of(rt: &(impl Alloc<A = Global> + Abort), text: &str) -> Tokens {
    let mut count = Lexings::new();
    lex(rt.alloc(), 0, Edition::E2015, text.as_bytes(), &mut count).expect(rt, "the text lexes")
}

#[test]
fn tells_programs_of_the_first_form(rt: HostRuntime) {
    let programs = [
        ("fn main() { }", true),
        (
            "fn main() { let try = 1; let try = 2; println!(\"{}\", try); }",
            true,
        ),
        (
            "fn main() { let async = 1; println!(\"{}\", r#async); let r#dyn = 2; println!(\"{}\", dyn); }",
            true,
        ),
        (
            "fn main() { let asyncx = 1; let _try = 2; println!(\"{}\", asyncx); }",
            true,
        ),
        (
            "fn main() { let r#let = 007; println!(\"{}\", r#let); }",
            true,
        ),
        ("fn main() { let x = 2147483647; }", true),
        ("fn main() { let x = 2147483648; }", false),
        ("fn main() { let x = 1; println!(\"{}\", y); }", false),
        ("fn main() { println!(\"{}\", x); let x = 1; }", false),
        ("fn main() { let _ = 1; }", false),
        ("fn main() { let as = 1; }", false),
        ("fn main() { let x = y; }", false),
        ("fn main() { let x = 1; println!(\"{}\", x) }", false),
        ("fn main() { let x = 1;", false),
        ("fn main() { } }", false),
        ("fn r#main() { }", false),
        ("/* a */ fn main() { // b\n }", true),
        (
            "fn main() { let e\u{301} = 1; println!(\"{}\", \u{e9}); }",
            true,
        ),
        ("fn main() { let x = 0x7fff_ffff; }", true),
        ("fn main() { let x = 127i8; let y = 255_u8; }", true),
        ("fn main() { let x = 128i8; }", false),
        ("fn main() { let x = 256u8; }", false),
        ("fn main() { let x = 2147483647u64; }", true),
        ("fn main() { let x = 2147483648u64; }", false),
        ("fn main() { let x = 'a'; }", false),
        ("fn main() { println!(r\"{}\", x); }", false),
        ("", false),
    ];
    for (text, want) in programs {
        let tokens = tokens_of(&rt, text);
        assert_eq!(rt; is_first_form(rt.alloc(), &tokens), Ok(want), "{text}");
    }
}

#[test]
fn finds_each_use_of_a_word(rt: HostRuntime) {
    let tokens = tokens_of(&rt, "fn main() { let async = 1; println!(\"{}\", async); }");
    let found = keyword_findings(rt.alloc(), &tokens).expect(&rt, "there is memory");
    let places = [(16, 21), (42, 47)];
    assert_eq!(rt; found.len(), places.len());
    for (suggestion, (start, end)) in found.as_slice().iter().zip(places) {
        let place = Span {
            file: 0,
            start,
            end,
        };
        assert_eq!(rt; suggestion.lint, Lint::Keyword);
        assert_eq!(rt; suggestion.anchor, place);
        for part in suggestion.parts.as_slice() {
            assert_eq!(rt; part.span, place);
            assert_eq!(rt; part.text.as_str(), "r#async");
        }
        assert_eq!(rt; suggestion.parts.len(), 1);
    }
}
