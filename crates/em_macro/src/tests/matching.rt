//! What calls match, and what is written.

use super::one_piece::OnePiece;
use super::texts::{pieces, shown, tokens};
use crate::{
    CopyError, MacroError, Matched, Rules, RulesError, copied_len, match_call, read_rules,
    transcribe,
};
use em_base::{Edition, List, Mark, NoMemory};
use em_tree::Piece;
use std::alloc::Global;
use std::test::Fail;

const E18: Edition = Edition::E2018;

const E21: Edition = Edition::E2021;

fn text(alloc: Global, text: &str) -> Result<String, NoMemory> {
    Ok(String::from_str(alloc, text)?)
}

/// What the chosen arm writes, if the count says so too.
fn written(alloc: Global, rules: &Rules, matched: &Matched) -> Result<String, NoMemory> {
    if matched.arm as usize >= rules.arms.len() {
        return text(alloc, "no such arm");
    }
    let counted = copied_len(alloc, rules, matched);
    match transcribe(alloc, rules, matched, Mark(7)) {
        Ok(pieces) => {
            if counted != Ok(pieces.as_slice().len() as u64) {
                return text(alloc, "another length");
            }
            let pieces = shown(alloc, pieces.as_slice())?;
            let arm = matched.arm;
            Ok(format!(in alloc; "{arm}: {pieces}")?)
        }
        Err(CopyError::Lengths) => {
            if counted != Err(CopyError::Lengths) {
                return text(alloc, "a length");
            }
            text(alloc, "Lengths")
        }
        Err(CopyError::NoMemory) => Err(NoMemory),
    }
}

/// The number of the arm that the call chooses and what it writes, or why there is none.
fn called(
    alloc: Global,
    edition: Edition,
    rules: &str,
    call: &List<Piece>,
) -> Result<String, NoMemory> {
    let body = tokens(alloc, edition, rules)?;
    let rules = match read_rules(alloc, &body) {
        Ok(rules) => rules,
        Err(RulesError::Bad) => return text(alloc, "Bad"),
        Err(RulesError::NoMemory) => return Err(NoMemory),
    };
    match match_call(alloc, &rules, call, &OnePiece) {
        Ok(matched) => written(alloc, &rules, &matched),
        Err(MacroError::NoArm) => text(alloc, "NoArm"),
        Err(MacroError::Broken { arm }) => Ok(format!(in alloc; "Broken {arm}")?),
        Err(MacroError::Depth) => text(alloc, "Depth"),
        Err(MacroError::NoMemory) => Err(NoMemory),
    }
}

const FRONT: &str = "( $ p : pat ) => { 1 } ; ( $ ( $ p : pat ) | + ) => { 2 }";

const NESTED: &str =
    "( $ ( $ x : ident ( $ ( $ y : ident [ $ ( $ z : ident ) * ] ) * ) ) * ) => { $ ( $ x / $ ( $ y . $ ( $ z ) , * ; ) * ) * }";

const TWO: &str = "( $ ( $ a : ident ) * ; $ ( $ b : ident ) * ) => { $ ( $ a $ b ) * }";

const INNER: &str =
    "( $ ( $ a : ident : $ ( $ b : ident ) * ; $ ( $ c : ident ) * , ) * ) => { $ ( $ a $ ( $ b $ c ) * ) * }";

/// Reference, "Macros by example": which arm a call takes, and what it writes.
#[test]
fn calls_are_replaced(rt: HostRuntime) -> Result<(), Fail> {
    let alloc = rt.alloc();
    for (edition, rules, call, want) in [
        (E18, FRONT, "A | B", "1: 2' "),
        (E18, FRONT, "A", "0: 1' "),
        (
            E21,
            "( $ ( $ t : tt ) * ) => { 0 }",
            "z \"hey\" k # x",
            "0: 0' ",
        ),
        (
            E21,
            "( $ e : expr ) => { { let async = $ e ; async + 1 } }",
            "1",
            "0: {' let' async' =' < 1 > ;' async' +' 1' }' ",
        ),
        (E21, "( async ) => { 7 }", "async", "0: 7' "),
        (E21, "( async ) => { 7 }", "r#async", "NoArm"),
        (
            E18,
            "( $ t : ident ) => { impl $ t for S { } fn g ( x : Box < $ t > ) { } }",
            "T",
            "0: impl' T for' S' {' }' fn' g' (' x' :' Box' <' T >' )' {' }' ",
        ),
        (
            E18,
            "( ) => { 0 } ; ( $ a : tt $ ( $ r : tt ) * ) => { m ! ( $ ( $ r ) * ) }",
            "a + c",
            "1: m' !' (' + c )' ",
        ),
        (
            E18,
            "( ) => { 0 } ; ( $ a : tt $ ( $ r : tt ) * ) => { m ! ( $ ( $ r ) * ) }",
            "",
            "0: 0' ",
        ),
        (
            E18,
            "( $ e : expr ) => { $ e . try_into ( ) }",
            "S",
            "0: < S > .' try_into' (' )' ",
        ),
        (
            E18,
            "( $ m : ident ) => { S . $ m ( ) }",
            "try_into",
            "0: S' .' try_into (' )' ",
        ),
        (
            E18,
            "( $ d : tt $ x : ident ) => { { let $ x = 1 ; $ x } }",
            "$ async",
            "0: {' let' async =' 1' ;' async }' ",
        ),
        (
            E18,
            "( $ d : tt $ x : ident ) => { $ d $ x }",
            "$ r#async",
            "0: $ r#async ",
        ),
        (
            E21,
            "( ) => { $ crate :: f ( ) }",
            "",
            "0: $' crate' ::' f' (' )' ",
        ),
        (
            E21,
            "( $ ( $ x : ident ) , * ) => { $ ( $ x ) ; * }",
            "a , b , c",
            "0: a ;' b ;' c ",
        ),
        (
            E21,
            "( $ ( $ x : ident ) , * ) => { $ ( $ x ) ; * }",
            "",
            "0: ",
        ),
        (
            E21,
            "( $ ( $ x : ident ) , * ) => { $ ( $ x ) ; * }",
            "a ,",
            "NoArm",
        ),
        (
            E21,
            "( $ ( $ x : ident ) , * ) => { $ ( $ x ) ; * }",
            "a b",
            "NoArm",
        ),
        (E21, "( $ ( $ x : ident ) , + ) => { }", "", "NoArm"),
        (E21, "( $ ( a ) * b ) => { 1 }", "a a b", "0: 1' "),
        (E21, "( ( $ x : tt ) ) => { $ x }", "( , )", "0: , "),
        (E21, "( ( $ x : tt ) ) => { $ x }", "[ , ]", "NoArm"),
        (
            E21,
            NESTED,
            "a ( b [ c d ] e [ ] ) f ( )",
            "0: a /' b .' c ,' d ;' e .' ;' f /' ",
        ),
        (E21, TWO, "x y ; z w", "0: x z y w "),
        (E21, TWO, "x y ; z", "Lengths"),
        (E21, TWO, ";", "0: "),
        (E21, INNER, "p : x ; u , q : ; ,", "0: p x u q "),
        (E21, INNER, "p : x ; u , q : x ; u v ,", "Lengths"),
        (E21, "( $ ( $ a : ident ) * ) => { $ a }", "x", "Lengths"),
        (E21, "( $ a : ident ) => { $ ( $ a ) * }", "x", "Lengths"),
        (E21, "( $ a : ident ) => { $ ( b ) * }", "x", "Lengths"),
        (E21, "( a ) => { 1 }", "b", "NoArm"),
        (E21, "( a ) => { 1 } ; ( $ a : tt ) => { 2 }", "a", "0: 1' "),
        (E21, "( $ a : tt ) => { 1 } ; ( a ) => { 2 }", "a", "0: 1' "),
        (
            E21,
            "( a ) => { 1 } ; ( $ a : tt ) => { 2 }",
            "-",
            "Broken 1",
        ),
        (E21, "( $ a : literal ) => { 1 }", "-", "Broken 0"),
        (
            E21,
            "( $ a : ident ) => { 1 } ; ( - ) => { 2 }",
            "-",
            "1: 2' ",
        ),
        (E21, "( $ a : tt ) => { 1 } ; ( ~ ) => { 2 }", "~", "Depth"),
    ] {
        let call = pieces(alloc, edition, call)?;
        let found = called(alloc, edition, rules, &call)?;
        assert_eq!(rt; found.as_str(), want, "{rules}");
    }
    Ok(())
}

/// With what a fragment of each kind starts, and how it is put in.
#[test]
fn fragments_start(rt: HostRuntime) -> Result<(), Fail> {
    let alloc = rt.alloc();
    for (edition, kind, starts, others) in [
        (E21, "ident", "a fn r#fn", "_ 1 'a { ,"),
        (E21, "tt", "a _ 1 'a { , =>", ") ] }"),
        (E21, "literal", "1 \"a\" true false", "a 'a { , r#true"),
        (E21, "block", "{", "a ( 1"),
        (
            E21,
            "expr",
            "a r#fn 1 'a { ( [ ! * & && | || < << :: .. ... ..= # self async",
            "fn await dyn , ; = _ )",
        ),
        (E21, "stmt", "a , ; fn", ") ] }"),
        (
            E21,
            "ty",
            "a 'a _ ! * ? & && ( [ < << :: crate dyn fn impl for unsafe extern",
            "1 { , async true -",
        ),
        (E21, "path", "a fn _ ::", "1 < ( 'a"),
        (
            E18,
            "pat",
            "a fn 1 _ ( [ & && .. ... < << ::",
            "| ..= { 'a ,",
        ),
        (
            E21,
            "pat",
            "a fn 1 _ ( [ & && .. ... < << :: |",
            "..= { 'a ,",
        ),
        (
            E21,
            "pat_param",
            "a fn 1 _ ( [ & && .. ... < << ::",
            "| ..= { 'a ,",
        ),
        (E21, "item", "a , ; fn", ") ] }"),
    ] {
        let rules = format!(in alloc; "( $ x : {kind} ) => {{ 1 }}")?;
        for call in starts.split(' ') {
            let call = pieces(alloc, edition, call)?;
            let found = called(alloc, edition, rules.as_str(), &call)?;
            assert_eq!(rt; found.as_str(), "0: 1' ", "{kind}");
        }
        for call in others.split(' ') {
            let call = pieces(alloc, edition, call)?;
            let found = called(alloc, edition, rules.as_str(), &call)?;
            assert_eq!(rt; found.as_str(), "NoArm", "{kind}");
        }
    }
    Ok(())
}

/// Two repetitions of 2,000 pieces each, copied in step.
#[test]
fn long_repetitions(rt: HostRuntime) -> Result<(), Fail> {
    let alloc = rt.alloc();
    let mut long = String::new(alloc);
    let mut want = String::from_str(alloc, "0: ")?;
    for _ in 0..2_000 {
        long.push_str("a ")?;
        want.push_str("a b ")?;
    }
    long.push_str("; ")?;
    for _ in 0..2_000 {
        long.push_str("b ")?;
    }
    let call = pieces(alloc, E21, long.as_str())?;
    let found = called(alloc, E21, TWO, &call)?;
    assert!(rt; found.as_str() == want.as_str());
    Ok(())
}
