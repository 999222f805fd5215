//! Which texts are rules.

use super::texts::tokens;
use crate::{RulesError, read_rules};
use em_base::{Edition, NoMemory};
use std::alloc::{AllocError, Global};
use std::test::Fail;

const E15: Edition = Edition::E2015;

const E18: Edition = Edition::E2018;

const E21: Edition = Edition::E2021;

/// Whether the text is that of rules.
fn reads(alloc: Global, edition: Edition, text: &str) -> Result<bool, NoMemory> {
    let body = tokens(alloc, edition, text)?;
    match read_rules(alloc, &body) {
        Ok(_) => Ok(true),
        Err(RulesError::Bad) => Ok(false),
        Err(RulesError::NoMemory) => Err(NoMemory),
    }
}

const EXPR_NOT: &str = "=/|/:/if/in/as/where/foo/{ }/[ ]/( )/+/$ y : block/$ y : ident";

const TYPE: &str = "/{ }/[ ]/,/=>/:/=/>/>>/;/|/as/where/$ y : block";

const TYPE_NOT: &str = "( )/+/&/if/in/foo/</r#as/$ y : expr/$ y : ident/$ y : ty/$ y : literal";

const PATTERN_NOT: &str = ";/:/{ }/[ ]/as/foo/$ y : block/$ y : ident";

/// Whether this may stand behind a fragment of the kind.
fn follows(alloc: Global, edition: Edition, kind: &str, next: &str) -> Result<bool, NoMemory> {
    let text = format!(in alloc; "( $ x : {kind} {next} ) => {{ }}")?;
    reads(alloc, edition, text.as_str())
}

/// Reference, "Macros by example": the form of rules.
#[test]
fn rules_have_a_form(rt: HostRuntime) -> Result<(), Fail> {
    let alloc = rt.alloc();
    for (text, want) in [
        ("( ) => { }", true),
        ("( ) => ( ) ;", true),
        ("[ ] => [ ] ; { } => { }", true),
        ("( $ x : expr ) => { $ x }", true),
        ("( $ fn : ident ) => { $ fn $ crate :: a }", true),
        ("( $ ( $ x : tt ) * ) => { $ ( $ x ) , * }", true),
        ("( $ ( $ x : expr ) , + ) => { $ ( $ x ; ) + }", true),
        ("( [ $ x : ty ; ] ) => { ( $ x ) }", true),
        ("", false),
        (";", false),
        ("( ) => { } ; ;", false),
        ("( ) => { } ( ) => { }", false),
        ("( ) { }", false),
        ("a => { }", false),
        ("( ) => a", false),
        ("( ] => { }", false),
        ("( ( ) => { }", false),
        ("( ) => { ) }", false),
        ("( ) => { } }", false),
        ("( $ ) => { }", false),
        ("( $ $ ) => { }", false),
        ("( $ x ) => { }", false),
        ("( $ x : ) => { }", false),
        ("( $ x : vis ) => { }", false),
        ("( $ x : lifetime ) => { }", false),
        ("( $ x : r#expr ) => { }", false),
        ("( $ 1 : expr ) => { }", false),
        ("( $ ( a ) ) => { }", false),
        ("( $ ( a ) ? ) => { }", false),
        ("( $ ( a ) ? * ) => { }", false),
        ("( $ ( a ) , , * ) => { }", false),
        ("( $ ( a ) $ * ) => { }", false),
        ("( $ ( a ) [ ] * ) => { }", false),
        ("( $ [ a ] * ) => { }", false),
        ("( ) => { $ }", false),
        ("( ) => { $ 1 }", false),
        ("( ) => { $ [ a ] * }", false),
        ("( ) => { $ ( a ) }", false),
        ("( ) => { $ x }", false),
        ("( $ x : tt ) => { $ y }", false),
        ("( $ x : tt ) => { } ; ( ) => { $ x }", false),
        ("( $ x : tt $ x : tt ) => { }", false),
        ("( $ x : tt $ ( $ x : tt ) * ) => { }", false),
    ] {
        assert_eq!(rt; reads(alloc, E21, text)?, want, "{text}");
    }
    Ok(())
}

/// Reference, "Follow-set ambiguity restrictions": what may stand behind a fragment, and what may not, with `/` between.
#[test]
fn fragments_have_follow_sets(rt: HostRuntime) -> Result<(), Fail> {
    let alloc = rt.alloc();
    for (edition, kind, may, may_not) in [
        (E21, "expr", "/=>/,/;", EXPR_NOT),
        (E21, "stmt", "/=>/,/;", EXPR_NOT),
        (E21, "ty", TYPE, TYPE_NOT),
        (E21, "path", TYPE, TYPE_NOT),
        (E15, "pat", "/=>/,/=/|/if/in", PATTERN_NOT),
        (E18, "pat", "/=>/,/=/|/if/in", PATTERN_NOT),
        (E21, "pat", "/=>/,/=/if/in", "|/;/:/{ }/as/foo/$ y : block"),
        (E15, "pat_param", "/=>/,/=/|/if/in", PATTERN_NOT),
        (E21, "pat_param", "/=>/,/=/|/if/in", PATTERN_NOT),
    ] {
        for next in may.split('/') {
            assert!(rt; follows(alloc, edition, kind, next)?, "{kind} {next}");
        }
        for next in may_not.split('/') {
            assert!(rt; !follows(alloc, edition, kind, next)?, "{kind} {next}");
        }
    }
    for kind in ["ident", "tt", "literal", "block", "item"] {
        for next in "/+/foo/( )/$ y : expr/|".split('/') {
            assert!(rt; follows(alloc, E18, kind, next)?, "{kind} {next}");
        }
    }
    Ok(())
}

/// What follows a fragment through repetitions and delimiters.
#[test]
fn repetitions_are_followed(rt: HostRuntime) -> Result<(), Fail> {
    let alloc = rt.alloc();
    for (edition, text, want) in [
        (E21, "( ( $ x : expr ) ) => { }", true),
        (E21, "( ( $ x : expr ) + ) => { }", true),
        (E21, "( $ ( $ x : expr ) * ) => { }", true),
        (E21, "( $ ( $ x : expr ) * ; ) => { }", true),
        (E21, "( $ ( $ x : expr ) * { } ) => { }", false),
        (E21, "( $ ( $ x : expr ) * $ y : ident ) => { }", false),
        (E21, "( $ ( $ x : expr ) , * ) => { }", true),
        (E21, "( $ ( $ x : expr ) : * ) => { }", false),
        (E21, "( $ ( $ x : ident ) * ) => { }", true),
        (E21, "( $ ( $ x : ty ) * ) => { }", true),
        (E21, "( $ ( $ x : ty ) + ) => { }", true),
        (E21, "( $ ( $ x : ty ) + > ) => { }", true),
        (E21, "( $ ( $ x : ty ) * . ) => { }", false),
        (E21, "( $ ( $ x : ident $ y : ty ) * ) => { }", true),
        (E21, "( $ ( $ x : ty $ y : ident ) * ) => { }", false),
        (E18, "( $ ( $ x : pat ) * ) => { }", true),
        (E21, "( $ ( $ ( $ x : expr ) * ; ) * ) => { }", true),
        (E21, "( $ ( $ ( $ x : ty ) + foo ) * ) => { }", false),
        (E21, "( $ ( $ ( $ x : expr ) + ) , * ) => { }", true),
        (E21, "( $ ( $ ( $ x : expr ) + ) : * ) => { }", false),
        (E21, "( $ ( $ x : expr $ ( , ) * ) * ) => { }", true),
        (E21, "( $ ( $ x : expr $ ( : ) * ) * ) => { }", false),
        (E21, "( $ x : expr $ ( , ) * ) => { }", true),
        (E21, "( $ x : expr $ ( a ) * ) => { }", false),
        (E21, "( $ x : expr $ ( , ) * $ y : ident ) => { }", false),
        (E21, "( $ x : expr $ ( , ) + $ y : ident ) => { }", true),
        (E18, "( $ ( $ x : pat ) | + ) => { }", true),
        (E21, "( $ ( $ x : pat ) | + ) => { }", false),
        (E21, "( $ ( $ x : pat_param ) | + ) => { }", true),
    ] {
        assert_eq!(rt; reads(alloc, edition, text)?, want, "{text}");
    }
    Ok(())
}

/// A repetition is told from what follows it by one token.
#[test]
fn one_token_decides(rt: HostRuntime) -> Result<(), Fail> {
    let alloc = rt.alloc();
    for (edition, matcher, want) in [
        (E21, "$ ( $ x : expr ) , * ;", true),
        (E21, "$ ( $ x : expr ) , * ,", false),
        (E21, "$ ( $ x : ident ) * y", false),
        (E21, "$ ( $ x : ident ) * ;", true),
        (E21, "$ ( $ x : ident ) * _", true),
        (E21, "$ ( $ x : tt ) * ;", false),
        (E21, "( $ ( $ x : tt ) * )", true),
        (E21, "$ ( $ x : tt ) *", true),
        (E21, "$ ( $ x : literal ) * foo", true),
        (E21, "$ ( $ x : literal ) * true", false),
        (E21, "$ ( $ x : literal ) * 1", false),
        (E21, "$ ( $ x : literal ) * r#true", true),
        (E21, "$ ( $ x : literal ) * $ y : block", true),
        (E21, "$ ( $ x : literal ) * $ y : ty", true),
        (E21, "$ ( $ x : literal ) * $ y : expr", false),
        (E21, "$ ( $ x : literal ) * $ y : ident", false),
        (E21, "$ ( $ x : ident ) * $ y : block", true),
        (E21, "$ ( $ x : ident ) * $ y : ty", false),
        (E21, "$ ( $ x : block ) * $ y : ty", true),
        (E21, "$ ( $ x : block ) * $ y : path", true),
        (E21, "$ ( $ x : block ) * $ y : pat", true),
        (E21, "$ ( $ x : block ) * $ y : expr", false),
        (E21, "$ ( $ x : block ) * $ y : stmt", false),
        (E21, "$ ( $ x : block ) * { }", false),
        (E21, "$ ( $ x : ty , ) * $ y : literal", true),
        (E21, "$ ( $ x : ty , ) * $ y : path", false),
        (E21, "$ ( ) *", false),
        (E21, "$ ( ) +", false),
        (E21, "$ ( ) , *", false),
        (E21, "$ ( ) , +", true),
        (E21, "$ ( $ ( a ) * ) *", false),
        (E21, "$ ( $ ( a ) * ) , +", true),
        (E21, "$ ( $ ( a ) + ) *", false),
        (E21, "$ ( $ ( a ) + ; ) *", true),
        (E21, "$ ( a ) * a", false),
        (E21, "$ ( a b ) * a", false),
        (E21, "$ ( a ) * b", true),
        (E21, "$ ( a ) , * a", false),
        (E21, "$ ( a ) , + a", true),
        (E21, "$ ( a ) , + , a", false),
        (E21, "$ ( a ) * $ ( b ) * a", false),
        (E21, "$ ( a ) * $ ( b ) + a", true),
        (E21, "$ ( $ ( a ) * b ) * c", true),
        (E21, "$ ( $ ( a ) * b ) * a", false),
        (E21, "$ ( $ x : expr ; ) * extern", true),
        (E21, "$ ( $ x : expr ; ) * async", false),
        (E21, "$ ( $ x : expr ; ) * dyn", false),
        (E21, "$ ( $ x : expr ; ) * r#fn", false),
        (E21, "$ ( $ x : expr ; ) * fn", true),
        (E18, "$ ( $ x : pat , ) * |", true),
        (E21, "$ ( $ x : pat , ) * |", false),
        (E21, "$ ( $ x : pat_param , ) * |", true),
    ] {
        let text = format!(in alloc; "( {matcher} ) => {{ }}")?;
        assert_eq!(rt; reads(alloc, edition, text.as_str())?, want, "{matcher}");
    }
    Ok(())
}

/// The number of lists that stand in one another.
fn nested(alloc: Global, depth: usize) -> Result<String, AllocError> {
    let mut text = String::from_str(alloc, "( ")?;
    for _ in 0..depth {
        text.push_str("[ ")?;
    }
    for _ in 0..depth {
        text.push_str("] ")?;
    }
    text.push_str(") => { ")?;
    for _ in 0..depth {
        text.push_str("$ ( ")?;
    }
    for _ in 0..depth {
        text.push_str(") * ")?;
    }
    text.push_str("}")?;
    Ok(text)
}

/// Delimiters and repetitions nest at most 200 deep, the arm's own not counted.
#[test]
fn nesting_ends(rt: HostRuntime) -> Result<(), Fail> {
    let alloc = rt.alloc();
    for (depth, want) in [(199, true), (200, true), (201, false)] {
        let text = nested(alloc, depth)?;
        assert_eq!(rt; reads(alloc, E21, text.as_str())?, want, "{depth}");
    }
    Ok(())
}
