//! Tests of single tokens.

ghost use Rattle.std.specs.Prelude.{◌≡◌};
ghost use Rattle.em_grammar.specs.Sets.{is_sign, int_sort, literal_sort, name_sort, weak_is, dyn_sort};
ghost use Rattle.em_grammar.specs.PathReader.{root_sort, segments_first, path_first};
ghost use Rattle.em_grammar.specs.TypeReader.{dyn_follow_sort};
ghost use Rattle.em_grammar.specs.Sorts.{sort_of};

use crate::likely::{is_same, may_be_weak};
use crate::sort::{Kind, Sort, Weak, Written, sort_of, text_of};
use em_base::Token;
use em_tree::spelling;

/// Whether the token is this word or sign. Takes no memory.
#[tactic(auto, using(crate::proofs::SameSign::spelled_sign, crate::proofs::SameSign::no_sign))]
pub fn is_sign(sign: Written, token: &Token) -> bool
    ensures { result ≡ is_sign sign token.now }
{
    match spelling(token) {
        Some(text) => is_same(text_of(sign), text),
        None => false,
    }
}

/// Whether the token is an identifier that no word of the grammar spells.
pub fn is_name(token: &Token) -> bool
    ensures { result ≡ name_sort (sort_of token.now) }
{
    match sort_of(token) {
        Sort::Weak(_, kind) => kind == Kind::Name,
        Sort::Plain(kind) => kind == Kind::Name,
        Sort::Written(_) => false,
    }
}

/// Whether the token is an integer literal.
pub fn is_int(token: &Token) -> bool
    ensures { result ≡ int_sort (sort_of token.now) }
{
    match sort_of(token) {
        Sort::Weak(_, kind) => kind == Kind::Int,
        Sort::Plain(kind) => kind == Kind::Int,
        Sort::Written(_) => false,
    }
}

/// Whether the token is a literal, `true` or `false`.
pub fn is_literal(token: &Token) -> bool
    ensures { result ≡ literal_sort (sort_of token.now) }
{
    match sort_of(token) {
        Sort::Weak(_, kind) => matches!(kind, Kind::Int | Kind::Literal),
        Sort::Plain(kind) => matches!(kind, Kind::Int | Kind::Literal),
        Sort::Written(word) => matches!(word, Written::True | Written::False),
    }
}

/// Whether the token is a segment of a path alone: a name, `crate`, `self`, `super` or `Self`.
pub fn is_root(token: &Token) -> bool
    ensures { result ≡ root_sort (sort_of token.now) }
{
    match sort_of(token) {
        Sort::Weak(_, kind) => kind == Kind::Name,
        Sort::Plain(kind) => kind == Kind::Name,
        Sort::Written(word) => matches!(
            word,
            Written::Crate | Written::SelfValue | Written::Super | Written::SelfType
        ),
    }
}

/// Whether the segments of a path can begin with the token.
pub fn is_segments_start(token: &Token) -> bool
    ensures { result ≡ segments_first.token (sort_of token.now) }
{
    match sort_of(token) {
        Sort::Weak(_, kind) => kind == Kind::Name,
        Sort::Plain(kind) => kind == Kind::Name,
        Sort::Written(word) => matches!(
            word,
            Written::Crate
                | Written::SelfValue
                | Written::Super
                | Written::SelfType
                | Written::Dollar
                | Written::PathSep
        ),
    }
}

/// Whether a path can begin with the token.
pub fn is_path_start(token: &Token) -> bool
    ensures { result ≡ path_first.token (sort_of token.now) }
{
    match sort_of(token) {
        Sort::Weak(_, kind) => kind == Kind::Name,
        Sort::Plain(kind) => kind == Kind::Name,
        Sort::Written(word) => matches!(
            word,
            Written::Crate
                | Written::SelfValue
                | Written::Super
                | Written::SelfType
                | Written::Dollar
                | Written::PathSep
                | Written::Lt
        ),
    }
}

/// Whether the token is spelled so, whether it is a name or not.
#[tactic(auto, using(crate::proofs::WeakWords::no_weak_token, crate::proofs::WeakWords::unspelled))]
pub fn is_weak(weak: Weak, token: &Token) -> bool
    ensures { result ≡ weak_is weak (sort_of token.now) }
{
    match spelling(token) {
        Some(text) => may_be_weak(text) && is_weak_sort(weak, token),
        None => false,
    }
}

fn is_weak_sort(weak: Weak, token: &Token) -> bool
    ensures { result ≡ weak_is weak (sort_of token.now) }
{
    match sort_of(token) {
        Sort::Weak(found, _) => matches!(
            (weak, found),
            (Weak::Box, Weak::Box) | (Weak::Dyn, Weak::Dyn) | (Weak::MacroRules, Weak::MacroRules)
        ),
        _ => false,
    }
}

/// Whether the token is the keyword `dyn`.
pub fn is_dyn(token: &Token) -> bool
    ensures { result ≡ dyn_sort (sort_of token.now) }
{
    match sort_of(token) {
        Sort::Weak(Weak::Dyn, kind) => kind != Kind::Name,
        _ => false,
    }
}

/// Whether the token begins a bound behind the name `dyn`.
pub fn is_bound_start(token: &Token) -> bool
    ensures { result ≡ dyn_follow_sort (sort_of token.now) }
{
    match sort_of(token) {
        Sort::Weak(_, kind) => kind == Kind::Name,
        Sort::Plain(kind) => kind == Kind::Name,
        Sort::Written(word) => matches!(
            word,
            Written::Crate
                | Written::SelfValue
                | Written::Super
                | Written::SelfType
                | Written::Dollar
        ),
    }
}
