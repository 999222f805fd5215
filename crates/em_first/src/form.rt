ghost use Rattle.std.specs.Prelude.{◌≡◌, ◌↔◌, [], IsTrue, IfOk, map};
ghost use Rattle.std.specs.Option.{option_map};
ghost use Rattle.em_base.specs.declared.edition.Edition.TheVariants.{E2015};
ghost use Rattle.em_first.specs.Form.{FirstForm};
ghost use Rattle.em_first.specs.Reading.{behind, name_first, behind_int, let_first, print_first, is_end, Reads};

use crate::words::{int_in, name_in, said};
use em_base::{Name, NoMemory, Token, Tokens};
use std::alloc::Global;
use std::collections::BTreeSet;

/// The tokens behind words, where these come first.
fn behind<'a>(tokens: &'a [Token], words: &[&str]) -> Option<&'a [Token]>
    ensures { option_map (λ r. r.now) result ≡ behind (map (λ w. w.now) words.now) tokens.now }
{
    let mut rest = tokens;
    for word in words {
        let (first, others) = rest.split_first()?;
        if said(first) != *word {
            return None;
        }
        rest = others;
    }
    Some(rest)
}

/// The name that comes first, and the tokens behind it.
fn name_first(tokens: &[Token]) -> Option<(&Name, &[Token])>
    ensures { option_map (λ p. (p.0.now, p.1.now)) result ≡ name_first tokens.now }
{
    let (first, rest) = tokens.split_first()?;
    let name = name_in(&first.kind)?;
    Some((name, rest))
}

/// The tokens behind an integer literal.
fn behind_int(tokens: &[Token]) -> Option<&[Token]>
    ensures { option_map (λ r. r.now) result ≡ behind_int tokens.now }
{
    let (first, rest) = tokens.split_first()?;
    int_in(&first.kind)?;
    Some(rest)
}

/// The name that a `let` binds, and the tokens behind it.
fn let_first(tokens: &[Token]) -> Option<(&Name, &[Token])>
    ensures { option_map (λ p. (p.0.now, p.1.now)) result ≡ let_first tokens.now }
{
    let rest = behind(tokens, &["let"])?;
    let (name, rest) = name_first(rest)?;
    let rest = behind(rest, &["="])?;
    let rest = behind_int(rest)?;
    let rest = behind(rest, &[";"])?;
    Some((name, rest))
}

/// The name whose value a `println!` prints, and the tokens behind it.
fn print_first(tokens: &[Token]) -> Option<(&Name, &[Token])>
    ensures { option_map (λ p. (p.0.now, p.1.now)) result ≡ print_first tokens.now }
{
    let rest = behind(tokens, &["println", "!", "(", "\"{}\"", ","])?;
    let (name, rest) = name_first(rest)?;
    let rest = behind(rest, &[")", ";"])?;
    Some((name, rest))
}

/// Whether only a `}` is left.
fn is_end(tokens: &[Token]) -> bool
    ensures { result ≡ is_end tokens.now }
{
    match behind(tokens, &["}"]) {
        Some(rest) => rest.is_empty(),
        None => false,
    }
}

/// Whether the tokens behind `fn main() {` are statements and a `}`.
fn is_body(alloc: Global, tokens: &[Token]) -> Result<bool, NoMemory>
    ensures { IfOk result (λ answer. IsTrue answer ↔ Reads [] tokens.now) }
{
    let mut names: BTreeSet<&str> = BTreeSet::new(alloc);
    let mut rest = tokens;
    'statements: loop {
        if let Some((name, after)) = let_first(rest) {
            names.insert(name.as_str())?;
            rest = after;
        } else if let Some((name, after)) = print_first(rest) {
            if !names.contains(name.as_str()) {
                return Ok(false);
            }
            rest = after;
        } else {
            return Ok(is_end(rest));
        }
    }
}

/// Whether the tokens are a program of the first form of the edition 2015: `fn main() { .. }` with statements
/// `let name = int;`, whose int an `i32` and the type of its suffix hold, and `println!("{}", name);`, whose name an
/// earlier `let` binds. A raw name and a plain one are the same name, and so are names of equal normal forms. One pass over the tokens; the bound names stand in an ordered set, which
/// borrows them.
///
/// Answers `Err` for want of memory alone.
pub fn is_first_form(alloc: Global, tokens: &Tokens) -> Result<bool, NoMemory>
    ensures { IfOk result (λ answer. IsTrue answer ↔ FirstForm E2015 tokens.now.list) }
{
    match behind(tokens.list.as_slice(), &["fn", "main", "(", ")", "{"]) {
        Some(body) => is_body(alloc, body),
        None => Ok(false),
    }
}
