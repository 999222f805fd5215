//! Calls of macros and their rules (Reference, "Macro invocation" and "Macros by example").

ghost use Rattle.std.specs.Prelude.{◌≡◌};
ghost use Rattle.em_grammar.specs.ItemReader as spec;
ghost use Rattle.em_grammar.specs.Reader as read;
ghost use Rattle.em_grammar.specs.Sets.{next, tokens};
ghost use Rattle.em_grammar.specs.Sorts.{sort_of};
ghost use Rattle.em_grammar.specs.TextReader.{opens_sort};
ghost use Rattle.em_read.specs.Parse.{Reads};
ghost use Rattle.em_read_items.specs.Items as part;

use em_base::Token;
use em_grammar::{Sort, Weak, Written, is_name, is_weak, sort_of};
use em_read::{Cursor, Stop, Want, delimited, keep, sign, stands, token};
use em_tree::{Delimited, Item, ItemBody, MacroCall, Piece, Shared};
use std::alloc::Global;

/// Whether a `(` or a `[` is next.
fn is_round_or_square(input: &Cursor<'_>) -> bool
    ensures { result ≡ next spec.round_or_square input.now.rest.now }
{
    match input.rest {
        [Piece::Token(token), ..] => match sort_of(token) {
            Sort::Written(word) => matches!(word, Written::OpenParen | Written::OpenBracket),
            _ => false,
        },
        _ => false,
    }
}

/// Whether a delimiter opens next.
fn opens(input: &Cursor<'_>) -> bool
    ensures { result ≡ next (tokens opens_sort) input.now.rest.now }
{
    match input.rest {
        [Piece::Token(token), ..] => match sort_of(token) {
            Sort::Written(word) => matches!(
                word,
                Written::OpenParen | Written::OpenBracket | Written::OpenBrace
            ),
            _ => false,
        },
        _ => false,
    }
}

/// Text in parentheses or brackets and its `;`.
fn ended(alloc: Global, input: &mut Cursor<'_>) -> Result<(Delimited, Option<Shared<Token>>), Stop>
    ensures { Reads (part.ended input.old.rest.now) result input.new.rest.now }
{
    if !is_round_or_square(input) {
        return Err(Stop::Absent);
    }
    let text = delimited(alloc, input)?;
    let semi = sign(alloc, input, Written::Semi)?;
    Ok((text, Some(semi)))
}

/// Text, with a `;` behind parentheses and brackets.
fn finished(
    alloc: Global,
    input: &mut Cursor<'_>,
) -> Result<(Delimited, Option<Shared<Token>>), Stop>
    ensures { Reads (spec.finished input.old.rest.now) result input.new.rest.now }
{
    if stands(input, Written::OpenBrace) {
        let text = delimited(alloc, input)?;
        return Ok((text, None));
    }
    ended(alloc, input)
}

pub fn is_macro(token: &Token) -> bool
    ensures { result ≡ spec.macro_sort (sort_of token.now) }
{
    is_name(token) || is_weak(Weak::MacroRules, token)
}

fn macro_name(alloc: Global, input: &mut Cursor<'_>) -> Result<Shared<Token>, Stop>
    ensures { Reads (read.token (λ t. spec.macro_sort (sort_of t)) input.old.rest.now) result input.new.rest.now }
{
    match input.rest {
        [Piece::Token(token), rest @ ..] if is_macro(token) => {
            let found = keep(alloc, token)?;
            input.rest = rest;
            Ok(found)
        }
        _ => Err(Stop::Absent),
    }
}

pub fn macro_item(alloc: Global, input: &mut Cursor<'_>) -> Result<ItemBody<Item>, Stop>
    ensures { Reads (spec.macro_item input.old.rest.now) result input.new.rest.now }
{
    let word = macro_name(alloc, input)?;
    let bang = sign(alloc, input, Written::Not)?;
    if opens(input) {
        if !is_name(word.get()) {
            return Err(Stop::Absent);
        }
        let (text, semi) = finished(alloc, input)?;
        let call = MacroCall {
            name: word,
            bang,
            text,
        };
        return Ok(ItemBody::Macro { call, semi });
    }
    if !is_weak(Weak::MacroRules, word.get()) {
        return Err(Stop::Absent);
    }
    let name = token(alloc, input, Want::Name)?;
    let (text, semi) = finished(alloc, input)?;
    Ok(ItemBody::Rules {
        word,
        bang,
        name,
        text,
        semi,
    })
}
