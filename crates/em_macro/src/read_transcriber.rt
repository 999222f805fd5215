//! Reads the text of a transcriber.

ghost use Rattle.std.specs.Prelude.{◌≡◌, suc, length};
ghost use Rattle.em_macro.specs.Steps as spec;
ghost use Rattle.em_macro.specs.Steps.{Gives};

use crate::error::RulesError;
use crate::reading::{Text, at_close, closing, read_operator};
use crate::rules::Transcriber;
use crate::signs::{Role, is_crate, is_paren, name_of, role_of};
use em_base::Token;
use sqlite_items::Items;
use std::alloc::Global;

/// `$crate`, or `$` and the name of a variable.
#[tactic(auto, unfolding(crate::specs::Steps::word))]
fn word(
    alloc: Global,
    dollar: &Token,
    word: &Token,
    input: &mut Text<'_>,
) -> Result<Transcriber, RulesError>
    ensures { Gives (spec.word dollar.now word.now input.old.rest.now) result input.new.rest.now }
{
    if is_crate(word) {
        return Ok(Transcriber::Crate {
            dollar: dollar.share(alloc)?,
            word: word.share(alloc)?,
        });
    }
    match name_of(word) {
        Some(name) => Ok(Transcriber::Variable {
            dollar: dollar.share(alloc)?,
            word: word.share(alloc)?,
            name: name.share()?,
        }),
        None => Err(RulesError::Bad),
    }
}

#[tactic(auto, unfolding(crate::specs::Steps::repeat_copy))]
fn repeat(
    alloc: Global,
    open: &Token,
    body: Items<Transcriber>,
    input: &mut Text<'_>,
) -> Result<Transcriber, RulesError>
    ensures { Gives (spec.repeat_copy open.now body input.old.rest.now) result input.new.rest.now }
{
    closing(alloc, open, input)?;
    let end = read_operator(alloc, input)?;
    Ok(Transcriber::Repeat {
        body,
        separator: end.separator,
    })
}

#[tactic(auto, unfolding(crate::specs::Steps::delimited_copy))]
fn delimited(
    alloc: Global,
    open: &Token,
    body: Items<Transcriber>,
    input: &mut Text<'_>,
) -> Result<Transcriber, RulesError>
    ensures { Gives (spec.delimited_copy open.now body input.old.rest.now) result input.new.rest.now }
{
    let close = closing(alloc, open, input)?;
    let open = open.share(alloc)?;
    Ok(Transcriber::Delimited { open, body, close })
}

#[cycle(read)]
#[tactic(auto, unfolding(crate::specs::Steps::dollar_copy))]
fn dollar(
    alloc: Global,
    depth: usize,
    dollar: &Token,
    input: &mut Text<'_>,
) -> Result<Transcriber, RulesError>
    ensures { Gives (spec.dollar_copy (spec.transcriber depth) dollar.now input.old.rest.now) result input.new.rest.now }
{
    match input.rest {
        [token, rest @ ..] => {
            input.rest = rest;
            if is_paren(token) {
                let body = read(alloc, depth, input)?;
                repeat(alloc, token, body, input)
            } else {
                word(alloc, dollar, token, input)
            }
        }
        [] => Err(RulesError::Bad),
    }
}

#[cycle(read)]
#[tactic(auto, unfolding(crate::specs::Steps::copy))]
fn copy(alloc: Global, depth: usize, input: &mut Text<'_>) -> Result<Transcriber, RulesError>
    ensures { Gives (spec.copy (spec.transcriber depth) input.old.rest.now) result input.new.rest.now }
{
    match input.rest {
        [token, rest @ ..] => {
            input.rest = rest;
            match role_of(token) {
                Role::Dollar => dollar(alloc, depth, token, input),
                Role::Open => {
                    let body = read(alloc, depth, input)?;
                    delimited(alloc, token, body, input)
                }
                Role::Close => Err(RulesError::Bad),
                Role::Other => Ok(Transcriber::Token(token.share(alloc)?)),
            }
        }
        [] => Err(RulesError::Bad),
    }
}

#[cycle(read)]
fn copies(
    alloc: Global,
    depth: usize,
    input: &mut Text<'_>,
) -> Result<Items<Transcriber>, RulesError>
    ensures { Gives (spec.copies (spec.transcriber depth) (suc (length input.old.rest.now)) input.old.rest.now) result input.new.rest.now }
{
    let mut found = Items::new(alloc);
    for _turn in 0..input.rest.len() + 1 {
        if at_close(input.rest) {
            return Ok(found);
        }
        let one = copy(alloc, depth, input)?;
        found.push(one)?;
    }
    Err(RulesError::Bad)
}

/// The transcriber that stands before a closing delimiter or the end, nested less than `depth` deep.
#[cycle(read)]
#[tactic(auto, unfolding(crate::specs::Steps::transcriber))]
pub fn read(
    alloc: Global,
    depth: usize,
    input: &mut Text<'_>,
) -> Result<Items<Transcriber>, RulesError>
    ensures { Gives (spec.transcriber depth input.old.rest.now) result input.new.rest.now }
{
    if depth == 0 {
        return Err(RulesError::Bad);
    }
    copies(alloc, depth - 1, input)
}
