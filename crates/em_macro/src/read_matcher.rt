//! Reads the text of a matcher.

ghost use Rattle.std.specs.Prelude.{◌≡◌, suc, length, codes};
ghost use Rattle.em_macro.specs.Form.{name_of};
ghost use Rattle.em_macro.specs.Steps as spec;
ghost use Rattle.em_macro.specs.Steps.{Gives};

use crate::error::RulesError;
use crate::reading::{Text, at_close, closing, read_operator, sign};
use crate::rules::Matcher;
use crate::signs::{Role, is_paren, name_of, role_of, specified};
use em_base::{Name, Token};
use sqlite_items::Items;
use std::alloc::Global;

fn kind_of(name: &Name, input: &mut Text<'_>) -> Result<Matcher, RulesError>
    ensures { Gives (spec.kind_of name.now input.old.rest.now) result input.new.rest.now }
{
    match input.rest {
        [token, rest @ ..] => match specified(token) {
            Some(specifier) => {
                input.rest = rest;
                let name = name.share()?;
                Ok(Matcher::Fragment { name, specifier })
            }
            None => Err(RulesError::Bad),
        },
        [] => Err(RulesError::Bad),
    }
}

/// What stands behind a `$` and this token.
#[tactic(auto, unfolding(crate::specs::Steps::variable))]
fn variable(word: &Token, input: &mut Text<'_>) -> Result<Matcher, RulesError>
    ensures { Gives (spec.variable input.old.rest.now (name_of word.now)) result input.new.rest.now }
{
    match name_of(word) {
        Some(name) => {
            sign(":", input)?;
            kind_of(name, input)
        }
        None => Err(RulesError::Bad),
    }
}

#[tactic(auto, unfolding(crate::specs::Steps::repeat))]
fn repeat(
    alloc: Global,
    open: &Token,
    body: Items<Matcher>,
    input: &mut Text<'_>,
) -> Result<Matcher, RulesError>
    ensures { Gives (spec.repeat open.now body input.old.rest.now) result input.new.rest.now }
{
    closing(alloc, open, input)?;
    let end = read_operator(alloc, input)?;
    Ok(Matcher::Repeat {
        body,
        separator: end.separator,
        plus: end.plus,
    })
}

#[tactic(auto, unfolding(crate::specs::Steps::delimited))]
fn delimited(
    alloc: Global,
    open: &Token,
    body: Items<Matcher>,
    input: &mut Text<'_>,
) -> Result<Matcher, RulesError>
    ensures { Gives (spec.delimited open.now body input.old.rest.now) result input.new.rest.now }
{
    let close = closing(alloc, open, input)?;
    let open = open.share(alloc)?;
    Ok(Matcher::Delimited { open, body, close })
}

#[cycle(read)]
#[tactic(auto, unfolding(crate::specs::Steps::dollar))]
fn dollar(alloc: Global, depth: usize, input: &mut Text<'_>) -> Result<Matcher, RulesError>
    ensures { Gives (spec.dollar (spec.matcher depth) input.old.rest.now) result input.new.rest.now }
{
    match input.rest {
        [token, rest @ ..] => {
            input.rest = rest;
            if is_paren(token) {
                let body = read(alloc, depth, input)?;
                repeat(alloc, token, body, input)
            } else {
                variable(token, input)
            }
        }
        [] => Err(RulesError::Bad),
    }
}

#[cycle(read)]
#[tactic(auto, unfolding(crate::specs::Steps::part))]
fn part(alloc: Global, depth: usize, input: &mut Text<'_>) -> Result<Matcher, RulesError>
    ensures { Gives (spec.part (spec.matcher depth) input.old.rest.now) result input.new.rest.now }
{
    match input.rest {
        [token, rest @ ..] => {
            input.rest = rest;
            match role_of(token) {
                Role::Dollar => dollar(alloc, depth, input),
                Role::Open => {
                    let body = read(alloc, depth, input)?;
                    delimited(alloc, token, body, input)
                }
                Role::Close => Err(RulesError::Bad),
                Role::Other => Ok(Matcher::Token(token.share(alloc)?)),
            }
        }
        [] => Err(RulesError::Bad),
    }
}

#[cycle(read)]
fn parts(alloc: Global, depth: usize, input: &mut Text<'_>) -> Result<Items<Matcher>, RulesError>
    ensures { Gives (spec.parts (spec.matcher depth) (suc (length input.old.rest.now)) input.old.rest.now) result input.new.rest.now }
{
    let mut found = Items::new(alloc);
    for _turn in 0..input.rest.len() + 1 {
        if at_close(input.rest) {
            return Ok(found);
        }
        let one = part(alloc, depth, input)?;
        found.push(one)?;
    }
    Err(RulesError::Bad)
}

/// The matcher that stands before a closing delimiter or the end, nested less than `depth` deep.
#[cycle(read)]
#[tactic(auto, unfolding(crate::specs::Steps::matcher))]
pub fn read(alloc: Global, depth: usize, input: &mut Text<'_>) -> Result<Items<Matcher>, RulesError>
    ensures { Gives (spec.matcher depth input.old.rest.now) result input.new.rest.now }
{
    if depth == 0 {
        return Err(RulesError::Bad);
    }
    parts(alloc, depth - 1, input)
}
