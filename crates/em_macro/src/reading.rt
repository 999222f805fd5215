//! Reads the tokens that the parts of rules have in common.

ghost use Rattle.std.specs.Prelude.{◌≡◌, IfOk};
ghost use Rattle.em_macro.specs.Form.{role_at};
ghost use Rattle.em_macro.specs.Steps as spec;
ghost use Rattle.em_macro.specs.Steps.{Gives};

use crate::error::RulesError;
use crate::signs::{Role, is_sign, pairs, plus_of, role_of};
use em_base::Token;
use std::alloc::Global;

/// The tokens that are left.
#[derive(Clone, Copy)]
pub struct Text<'a> {
    pub rest: &'a [Token],
}

/// What stands behind the `)` of a repetition: a separator, or none, and `+` or `*`.
#[derive(Drop)]
pub struct Operator {
    pub separator: Option<Token>,
    pub plus: bool,
}

/// Passes over this punctuation.
#[tactic(auto, unfolding(crate::specs::Steps::sign))]
pub fn sign(text: &str, input: &mut Text<'_>) -> Result<(), RulesError>
    ensures { Gives (spec.sign text.now input.old.rest.now) result input.new.rest.now }
{
    match input.rest {
        [token, rest @ ..] if is_sign(token, text) => {
            input.rest = rest;
            Ok(())
        }
        _ => Err(RulesError::Bad),
    }
}

#[tactic(auto, unfolding(crate::specs::Steps::opening))]
pub fn opening(alloc: Global, input: &mut Text<'_>) -> Result<Token, RulesError>
    ensures { Gives (spec.opening input.old.rest.now) result input.new.rest.now }
{
    match input.rest {
        [token, rest @ ..] => match role_of(token) {
            Role::Open => {
                input.rest = rest;
                Ok(token.share(alloc)?)
            }
            _ => Err(RulesError::Bad),
        },
        [] => Err(RulesError::Bad),
    }
}

/// The closing delimiter of this one.
#[tactic(auto, unfolding(crate::specs::Steps::closing))]
pub fn closing(alloc: Global, open: &Token, input: &mut Text<'_>) -> Result<Token, RulesError>
    ensures { Gives (spec.closing open.now input.old.rest.now) result input.new.rest.now }
{
    match input.rest {
        [token, rest @ ..] => match role_of(token) {
            Role::Close if pairs(open, token) => {
                input.rest = rest;
                Ok(token.share(alloc)?)
            }
            _ => Err(RulesError::Bad),
        },
        [] => Err(RulesError::Bad),
    }
}

/// Whether the end or a closing delimiter is next.
pub fn at_close(tokens: &[Token]) -> bool
    ensures { result ≡ spec.at_close tokens.now }
{
    match tokens {
        [token, ..] => match role_of(token) {
            Role::Close => true,
            _ => false,
        },
        [] => true,
    }
}

fn after_separator(
    alloc: Global,
    separator: &Token,
    input: &mut Text<'_>,
) -> Result<Operator, RulesError>
    ensures { Gives (spec.after_separator separator.now input.old.rest.now) result input.new.rest.now }
{
    match input.rest {
        [token, rest @ ..] => match plus_of(token) {
            Some(plus) => {
                input.rest = rest;
                Ok(Operator {
                    separator: Some(separator.share(alloc)?),
                    plus,
                })
            }
            None => Err(RulesError::Bad),
        },
        [] => Err(RulesError::Bad),
    }
}

fn separated(alloc: Global, separator: &Token, input: &mut Text<'_>) -> Result<Operator, RulesError>
    ensures { Gives (spec.separated separator.now input.old.rest.now (role_at separator.now)) result input.new.rest.now }
{
    match role_of(separator) {
        Role::Other if !is_sign(separator, "?") => after_separator(alloc, separator, input),
        _ => Err(RulesError::Bad),
    }
}

/// The operator of a repetition, with its separator.
#[tactic(auto, unfolding(crate::specs::Steps::operator))]
pub fn read_operator(alloc: Global, input: &mut Text<'_>) -> Result<Operator, RulesError>
    ensures { Gives (spec.operator input.old.rest.now) result input.new.rest.now }
{
    match input.rest {
        [token, rest @ ..] => {
            input.rest = rest;
            match plus_of(token) {
                Some(plus) => Ok(Operator {
                    separator: None,
                    plus,
                }),
                None => separated(alloc, token, input),
            }
        }
        [] => Err(RulesError::Bad),
    }
}
