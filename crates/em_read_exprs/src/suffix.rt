//! What goes on with an expression (Reference, "Operator expressions", "Call expressions", "Method-call expressions",
//! "Field access expressions" and "Array and array index expressions").

ghost use Rattle.std.specs.Prelude.{false, IfOk, IfErr, ◌≡◌};
ghost use Rattle.em_grammar.specs.Reader as read;
ghost use Rattle.em_grammar.specs.ExprSets as from;
ghost use Rattle.em_grammar.specs.ExprReader as spec;
ghost use Rattle.em_grammar.specs.Sets.{next, tokens, name_sort};
ghost use Rattle.em_read.specs.Parse.{Reads};
ghost use Rattle.em_read.specs.Gives.{Gives};
ghost use Rattle.em_read_exprs.specs.Exprs.{arguments_as, arguments_if_as, suffix_as};
ghost use Rattle.em_read.specs.declared.stop.Stop.TheVariants as Refusal;

use crate::inside::{Inside, Start};
use crate::operator::{Operator, read_operator, right_binds, stands_operator};
use em_base::Token;
use em_grammar::{Written, is_name, sort_of};
use em_read::{Cursor, Stop, Want, list_of, sign, stands, token};
use em_tree::{Expr, Listed, Literal, Piece, Shared};
use sqlite_items::{Boxed, Items};
use std::alloc::Global;

/// The arguments of a call, with their parentheses.
#[derive(Drop)]
pub struct Arguments {
    pub open: Shared<Token>,
    pub list: Items<Listed<Expr>>,
    pub close: Shared<Token>,
}

/// What goes on with an expression.
#[derive(Drop)]
pub enum Suffix {
    Right {
        operator: Shared<Token>,
        right: Expr,
    },
    Becomes {
        operator: Shared<Token>,
        right: Expr,
    },
    Method {
        dot: Shared<Token>,
        name: Shared<Token>,
        arguments: Arguments,
    },
    Call(Arguments),
    Field {
        dot: Shared<Token>,
        name: Shared<Token>,
    },
    Place {
        dot: Shared<Token>,
        number: Literal,
    },
    Index {
        open: Shared<Token>,
        index: Expr,
        close: Shared<Token>,
    },
}

fn anywhere<I: Inside>(inside: &I, input: &mut Cursor<'_>) -> Result<Expr, Stop>
    requires { I.ready inside.now }
    ensures { Reads ((I.readers inside.now).inner from.Anywhere 0 false input.old.rest.now) result input.new.rest.now }
{
    inside.expr(input, Start::Anywhere, 0, false)
}

/// Expressions with commas.
pub fn list<I: Inside>(
    alloc: Global,
    inside: &I,
    input: &mut Cursor<'_>,
) -> Result<Items<Listed<Expr>>, Stop>
    requires { I.ready inside.now }
    ensures { Reads (read.list_of ((I.readers inside.now).inner from.Anywhere 0 false) input.old.rest.now) result input.new.rest.now }
{
    list_of(alloc, input, |input| anywhere(inside, input))
}

fn read_arguments<I: Inside>(
    alloc: Global,
    inside: &I,
    input: &mut Cursor<'_>,
) -> Result<Arguments, Stop>
    requires { I.ready inside.now }
    ensures { Gives arguments_as (spec.arguments (I.readers inside.now) input.old.rest.now) result input.new.rest.now }
{
    let start = sign(alloc, input, Written::OpenParen)?;
    let list = list(alloc, inside, input)?;
    let close = sign(alloc, input, Written::CloseParen)?;
    Ok(Arguments {
        open: start,
        list,
        close,
    })
}

/// A binary operator and its right side.
fn right<I: Inside>(
    alloc: Global,
    inside: &I,
    input: &mut Cursor<'_>,
    no_struct: bool,
) -> Result<Suffix, Stop>
    requires { I.ready inside.now }
    ensures { Gives suffix_as (spec.right (I.readers inside.now) no_struct input.old.rest.now) result input.new.rest.now }
{
    let operator = read_operator(alloc, input, Operator::Binary)?;
    let least = right_binds(sort_of(operator.get()));
    let right = inside.expr(input, Start::Anywhere, least, no_struct)?;
    Ok(Suffix::Right { operator, right })
}

/// An assignment without its left side.
fn becomes<I: Inside>(
    alloc: Global,
    inside: &I,
    input: &mut Cursor<'_>,
    no_struct: bool,
) -> Result<Suffix, Stop>
    requires { I.ready inside.now }
    ensures { Gives suffix_as (spec.becomes (I.readers inside.now) no_struct input.old.rest.now) result input.new.rest.now }
{
    let operator = read_operator(alloc, input, Operator::Assign)?;
    let right = inside.expr(input, Start::Anywhere, 3, no_struct)?;
    Ok(Suffix::Becomes { operator, right })
}

fn stands_name(input: &Cursor<'_>) -> bool
    ensures { result ≡ next (tokens name_sort) input.now.rest.now }
{
    match input.rest {
        [Piece::Token(token), ..] => is_name(token),
        _ => false,
    }
}

fn arguments_if<I: Inside>(
    alloc: Global,
    inside: &I,
    input: &mut Cursor<'_>,
) -> Result<Option<Arguments>, Stop>
    requires { I.ready inside.now }
    ensures { Gives arguments_if_as (read.opt (spec.arguments (I.readers inside.now)) input.old.rest.now) result input.new.rest.now }
{
    let start = input.rest;
    match read_arguments(alloc, inside, input) {
        Ok(found) => Ok(Some(found)),
        Err(Stop::Absent) => {
            input.rest = start;
            Ok(None)
        }
        Err(stop) => Err(stop),
    }
}

/// A field by its name or its number, or a method and its arguments.
fn dotted<I: Inside>(alloc: Global, inside: &I, input: &mut Cursor<'_>) -> Result<Suffix, Stop>
    requires { I.ready inside.now }
    ensures { Gives suffix_as (spec.dotted (I.readers inside.now) input.old.rest.now) result input.new.rest.now }
{
    let dot = sign(alloc, input, Written::Dot)?;
    if !stands_name(input) {
        let number = inside.int(input)?;
        return Ok(Suffix::Place { dot, number });
    }
    let name = token(alloc, input, Want::Name)?;
    match arguments_if(alloc, inside, input)? {
        Some(arguments) => Ok(Suffix::Method {
            dot,
            name,
            arguments,
        }),
        None => Ok(Suffix::Field { dot, name }),
    }
}

fn called<I: Inside>(alloc: Global, inside: &I, input: &mut Cursor<'_>) -> Result<Suffix, Stop>
    requires { I.ready inside.now }
    ensures { Gives suffix_as (spec.called (I.readers inside.now) input.old.rest.now) result input.new.rest.now }
{
    let arguments = read_arguments(alloc, inside, input)?;
    Ok(Suffix::Call(arguments))
}

fn indexed<I: Inside>(alloc: Global, inside: &I, input: &mut Cursor<'_>) -> Result<Suffix, Stop>
    requires { I.ready inside.now }
    ensures { Gives suffix_as (spec.indexed (I.readers inside.now) input.old.rest.now) result input.new.rest.now }
{
    let start = sign(alloc, input, Written::OpenBracket)?;
    let index = anywhere(inside, input)?;
    let close = sign(alloc, input, Written::CloseBracket)?;
    Ok(Suffix::Index {
        open: start,
        index,
        close,
    })
}

/// What goes on with an expression.
#[tactic(auto, unfolding(em_grammar::specs::ExprReader::suffix))]
pub fn read_suffix<I: Inside>(
    alloc: Global,
    inside: &I,
    input: &mut Cursor<'_>,
    no_struct: bool,
) -> Result<Suffix, Stop>
    requires { I.ready inside.now }
    ensures { Gives suffix_as (spec.suffix (I.readers inside.now) no_struct input.old.rest.now) result input.new.rest.now }
{
    if stands_operator(input, Operator::Binary) {
        return right(alloc, inside, input, no_struct);
    }
    if stands_operator(input, Operator::Assign) {
        return becomes(alloc, inside, input, no_struct);
    }
    if stands(input, Written::Dot) {
        return dotted(alloc, inside, input);
    }
    if stands(input, Written::OpenParen) {
        return called(alloc, inside, input);
    }
    indexed(alloc, inside, input)
}

/// The expression, with what goes on with it.
pub fn apply(alloc: Global, left: Expr, suffix: Suffix) -> Result<Expr, Stop>
    ensures made { IfOk result (λ x. x ≡ spec.apply left (suffix_as suffix)) }
    ensures fails { IfErr result (λ e. e ≡ Refusal.NoMemory) }
{
    let left = Boxed::new(alloc, left)?;
    Ok(match suffix {
        Suffix::Right { operator, right } => Expr::Binary {
            left,
            operator,
            right: Boxed::new(alloc, right)?,
        },
        Suffix::Becomes { operator, right } => Expr::Assign {
            left,
            operator,
            right: Boxed::new(alloc, right)?,
        },
        Suffix::Method {
            dot,
            name,
            arguments,
        } => Expr::MethodCall {
            receiver: left,
            dot,
            name,
            open: arguments.open,
            arguments: arguments.list,
            close: arguments.close,
        },
        Suffix::Call(arguments) => Expr::Call {
            callee: left,
            open: arguments.open,
            arguments: arguments.list,
            close: arguments.close,
        },
        Suffix::Field { dot, name } => Expr::Field {
            base: left,
            dot,
            name,
        },
        Suffix::Place { dot, number } => Expr::Place {
            base: left,
            dot,
            number,
        },
        Suffix::Index { open, index, close } => Expr::Index {
            base: left,
            open,
            index: Boxed::new(alloc, index)?,
            close,
        },
    })
}
