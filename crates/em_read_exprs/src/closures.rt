//! Closures, `return` and parentheses (Reference, "Closure expressions", "`return` expressions" and "Grouped expressions").

ghost use Rattle.std.specs.Prelude.{◌≡◌, false};
ghost use Rattle.em_grammar.specs.declared.sort.Written.TheVariants as word;
ghost use Rattle.em_grammar.specs.Sets.{is_sign};
ghost use Rattle.em_grammar.specs.Reader as read;
ghost use Rattle.em_grammar.specs.Rows.{rows_of};
ghost use Rattle.em_grammar.specs.ExprSets.{Anywhere};
ghost use Rattle.em_grammar.specs.PrefixReader as spec;
ghost use Rattle.em_read.specs.Parse.{Reads};
ghost use Rattle.em_read_exprs.specs.Exprs.{given};

use crate::inside::{Inside, Start};
use em_base::Token;
use em_grammar::Written;
use em_read::{Cursor, Stop, rows, sign, sign_if, stands};
use em_tree::{Annotation, Block, Body, ClosureHead, ClosureParam, Expr, Shared, TypeTree};
use sqlite_items::{Boxed, Items};
use std::alloc::Global;

fn boxed_expr<I: Inside>(
    alloc: Global,
    inside: &I,
    input: &mut Cursor<'_>,
    no_struct: bool,
) -> Result<Boxed<Expr>, Stop>
    requires { I.ready inside.now }
    ensures { Reads ((I.readers inside.now).inner Anywhere 0 no_struct input.old.rest.now) result input.new.rest.now }
{
    let found = inside.expr(input, Start::Anywhere, 0, no_struct)?;
    Ok(Boxed::new(alloc, found)?)
}

/// A block, boxed.
fn boxed_block<I: Inside>(
    alloc: Global,
    inside: &I,
    input: &mut Cursor<'_>,
) -> Result<Boxed<Block<Body>>, Stop>
    requires { I.ready inside.now }
    ensures { Reads ((I.readers inside.now).block input.old.rest.now) result input.new.rest.now }
{
    let found = inside.block(input)?;
    Ok(Boxed::new(alloc, found)?)
}

/// An expression in parentheses.
pub fn paren<I: Inside>(alloc: Global, inside: &I, input: &mut Cursor<'_>) -> Result<Expr, Stop>
    requires { I.ready inside.now }
    ensures { Reads (spec.paren (I.readers inside.now) input.old.rest.now) result input.new.rest.now }
{
    let open = sign(alloc, input, Written::OpenParen)?;
    let inner = boxed_expr(alloc, inside, input, false)?;
    let close = sign(alloc, input, Written::CloseParen)?;
    Ok(Expr::Paren { open, inner, close })
}

// ---- `return`

fn value_if<I: Inside>(
    alloc: Global,
    inside: &I,
    input: &mut Cursor<'_>,
    no_struct: bool,
) -> Result<Option<Boxed<Expr>>, Stop>
    requires { I.ready inside.now }
    ensures { Reads (read.opt ((I.readers inside.now).inner Anywhere 0 no_struct) input.old.rest.now) result input.new.rest.now }
{
    let start = input.rest;
    match boxed_expr(alloc, inside, input, no_struct) {
        Ok(found) => Ok(Some(found)),
        Err(Stop::Absent) => {
            input.rest = start;
            Ok(None)
        }
        Err(stop) => Err(stop),
    }
}

/// `return` and its value, if there is one.
pub fn return_expr<I: Inside>(
    alloc: Global,
    inside: &I,
    input: &mut Cursor<'_>,
    no_struct: bool,
) -> Result<Expr, Stop>
    requires { I.ready inside.now }
    ensures { Reads (spec.return (I.readers inside.now) no_struct input.old.rest.now) result input.new.rest.now }
{
    let word = sign(alloc, input, Written::Return)?;
    let value = value_if(alloc, inside, input, no_struct)?;
    Ok(Expr::Return { word, value })
}

// ---- closures

/// `:` and a type.
fn param_type<I: Inside>(
    alloc: Global,
    inside: &I,
    input: &mut Cursor<'_>,
) -> Result<(Shared<Token>, Boxed<TypeTree>), Stop>
    requires { I.ready inside.now }
    ensures { Reads (read.seq (read.token (is_sign word.Colon)) (I.readers inside.now).ty input.old.rest.now) result input.new.rest.now }
{
    let colon = sign(alloc, input, Written::Colon)?;
    let ty = inside.ty(input)?;
    let ty = Boxed::new(alloc, ty)?;
    Ok((colon, ty))
}

fn param_type_if<I: Inside>(
    alloc: Global,
    inside: &I,
    input: &mut Cursor<'_>,
) -> Result<Option<(Shared<Token>, Boxed<TypeTree>)>, Stop>
    requires { I.ready inside.now }
    ensures { Reads (read.opt (read.seq (read.token (is_sign word.Colon)) (I.readers inside.now).ty) input.old.rest.now) result input.new.rest.now }
{
    let start = input.rest;
    match param_type(alloc, inside, input) {
        Ok(found) => Ok(Some(found)),
        Err(Stop::Absent) => {
            input.rest = start;
            Ok(None)
        }
        Err(stop) => Err(stop),
    }
}

fn annotation_of(found: Option<(Shared<Token>, Boxed<TypeTree>)>) -> Annotation
    ensures { result ≡ spec.annotation_of found }
{
    match found {
        None => Annotation::Nothing,
        Some((colon, ty)) => Annotation::Type { colon, ty },
    }
}

/// A parameter with the comma behind it.
fn param<I: Inside>(alloc: Global, inside: &I, input: &mut Cursor<'_>) -> Result<ClosureParam, Stop>
    requires { I.ready inside.now }
    ensures { Reads (spec.param (I.readers inside.now) input.old.rest.now) result input.new.rest.now }
{
    let pat = inside.pat(input)?;
    let found = param_type_if(alloc, inside, input)?;
    let comma = sign_if(alloc, input, Written::Comma)?;
    Ok(ClosureParam {
        pat,
        annotation: annotation_of(found),
        comma,
    })
}

fn has_comma(param: &ClosureParam) -> bool
    ensures { result ≡ spec.has_comma param.now }
{
    param.comma.is_some()
}

fn params<I: Inside>(
    alloc: Global,
    inside: &I,
    input: &mut Cursor<'_>,
) -> Result<Items<ClosureParam>, Stop>
    requires { I.ready inside.now }
    ensures { Reads (rows_of spec.has_comma (spec.param (I.readers inside.now)) input.old.rest.now) result input.new.rest.now }
{
    rows(
        alloc,
        input,
        |found| has_comma(found),
        |input| param(alloc, inside, input),
    )
}

fn bars<I: Inside>(alloc: Global, inside: &I, input: &mut Cursor<'_>) -> Result<ClosureHead, Stop>
    requires { I.ready inside.now }
    ensures { Reads (read.mapped spec.bars_of (read.seq (read.token (is_sign word.Or)) (read.seq (rows_of spec.has_comma (spec.param (I.readers inside.now))) (read.token (is_sign word.Or)))) input.old.rest.now) result input.new.rest.now }
{
    let open = sign(alloc, input, Written::Or)?;
    let params = params(alloc, inside, input)?;
    let close = sign(alloc, input, Written::Or)?;
    Ok(ClosureHead::Bars {
        open,
        params,
        close,
    })
}

/// The parameters of a closure.
fn closure_head<I: Inside>(
    alloc: Global,
    inside: &I,
    input: &mut Cursor<'_>,
) -> Result<ClosureHead, Stop>
    requires { I.ready inside.now }
    ensures { Reads (spec.closure_head (I.readers inside.now) input.old.rest.now) result input.new.rest.now }
{
    if stands(input, Written::OrOr) {
        let bars = sign(alloc, input, Written::OrOr)?;
        return Ok(ClosureHead::Empty(bars));
    }
    bars(alloc, inside, input)
}

/// The result type of a closure and its block.
fn closure_to<I: Inside>(
    alloc: Global,
    inside: &I,
    input: &mut Cursor<'_>,
    word_move: Option<Shared<Token>>,
    head: ClosureHead,
) -> Result<Expr, Stop>
    requires { I.ready inside.now }
    ensures { Reads (read.mapped spec.closure_of (read.seq (given word_move) (read.seq (given head) (read.mapped spec.To (read.seq (read.token (is_sign word.RArrow)) (read.seq (I.readers inside.now).ty (I.readers inside.now).block))))) input.old.rest.now) result input.new.rest.now }
{
    let arrow = sign(alloc, input, Written::RArrow)?;
    let output = inside.ty(input)?;
    let output = Boxed::new(alloc, output)?;
    let body = boxed_block(alloc, inside, input)?;
    Ok(Expr::ClosureTo {
        word_move,
        head,
        arrow,
        output,
        body,
    })
}

/// The expression that a closure gives.
fn closure_gives<I: Inside>(
    alloc: Global,
    inside: &I,
    input: &mut Cursor<'_>,
    no_struct: bool,
    word_move: Option<Shared<Token>>,
    head: ClosureHead,
) -> Result<Expr, Stop>
    requires { I.ready inside.now }
    ensures { Reads (read.mapped spec.closure_of (read.seq (given word_move) (read.seq (given head) (read.mapped spec.Gives ((I.readers inside.now).inner Anywhere 0 no_struct)))) input.old.rest.now) result input.new.rest.now }
{
    let body = boxed_expr(alloc, inside, input, no_struct)?;
    Ok(Expr::Closure {
        word_move,
        head,
        body,
    })
}

pub fn closure<I: Inside>(
    alloc: Global,
    inside: &I,
    input: &mut Cursor<'_>,
    no_struct: bool,
) -> Result<Expr, Stop>
    requires { I.ready inside.now }
    ensures { Reads (spec.closure (I.readers inside.now) no_struct input.old.rest.now) result input.new.rest.now }
{
    let word_move = sign_if(alloc, input, Written::Move)?;
    let head = closure_head(alloc, inside, input)?;
    if stands(input, Written::RArrow) {
        return closure_to(alloc, inside, input, word_move, head);
    }
    closure_gives(alloc, inside, input, no_struct, word_move, head)
}
