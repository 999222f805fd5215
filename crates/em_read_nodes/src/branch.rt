//! Expressions that branch or repeat (Reference, "`if` expressions", "`match` expressions", "Loops and other breakable expressions").

ghost use Rattle.std.specs.Prelude.{◌≡◌, true, false};
ghost use Rattle.em_tree.specs.ExprShape.{is_bare_block};
ghost use Rattle.em_grammar.specs.declared.sort.Written.TheVariants as word;
ghost use Rattle.em_grammar.specs.Sets.{is_sign};
ghost use Rattle.em_grammar.specs.Reader as read;
ghost use Rattle.em_grammar.specs.Reader.{mapped, seq};
ghost use Rattle.em_grammar.specs.Rows.{rows_of};
ghost use Rattle.em_grammar.specs.ExprSets as from;
ghost use Rattle.em_grammar.specs.BranchReader as spec;
ghost use Rattle.em_read.specs.Parse.{Reads};
ghost use Rattle.em_read_exprs.specs.Exprs.{given};
ghost use Rattle.em_read_nodes.specs.Branches as part;
ghost use Rattle.em_read_nodes.specs.Branches.{Adds};

use em_base::Token;
use em_grammar::Written;
use em_read::{Cursor, Stop, rows, sign, sign_if, stands};
use em_read_exprs::{
    Inside, Operator, Start, ends_bare, ends_open, is_block, read_operator, strength,
};
use em_tree::{Arm, Block, Body, Condition, ElseIf, Expr, Pat, Shared};
use sqlite_items::{Boxed, Items};
use std::alloc::Global;

// ---- parts

/// A block, boxed.
fn block<I: Inside>(
    alloc: Global,
    inside: &I,
    input: &mut Cursor<'_>,
) -> Result<Boxed<Block<Body>>, Stop>
    requires { I.ready inside.now }
    ensures { Reads ((I.readers inside.now).block input.old.rest.now) result input.new.rest.now }
{
    let found = inside.block(input)?;
    Ok(Boxed::new(alloc, found)?)
}

/// Whether a block may follow: it doesn't end in a `return` without a value.
fn is_closed(tree: &Expr) -> bool
    ensures { result ≡ spec.is_closed tree.now }
{
    !ends_bare(tree)
}

/// An expression before a block.
fn head<I: Inside>(
    alloc: Global,
    inside: &I,
    input: &mut Cursor<'_>,
    least: usize,
) -> Result<Boxed<Expr>, Stop>
    requires { I.ready inside.now }
    ensures { Reads (spec.head (I.readers inside.now) least input.old.rest.now) result input.new.rest.now }
{
    let found = inside.expr(input, Start::Anywhere, least, true)?;
    let found = Boxed::new(alloc, found)?;
    if !is_closed(found.get()) {
        return Err(Stop::Absent);
    }
    Ok(found)
}

// ---- `if`

/// `let`, a pattern and the value that is to match it.
fn let_condition<I: Inside>(
    alloc: Global,
    inside: &I,
    input: &mut Cursor<'_>,
) -> Result<Condition<Boxed<Expr>>, Stop>
    requires { I.ready inside.now }
    ensures { Reads (mapped spec.let_of (seq (read.token (is_sign word.Let)) (seq (I.readers inside.now).top (seq (read.token (is_sign word.Eq)) (spec.head (I.readers inside.now) 6)))) input.old.rest.now) result input.new.rest.now }
{
    let word = sign(alloc, input, Written::Let)?;
    let pat = inside.top_pat(input)?;
    let equals = sign(alloc, input, Written::Eq)?;
    let value = head(alloc, inside, input, 6)?;
    Ok(Condition::Let {
        word,
        pat,
        equals,
        value,
    })
}

/// The condition of an `if`.
fn condition<I: Inside>(
    alloc: Global,
    inside: &I,
    input: &mut Cursor<'_>,
) -> Result<Condition<Boxed<Expr>>, Stop>
    requires { I.ready inside.now }
    ensures { Reads (spec.condition' (I.readers inside.now) input.old.rest.now) result input.new.rest.now }
{
    if stands(input, Written::Let) {
        return let_condition(alloc, inside, input);
    }
    let value = head(alloc, inside, input, 0)?;
    Ok(Condition::Expr(value))
}

/// What stands behind the block of an `if`.
#[derive(Drop)]
pub struct Branches {
    pub list: Items<ElseIf>,
    pub word_else: Option<Shared<Token>>,
    pub otherwise: Option<Boxed<Block<Body>>>,
}

/// A further `if`, whose `else` is read.
fn else_if<I: Inside>(
    alloc: Global,
    inside: &I,
    input: &mut Cursor<'_>,
    found: &mut Branches,
    word_else: Shared<Token>,
) -> Result<bool, Stop>
    requires { I.ready inside.now }
    ensures { Adds (part.step (seq (given word_else) (mapped spec.Further (seq (read.token (is_sign word.If)) (seq (spec.condition' (I.readers inside.now)) (I.readers inside.now).block)))) found.old input.old.rest.now) found.old result found.new input.new.rest.now }
{
    let word = sign(alloc, input, Written::If)?;
    let condition = condition(alloc, inside, input)?;
    let then = block(alloc, inside, input)?;
    found.list.push(ElseIf {
        word_else,
        word,
        condition,
        then,
    })?;
    Ok(true)
}

/// The last block, whose `else` is read.
fn last_block<I: Inside>(
    alloc: Global,
    inside: &I,
    input: &mut Cursor<'_>,
    found: &mut Branches,
    word_else: Shared<Token>,
) -> Result<bool, Stop>
    requires { I.ready inside.now }
    ensures { Adds (part.step (seq (given word_else) (mapped spec.Last (I.readers inside.now).block)) found.old input.old.rest.now) found.old result found.new input.new.rest.now }
{
    let block = block(alloc, inside, input)?;
    found.word_else = Some(word_else);
    found.otherwise = Some(block);
    Ok(false)
}

/// Adds what an `else` stands before, and answers whether another may follow.
fn else_part<I: Inside>(
    alloc: Global,
    inside: &I,
    input: &mut Cursor<'_>,
    found: &mut Branches,
) -> Result<bool, Stop>
    requires { I.ready inside.now }
    ensures { Adds (part.step (spec.else_part (I.readers inside.now)) found.old input.old.rest.now) found.old result found.new input.new.rest.now }
{
    let word_else = sign(alloc, input, Written::Else)?;
    if stands(input, Written::If) {
        return else_if(alloc, inside, input, found, word_else);
    }
    last_block(alloc, inside, input, found, word_else)
}

/// Adds what an `else` stands before, if there is one, and answers whether another may follow.
fn else_part_if<I: Inside>(
    alloc: Global,
    inside: &I,
    input: &mut Cursor<'_>,
    found: &mut Branches,
) -> Result<bool, Stop>
    requires { I.ready inside.now }
    ensures { Adds (part.turn (spec.else_part (I.readers inside.now)) found.old input.old.rest.now) found.old result found.new input.new.rest.now }
{
    let start = input.rest;
    match else_part(alloc, inside, input, found) {
        Ok(goes_on) => Ok(goes_on),
        Err(Stop::Absent) => {
            input.rest = start;
            Ok(false)
        }
        Err(stop) => Err(stop),
    }
}

/// The branches behind the block of an `if`.
#[tactic(auto, using(crate::proofs::Parts::sinks, crate::proofs::Parts::lacks, crate::proofs::Parts::done))]
fn further_branches<I: Inside>(
    alloc: Global,
    inside: &I,
    input: &mut Cursor<'_>,
) -> Result<Branches, Stop>
    requires { I.ready inside.now }
    ensures { Reads (part.branches (spec.else_part (I.readers inside.now)) input.old.rest.now) result input.new.rest.now }
{
    let mut found = Branches {
        list: Items::new(alloc),
        word_else: None,
        otherwise: None,
    };
    for _turn in 0..input.rest.len() {
        let goes_on = else_part_if(alloc, inside, input, &mut found)?;
        if !goes_on {
            return Ok(found);
        }
    }
    Ok(found)
}

/// The block of an `if` and its further branches.
fn then_branches<I: Inside>(
    alloc: Global,
    inside: &I,
    input: &mut Cursor<'_>,
) -> Result<(Boxed<Block<Body>>, Branches), Stop>
    requires { I.ready inside.now }
    ensures { Reads (seq (I.readers inside.now).block (part.branches (spec.else_part (I.readers inside.now))) input.old.rest.now) result input.new.rest.now }
{
    let then = block(alloc, inside, input)?;
    let branches = further_branches(alloc, inside, input)?;
    Ok((then, branches))
}

/// An `if`, by its branches as they are found.
fn if_by_branches<I: Inside>(
    alloc: Global,
    inside: &I,
    input: &mut Cursor<'_>,
) -> Result<Expr, Stop>
    requires { I.ready inside.now }
    ensures { Reads (mapped part.if_as (seq (read.token (is_sign word.If)) (seq (spec.condition' (I.readers inside.now)) (seq (I.readers inside.now).block (part.branches (spec.else_part (I.readers inside.now)))))) input.old.rest.now) result input.new.rest.now }
{
    let word = sign(alloc, input, Written::If)?;
    let condition = condition(alloc, inside, input)?;
    let (then, branches) = then_branches(alloc, inside, input)?;
    Ok(Expr::If {
        word,
        condition,
        then,
        branches: branches.list,
        word_else: branches.word_else,
        otherwise: branches.otherwise,
    })
}

/// An `if`, with its further branches.
pub fn if_expr<I: Inside>(alloc: Global, inside: &I, input: &mut Cursor<'_>) -> Result<Expr, Stop>
    requires { I.ready inside.now }
    ensures { Reads (spec.if' (I.readers inside.now) input.old.rest.now) result input.new.rest.now }
{
    if_by_branches(alloc, inside, input)
}

// ---- `match`

/// The body of an arm and its comma, if there is one.
fn arm_end<I: Inside>(
    alloc: Global,
    inside: &I,
    input: &mut Cursor<'_>,
) -> Result<(Boxed<Expr>, Option<Shared<Token>>), Stop>
    requires { I.ready inside.now }
    ensures { Reads (read.chain ((I.readers inside.now).inner from.InArm 0 false) (λ _. read.opt (read.token (is_sign word.Comma))) input.old.rest.now) result input.new.rest.now }
{
    let body = inside.expr(input, Start::InArm, 0, false)?;
    let body = Boxed::new(alloc, body)?;
    let comma = sign_if(alloc, input, Written::Comma)?;
    Ok((body, comma))
}

fn arm<I: Inside>(alloc: Global, inside: &I, input: &mut Cursor<'_>) -> Result<Arm<Expr>, Stop>
    requires { I.ready inside.now }
    ensures { Reads (spec.arm (I.readers inside.now) input.old.rest.now) result input.new.rest.now }
{
    let pat = inside.top_pat(input)?;
    let arrow = sign(alloc, input, Written::FatArrow)?;
    let (body, comma) = arm_end(alloc, inside, input)?;
    Ok(Arm {
        pat,
        arrow,
        body: body.into_inner(),
        comma,
    })
}

/// Whether another arm may follow.
fn is_arm_closed(arm: &Arm<Expr>) -> bool
    ensures { result ≡ spec.arm_closed arm.now }
{
    arm.comma.is_some() || is_block(&arm.body)
}

fn arms<I: Inside>(
    alloc: Global,
    inside: &I,
    input: &mut Cursor<'_>,
) -> Result<Items<Arm<Expr>>, Stop>
    requires { I.ready inside.now }
    ensures { Reads (rows_of spec.arm_closed (spec.arm (I.readers inside.now)) input.old.rest.now) result input.new.rest.now }
{
    rows(
        alloc,
        input,
        |found| is_arm_closed(found),
        |input| arm(alloc, inside, input),
    )
}

/// The arms with their braces.
fn braces<I: Inside>(
    alloc: Global,
    inside: &I,
    input: &mut Cursor<'_>,
) -> Result<(Shared<Token>, (Items<Arm<Expr>>, Shared<Token>)), Stop>
    requires { I.ready inside.now }
    ensures { Reads (seq (read.token (is_sign word.OpenBrace)) (seq (rows_of spec.arm_closed (spec.arm (I.readers inside.now))) (read.token (is_sign word.CloseBrace))) input.old.rest.now) result input.new.rest.now }
{
    let start = sign(alloc, input, Written::OpenBrace)?;
    let arms = arms(alloc, inside, input)?;
    let close = sign(alloc, input, Written::CloseBrace)?;
    Ok((start, (arms, close)))
}

/// A `match`, with its arms.
pub fn match_expr<I: Inside>(
    alloc: Global,
    inside: &I,
    input: &mut Cursor<'_>,
) -> Result<Expr, Stop>
    requires { I.ready inside.now }
    ensures { Reads (spec.match' (I.readers inside.now) input.old.rest.now) result input.new.rest.now }
{
    let word = sign(alloc, input, Written::Match)?;
    let scrutinee = head(alloc, inside, input, 0)?;
    let (open, (arms, close)) = braces(alloc, inside, input)?;
    Ok(Expr::Match {
        word,
        scrutinee,
        open,
        arms,
        close,
    })
}

// ---- loops

/// A `while`.
pub fn while_expr<I: Inside>(
    alloc: Global,
    inside: &I,
    input: &mut Cursor<'_>,
) -> Result<Expr, Stop>
    requires { I.ready inside.now }
    ensures { Reads (spec.while' (I.readers inside.now) input.old.rest.now) result input.new.rest.now }
{
    let word = sign(alloc, input, Written::While)?;
    let condition = head(alloc, inside, input, 0)?;
    let body = block(alloc, inside, input)?;
    Ok(Expr::While {
        word,
        condition,
        body,
    })
}

/// A `loop`.
pub fn loop_expr<I: Inside>(alloc: Global, inside: &I, input: &mut Cursor<'_>) -> Result<Expr, Stop>
    requires { I.ready inside.now }
    ensures { Reads (spec.loop' (I.readers inside.now) input.old.rest.now) result input.new.rest.now }
{
    let word = sign(alloc, input, Written::Loop)?;
    let body = block(alloc, inside, input)?;
    Ok(Expr::Loop { word, body })
}

/// Whether a range may begin with it.
fn is_bound(tree: &Expr) -> bool
    ensures { result ≡ spec.is_bound tree.now }
{
    strength(tree) >= 4 && !ends_open(tree)
}

/// The dots of a range and its end.
fn range_end<I: Inside>(
    alloc: Global,
    inside: &I,
    input: &mut Cursor<'_>,
) -> Result<(Shared<Token>, Boxed<Expr>), Stop>
    requires { I.ready inside.now }
    ensures { Reads (seq (read.token spec.is_range_dots) ((I.readers inside.now).inner from.Anywhere 4 true) input.old.rest.now) result input.new.rest.now }
{
    let dots = read_operator(alloc, input, Operator::Range)?;
    let end = inside.expr(input, Start::Anywhere, 4, true)?;
    let end = Boxed::new(alloc, end)?;
    Ok((dots, end))
}

/// The dots of a range that begins with this expression and its end, if it is a range.
fn range_end_if<I: Inside>(
    alloc: Global,
    inside: &I,
    input: &mut Cursor<'_>,
    start: &Expr,
) -> Result<Option<(Shared<Token>, Boxed<Expr>)>, Stop>
    requires { I.ready inside.now }
    ensures { Reads (read.opt (read.when (spec.is_bound start.now) (seq (read.token spec.is_range_dots) ((I.readers inside.now).inner from.Anywhere 4 true))) input.old.rest.now) result input.new.rest.now }
{
    if !is_bound(start) {
        return Ok(None);
    }
    let before = input.rest;
    match range_end(alloc, inside, input) {
        Ok(found) => Ok(Some(found)),
        Err(Stop::Absent) => {
            input.rest = before;
            Ok(None)
        }
        Err(stop) => Err(stop),
    }
}

/// Whether it is a block alone.
fn is_bare_block(tree: &Expr) -> bool
    ensures { result ≡ is_bare_block tree.now }
{
    matches!(tree, Expr::Block(_))
}

/// Whether a block may follow the range, whose end is none, or the expression that is no range.
fn is_range_closed(start: &Expr, end: &Option<(Shared<Token>, Boxed<Expr>)>) -> bool
    ensures { result ≡ spec.range_closed (start.now, end.now) }
{
    match end {
        None => is_closed(start),
        Some((_, end)) => is_closed(end.get()) && !is_bare_block(end.get()),
    }
}

/// A range or another expression, before a block.
fn range<I: Inside>(
    alloc: Global,
    inside: &I,
    input: &mut Cursor<'_>,
) -> Result<(Boxed<Expr>, Option<(Shared<Token>, Boxed<Expr>)>), Stop>
    requires { I.ready inside.now }
    ensures { Reads (spec.range (I.readers inside.now) input.old.rest.now) result input.new.rest.now }
{
    let start = inside.expr(input, Start::Anywhere, 0, true)?;
    let start = Boxed::new(alloc, start)?;
    let end = range_end_if(alloc, inside, input, start.get())?;
    if !is_range_closed(start.get(), &end) {
        return Err(Stop::Absent);
    }
    Ok((start, end))
}

/// A pattern without alternatives, boxed.
fn pat<I: Inside>(alloc: Global, inside: &I, input: &mut Cursor<'_>) -> Result<Boxed<Pat>, Stop>
    requires { I.ready inside.now }
    ensures { Reads ((I.readers inside.now).pat input.old.rest.now) result input.new.rest.now }
{
    let found = inside.pat(input)?;
    Ok(Boxed::new(alloc, found)?)
}

/// The `for` of these parts.
fn for_of(
    word: Shared<Token>,
    pat: Boxed<Pat>,
    word_in: Shared<Token>,
    head: Boxed<Expr>,
    end: Option<(Shared<Token>, Boxed<Expr>)>,
    body: Boxed<Block<Body>>,
) -> Expr
    ensures { result ≡ spec.for_of (word, (pat, (word_in, ((head, end), body)))) }
{
    match end {
        None => Expr::For {
            word,
            pat,
            word_in,
            head,
            dots: None,
            end: None,
            body,
        },
        Some((dots, end)) => Expr::For {
            word,
            pat,
            word_in,
            head,
            dots: Some(dots),
            end: Some(end),
            body,
        },
    }
}

/// The values that a `for` goes over and its block, behind `in`.
fn for_in<I: Inside>(
    alloc: Global,
    inside: &I,
    input: &mut Cursor<'_>,
    word: Shared<Token>,
    pat: Boxed<Pat>,
    word_in: Shared<Token>,
) -> Result<Expr, Stop>
    requires { I.ready inside.now }
    ensures { Reads (mapped spec.for_of (seq (given word) (seq (given pat) (seq (given word_in) (seq (spec.range (I.readers inside.now)) (I.readers inside.now).block)))) input.old.rest.now) result input.new.rest.now }
{
    let (head, end) = range(alloc, inside, input)?;
    let body = block(alloc, inside, input)?;
    Ok(for_of(word, pat, word_in, head, end, body))
}

/// A `for`, over a range or another expression.
pub fn for_expr<I: Inside>(alloc: Global, inside: &I, input: &mut Cursor<'_>) -> Result<Expr, Stop>
    requires { I.ready inside.now }
    ensures { Reads (spec.for' (I.readers inside.now) input.old.rest.now) result input.new.rest.now }
{
    let word = sign(alloc, input, Written::For)?;
    let pat = pat(alloc, inside, input)?;
    let word_in = sign(alloc, input, Written::In)?;
    for_in(alloc, inside, input, word, pat, word_in)
}
