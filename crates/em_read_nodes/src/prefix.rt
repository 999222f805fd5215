//! What an expression begins with.

ghost use Rattle.std.specs.Prelude.{◌≡◌};
ghost use Rattle.em_tree.specs.declared.expr.Expr.TheVariants as made;
ghost use Rattle.em_grammar.specs.declared.sort.Written.TheVariants as word;
ghost use Rattle.em_grammar.specs.Sets.{is_sign, literal_sort, next, tokens};
ghost use Rattle.em_grammar.specs.Sorts.{sort_of};
ghost use Rattle.em_grammar.specs.Reader as read;
ghost use Rattle.em_grammar.specs.ExprSets.{block_first};
ghost use Rattle.em_grammar.specs.NodeReader as spec;
ghost use Rattle.em_read.specs.Parse.{Reads};
ghost use Rattle.em_read_nodes.specs.Prefixes as part;

use crate::branch::{for_expr, if_expr, loop_expr, match_expr, while_expr};
use em_grammar::{Written, is_literal, is_sign};
use em_read::{Cursor, Stop, keep, sign, stands};
use em_read_exprs::{
    Inside, Operator, bracket, closure, operand_group, paren, path_form, reference, return_expr,
    stands_operator, two_references, unary,
};
use em_read_types::starts_path;
use em_tree::{Expr, FragmentKind, Piece};
use sqlite_items::Boxed;
use std::alloc::Global;

// ---- literals and blocks

fn stands_literal(input: &Cursor<'_>) -> bool
    ensures { result ≡ next (tokens literal_sort) input.now.rest.now }
{
    match input.rest {
        [Piece::Token(token), ..] => is_literal(token),
        _ => false,
    }
}

fn literal(alloc: Global, input: &mut Cursor<'_>) -> Result<Expr, Stop>
    ensures { Reads (read.mapped made.Literal (read.token (λ t. literal_sort (sort_of t))) input.old.rest.now) result input.new.rest.now }
{
    match input.rest {
        [Piece::Token(token), rest @ ..] if is_literal(token) => {
            let found = keep(alloc, token)?;
            input.rest = rest;
            Ok(Expr::Literal(found))
        }
        _ => Err(Stop::Absent),
    }
}

fn starts_block(input: &Cursor<'_>) -> bool
    ensures { result ≡ next block_first input.now.rest.now }
{
    match input.rest {
        [Piece::Token(token), ..] => is_sign(Written::OpenBrace, token),
        [Piece::Group(group), ..] => matches!(group.kind, FragmentKind::Block),
        [] => false,
    }
}

fn block<I: Inside>(alloc: Global, inside: &I, input: &mut Cursor<'_>) -> Result<Expr, Stop>
    requires { I.ready inside.now }
    ensures { Reads (read.mapped made.Block (I.readers inside.now).block input.old.rest.now) result input.new.rest.now }
{
    let found = inside.block(input)?;
    Ok(Expr::Block(Boxed::new(alloc, found)?))
}

// ---- single words

fn break_expr(alloc: Global, input: &mut Cursor<'_>) -> Result<Expr, Stop>
    ensures { Reads (read.mapped made.Break (read.token (is_sign word.Break)) input.old.rest.now) result input.new.rest.now }
{
    let found = sign(alloc, input, Written::Break)?;
    Ok(Expr::Break(found))
}

fn continue_expr(alloc: Global, input: &mut Cursor<'_>) -> Result<Expr, Stop>
    ensures { Reads (read.mapped made.Continue (read.token (is_sign word.Continue)) input.old.rest.now) result input.new.rest.now }
{
    let found = sign(alloc, input, Written::Continue)?;
    Ok(Expr::Continue(found))
}

// ---- by the first piece

/// An operator and its operand, or a group that is an operand.
fn operand_form<I: Inside>(
    alloc: Global,
    inside: &I,
    input: &mut Cursor<'_>,
    no_struct: bool,
) -> Result<Expr, Stop>
    requires { I.ready inside.now }
    ensures { Reads (part.operand_form (I.readers inside.now) no_struct input.old.rest.now) result input.new.rest.now }
{
    if stands_operator(input, Operator::Unary) {
        return unary(alloc, inside, input, no_struct);
    }
    if stands(input, Written::And) {
        return reference(alloc, inside, input, no_struct);
    }
    if stands(input, Written::AndAnd) {
        return two_references(alloc, inside, input, no_struct);
    }
    operand_group(alloc, inside, input)
}

fn starts_closure(input: &Cursor<'_>) -> bool
    ensures { result ≡ next spec.closure_first input.now.rest.now }
{
    match input.rest {
        [Piece::Token(token), ..] => {
            is_sign(Written::Move, token)
                || is_sign(Written::OrOr, token)
                || is_sign(Written::Or, token)
        }
        _ => false,
    }
}

/// A closure, what leaves a function or a loop, or what begins as operands do.
fn jump_form<I: Inside>(
    alloc: Global,
    inside: &I,
    input: &mut Cursor<'_>,
    no_struct: bool,
) -> Result<Expr, Stop>
    requires { I.ready inside.now }
    ensures { Reads (part.jump_form (I.readers inside.now) no_struct input.old.rest.now) result input.new.rest.now }
{
    if starts_closure(input) {
        return closure(alloc, inside, input, no_struct);
    }
    if stands(input, Written::Return) {
        return return_expr(alloc, inside, input, no_struct);
    }
    if stands(input, Written::Break) {
        return break_expr(alloc, input);
    }
    if stands(input, Written::Continue) {
        return continue_expr(alloc, input);
    }
    operand_form(alloc, inside, input, no_struct)
}

/// What branches or repeats, or what begins as the forms behind it.
fn branch_form<I: Inside>(
    alloc: Global,
    inside: &I,
    input: &mut Cursor<'_>,
    no_struct: bool,
) -> Result<Expr, Stop>
    requires { I.ready inside.now }
    ensures { Reads (part.branch_form (I.readers inside.now) no_struct input.old.rest.now) result input.new.rest.now }
{
    if stands(input, Written::If) {
        return if_expr(alloc, inside, input);
    }
    if stands(input, Written::Match) {
        return match_expr(alloc, inside, input);
    }
    if stands(input, Written::While) {
        return while_expr(alloc, inside, input);
    }
    if stands(input, Written::Loop) {
        return loop_expr(alloc, inside, input);
    }
    if stands(input, Written::For) {
        return for_expr(alloc, inside, input);
    }
    jump_form(alloc, inside, input, no_struct)
}

/// An expression without what goes on with it (Reference, "Expressions").
#[tactic(auto, unfolding(em_grammar::specs::NodeReader::prefix))]
pub fn prefix<I: Inside>(
    alloc: Global,
    inside: &I,
    input: &mut Cursor<'_>,
    no_struct: bool,
) -> Result<Expr, Stop>
    requires { I.ready inside.now }
    ensures { Reads (spec.prefix (I.readers inside.now) no_struct input.old.rest.now) result input.new.rest.now }
{
    if stands_literal(input) {
        return literal(alloc, input);
    }
    if starts_path(input) {
        return path_form(alloc, inside, input, no_struct);
    }
    if stands(input, Written::OpenParen) {
        return paren(alloc, inside, input);
    }
    if stands(input, Written::OpenBracket) {
        return bracket(alloc, inside, input);
    }
    if starts_block(input) {
        return block(alloc, inside, input);
    }
    branch_form(alloc, inside, input, no_struct)
}
