//! An expression with what goes on with it (Reference, "Expression precedence").

ghost use Rattle.std.specs.Prelude.{◌≡◌, ◌&&◌, ◌||◌, not, IfOk, IfErr};
ghost use Rattle.em_read.specs.declared.stop.Stop.TheVariants as Refusal;
ghost use Rattle.em_tree.specs.declared.expr.Expr.{out-Expr};
ghost use Rattle.em_grammar.specs.declared.sort.Written.TheVariants as word;
ghost use Rattle.em_grammar.specs.Sets.{is_sign, next};
ghost use Rattle.em_grammar.specs.Sorts.{sort_of};
ghost use Rattle.em_grammar.specs.Levels as levels;
ghost use Rattle.em_grammar.specs.ExprSets as sets;
ghost use Rattle.em_grammar.specs.ExprReader as suffixes;
ghost use Rattle.em_grammar.specs.NodeReader as spec;
ghost use Rattle.em_read_exprs.specs.Exprs.{start_of, suffix_as};
ghost use Rattle.em_read.specs.Parse.{Reads};
ghost use Rattle.em_read.specs.Gives.{Gives};
ghost use Rattle.em_read_nodes.specs.Turns.{suffix_if, suffix_if_as};

use crate::prefix::prefix;
use em_base::Token;
use em_grammar::{Sort, Written, is_sign, sort_of};
use em_read::{Cursor, Stop};
use em_read_exprs::{
    Inside, Start, Suffix, apply, binds_as_operator, ends_open, is_assignment, is_block, is_braced,
    is_field, read_suffix, strength,
};
use em_tree::{Expr, Piece};
use sqlite_items::Boxed;
use std::alloc::Global;

// ---- what goes on with an expression

fn is_postfix(sort: Sort) -> bool
    ensures { result ≡ sets.postfix_sort sort }
{
    match sort {
        Sort::Written(word) => matches!(
            word,
            Written::Dot | Written::OpenParen | Written::OpenBracket
        ),
        _ => false,
    }
}

/// How tightly what begins with a token binds, and 0 for a token that goes on with no expression.
fn binds(sort: Sort) -> usize
    ensures { result ≡ sets.binds sort }
{
    if is_postfix(sort) {
        return 14;
    }
    if is_assignment(sort) {
        return 3;
    }
    binds_as_operator(sort)
}

/// How tightly the left side of what binds so binds at least. Comparisons don't chain, and assignments associate from the right.
fn left_binds(binds: usize) -> usize
    ensures { result ≡ sets.needs binds }
{
    match binds {
        6 => 7,
        3 => 4,
        _ => binds,
    }
}

/// Whether only a `.` goes on with the expression, which begins there.
fn must_dot(start: Start, left: &Expr) -> bool
    ensures { result ≡ sets.must_dot (start_of start) (out-Expr left.now) }
{
    match start {
        Start::Anywhere => false,
        Start::InArm => is_block(left),
        Start::InBlock => is_block(left) || is_braced(left),
    }
}

fn is_method(left: &Expr, token: &Token) -> bool
    ensures { result ≡ (sets.is_field (out-Expr left.now) && is_sign word.OpenParen token.now) }
{
    is_field(left) && is_sign(Written::OpenParen, token)
}

fn may_follow(start: Start, left: &Expr, token: &Token) -> bool
    ensures { result ≡ (not (sets.must_dot (start_of start) (out-Expr left.now)) || is_sign word.Dot token.now) }
{
    !must_dot(start, left) || is_sign(Written::Dot, token)
}

/// Whether the token goes on with the expression by their forms. A `(` behind a field is a method's call.
fn fits(start: Start, left: &Expr, token: &Token) -> bool
    ensures { result ≡ sets.fits (start_of start) (out-Expr left.now) (sort_of token.now) }
{
    !is_method(left, token) && may_follow(start, left, token)
}

fn token_goes_on(start: Start, least: usize, left: &Expr, token: &Token) -> bool
    ensures { result ≡ sets.goes_on (start_of start) least left.now (sort_of token.now) }
{
    let binds = binds(sort_of(token));
    binds >= 1
        && binds >= least
        && left_binds(binds) <= strength(left)
        && !ends_open(left)
        && fits(start, left, token)
}

/// Whether what stands next goes on with the expression.
pub fn goes_on(input: &Cursor<'_>, start: Start, least: usize, left: &Expr) -> bool
    ensures { result ≡ next (sets.on (start_of start) least left.now) input.now.rest.now }
{
    match input.rest {
        [Piece::Token(token), ..] => token_goes_on(start, least, left, token),
        _ => false,
    }
}

/// What goes on with the expression, or nothing.
fn suffix_if<I: Inside>(
    alloc: Global,
    inside: &I,
    input: &mut Cursor<'_>,
    start: Start,
    least: usize,
    no_struct: bool,
    left: &Expr,
) -> Result<Option<Boxed<Suffix>>, Stop>
    requires { I.ready inside.now }
    ensures { Gives suffix_if_as (suffix_if (sets.on (start_of start) least left.now) (suffixes.suffix (I.readers inside.now) no_struct) input.old.rest.now) result input.new.rest.now }
{
    if !goes_on(input, start, least, left) {
        return Ok(None);
    }
    let before = input.rest;
    match read_suffix(alloc, inside, input, no_struct) {
        Ok(suffix) => Ok(Some(Boxed::new(alloc, suffix)?)),
        Err(Stop::Absent) => {
            input.rest = before;
            Ok(None)
        }
        Err(stop) => Err(stop),
    }
}

// ---- levels

/// The expression with what goes on with it.
fn longer(alloc: Global, left: Boxed<Expr>, suffix: Boxed<Suffix>) -> Result<Boxed<Expr>, Stop>
    ensures made { IfOk result (λ x. x ≡ suffixes.apply left (suffix_as suffix)) }
    ensures fails { IfErr result (λ e. e ≡ Refusal.NoMemory) }
{
    let found = apply(alloc, left.into_inner(), suffix.into_inner())?;
    Ok(Boxed::new(alloc, found)?)
}

/// The expression with all that goes on with it.
fn climb<I: Inside>(
    alloc: Global,
    inside: &I,
    input: &mut Cursor<'_>,
    turns: usize,
    start: Start,
    least: usize,
    no_struct: bool,
    first: Boxed<Expr>,
) -> Result<Boxed<Expr>, Stop>
    requires { I.ready inside.now }
    ensures { Reads (levels.climb (sets.on (start_of start) least) (suffixes.suffix (I.readers inside.now) no_struct) suffixes.apply turns first input.old.rest.now) result input.new.rest.now }
{
    let mut left = first;
    for _turn in 0..turns {
        let found = suffix_if(alloc, inside, input, start, least, no_struct, left.get())?;
        let Some(suffix) = found else {
            return Ok(left);
        };
        left = longer(alloc, left, suffix)?;
    }
    if goes_on(input, start, least, left.get()) {
        return Err(Stop::Deep);
    }
    Ok(left)
}

/// An expression of one node more than `inside` reads. A chain from the left has no more than so many turns.
#[tactic(auto, unfolding(em_grammar::specs::NodeReader::expr_node))]
pub fn expr_node<I: Inside>(
    alloc: Global,
    inside: &I,
    input: &mut Cursor<'_>,
    turns: usize,
    start: Start,
    least: usize,
    no_struct: bool,
) -> Result<Expr, Stop>
    requires { I.ready inside.now }
    ensures { Reads (spec.expr_node (I.readers inside.now) turns (start_of start) least no_struct input.old.rest.now) result input.new.rest.now }
{
    let first = prefix(alloc, inside, input, no_struct)?;
    let first = Boxed::new(alloc, first)?;
    let found = climb(alloc, inside, input, turns, start, least, no_struct, first)?;
    Ok(found.into_inner())
}
