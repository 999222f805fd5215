//! Operators (Reference, "Operator expressions").

ghost use Rattle.std.specs.Prelude.{[], ◌∷◌, ◌≡◌, ◌≤◌, suc};
ghost use Rattle.em_grammar.specs.Reader as read;
ghost use Rattle.em_grammar.specs.Sets.{next, tokens, any_of};
ghost use Rattle.em_grammar.specs.PrefixReader.{unaries};
ghost use Rattle.em_grammar.specs.declared.sort.Written.TheVariants as word;
ghost use Rattle.em_grammar.specs.Sorts.{sort_of};
ghost use Rattle.em_grammar.specs.ExprSets as sets;
ghost use Rattle.em_read.specs.Parse.{Reads};
ghost use Rattle.em_read_exprs.specs.Exprs.{operates};

use em_base::Token;
use em_grammar::{Sort, Written, sort_of};
use em_read::{Cursor, Stop, keep};
use em_tree::{Piece, Shared};
use std::alloc::Global;

/// The tokens that no one text tells in an expression.
#[derive(Clone, Copy)]
pub enum Operator {
    Binary,
    /// `=`, or an operator and `=`.
    Assign,
    /// `-`, `!` or `*`.
    Unary,
    /// `..` or `..=`.
    Range,
}

/// How tightly a binary operator binds, and 0 for another token.
pub fn binds_as_operator(sort: Sort) -> usize
    ensures strength { result ≡ sets.op_binds sort }
    ensures bound { result ≤ 12 }
{
    let Sort::Written(word) = sort else {
        return 0;
    };
    match word {
        Written::Star | Written::Slash | Written::Percent => 12,
        Written::Plus | Written::Minus => 11,
        Written::Shl | Written::Shr => 10,
        Written::And => 9,
        Written::Caret => 8,
        Written::Or => 7,
        Written::EqEq | Written::Ne | Written::Lt | Written::Gt | Written::Le | Written::Ge => 6,
        Written::AndAnd => 5,
        Written::OrOr => 4,
        _ => 0,
    }
}

/// How tightly the right side of a binary operator binds at least. They associate from the left.
pub fn right_binds(sort: Sort) -> usize
    ensures { result ≡ suc (sets.op_binds sort) }
{
    binds_as_operator(sort) + 1
}

pub fn is_assignment(sort: Sort) -> bool
    ensures { result ≡ sets.assign_sort sort }
{
    match sort {
        Sort::Written(word) => matches!(
            word,
            Written::Eq
                | Written::PlusEq
                | Written::MinusEq
                | Written::StarEq
                | Written::SlashEq
                | Written::PercentEq
                | Written::CaretEq
                | Written::AndEq
                | Written::OrEq
                | Written::ShlEq
                | Written::ShrEq
        ),
        _ => false,
    }
}

fn is_unary(sort: Sort) -> bool
    ensures { result ≡ any_of unaries sort }
{
    match sort {
        Sort::Written(word) => matches!(word, Written::Minus | Written::Not | Written::Star),
        _ => false,
    }
}

fn is_range(sort: Sort) -> bool
    ensures { result ≡ any_of (word.DotDot ∷ word.DotDotEq ∷ []) sort }
{
    match sort {
        Sort::Written(word) => matches!(word, Written::DotDot | Written::DotDotEq),
        _ => false,
    }
}

fn is_operator(which: Operator, token: &Token) -> bool
    ensures { result ≡ operates which (sort_of token.now) }
{
    let sort = sort_of(token);
    match which {
        Operator::Binary => binds_as_operator(sort) >= 1,
        Operator::Assign => is_assignment(sort),
        Operator::Unary => is_unary(sort),
        Operator::Range => is_range(sort),
    }
}

/// Whether one is the next piece.
pub fn stands_operator(input: &Cursor<'_>, which: Operator) -> bool
    ensures { result ≡ next (tokens (operates which)) input.now.rest.now }
{
    match input.rest {
        [Piece::Token(token), ..] => is_operator(which, token),
        _ => false,
    }
}

/// One, if it is the next piece.
pub fn read_operator(
    alloc: Global,
    input: &mut Cursor<'_>,
    which: Operator,
) -> Result<Shared<Token>, Stop>
    ensures { Reads (read.token (λ t. operates which (sort_of t)) input.old.rest.now) result input.new.rest.now }
{
    match input.rest {
        [Piece::Token(token), rest @ ..] if is_operator(which, token) => {
            let found = keep(alloc, token)?;
            input.rest = rest;
            Ok(found)
        }
        _ => Err(Stop::Absent),
    }
}
