//! What expressions and statements begin with.

ghost use Rattle.std.specs.Prelude.{◌≡◌};
ghost use Rattle.em_grammar.specs.Sets.{next, any_of};
ghost use Rattle.em_grammar.specs.Sorts.{sort_of};
ghost use Rattle.em_grammar.specs.ExprSets.{expr_words, expr_first};
ghost use Rattle.em_grammar.specs.StmtReader.{plain_first};

use em_base::Token;
use em_grammar::{Sort, Written, is_literal, is_sign, sort_of};
use em_read::{Cursor, stands};
use em_read_types::starts_path;
use em_tree::{FragmentKind, Piece};

/// Whether the token is a word or sign that begins an expression, but for paths, literals and blocks.
fn is_expr_word(token: &Token) -> bool
    ensures { result ≡ any_of expr_words (sort_of token.now) }
{
    match sort_of(token) {
        Sort::Written(word) => matches!(
            word,
            Written::OpenParen
                | Written::OpenBracket
                | Written::If
                | Written::Match
                | Written::While
                | Written::Loop
                | Written::For
                | Written::Move
                | Written::Or
                | Written::OrOr
                | Written::Return
                | Written::Break
                | Written::Continue
                | Written::Minus
                | Written::Not
                | Written::Star
                | Written::And
                | Written::AndAnd
        ),
        _ => false,
    }
}

/// Whether an expression begins here.
pub fn starts_expr(input: &Cursor<'_>) -> bool
    ensures { result ≡ next expr_first input.now.rest.now }
{
    match input.rest {
        [Piece::Token(token), ..] => {
            is_literal(token)
                || starts_path(input)
                || is_expr_word(token)
                || is_sign(Written::OpenBrace, token)
        }
        [Piece::Group(group), ..] => matches!(
            group.kind,
            FragmentKind::Path | FragmentKind::Block | FragmentKind::Expr | FragmentKind::Literal
        ),
        [] => false,
    }
}

/// Whether a statement begins here that is no fragment of its own kind.
pub fn starts_plain_stmt(input: &Cursor<'_>) -> bool
    ensures { result ≡ next plain_first input.now.rest.now }
{
    stands(input, Written::Let) || starts_expr(input)
}
