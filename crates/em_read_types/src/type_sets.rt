//! What types and paths begin with.

ghost use Rattle.std.specs.Prelude.{◌≡◌};
ghost use Rattle.em_grammar.specs.Sets.{next, tokens, dyn_sort};
ghost use Rattle.em_grammar.specs.PathReader.{segments_first, path_first};
ghost use Rattle.em_grammar.specs.TypeReader.{node_first, type_first, dyn_follow};

use em_grammar::{Written, is_bound_start, is_dyn, is_path_start, is_segments_start, is_sign};
use em_read::Cursor;
use em_tree::{FragmentKind, Piece};

/// Whether segments begin here.
pub fn starts_segments(input: &Cursor<'_>) -> bool
    ensures { result ≡ next segments_first input.now.rest.now }
{
    match input.rest {
        [Piece::Token(token), ..] => is_segments_start(token),
        _ => false,
    }
}

/// Whether a path begins here.
pub fn starts_path(input: &Cursor<'_>) -> bool
    ensures { result ≡ next path_first input.now.rest.now }
{
    match input.rest {
        [Piece::Token(token), ..] => is_path_start(token),
        [Piece::Group(group), ..] => group.kind == FragmentKind::Path,
        [] => false,
    }
}

/// Whether a type that is no group begins here.
pub fn starts_type_node(input: &Cursor<'_>) -> bool
    ensures { result ≡ next node_first input.now.rest.now }
{
    match input.rest {
        [Piece::Token(token), ..] => {
            is_sign(Written::And, token)
                || is_sign(Written::AndAnd, token)
                || is_sign(Written::OpenBracket, token)
                || is_sign(Written::OpenParen, token)
                || is_dyn(token)
                || starts_path(input)
        }
        _ => starts_path(input),
    }
}

/// Whether a type begins here.
pub fn starts_type(input: &Cursor<'_>) -> bool
    ensures { result ≡ next type_first input.now.rest.now }
{
    match input.rest {
        [Piece::Group(group), ..] if group.kind == FragmentKind::Ty => true,
        _ => starts_type_node(input),
    }
}

/// Whether a bound begins here, behind the name `dyn`.
pub fn follows_dyn(input: &Cursor<'_>) -> bool
    ensures { result ≡ next dyn_follow input.now.rest.now }
{
    match input.rest {
        [Piece::Token(token), ..] => is_bound_start(token),
        [Piece::Group(group), ..] => group.kind == FragmentKind::Path,
        [] => false,
    }
}

/// Whether the keyword `dyn` is the next piece.
pub fn stands_dyn(input: &Cursor<'_>) -> bool
    ensures { result ≡ next (tokens dyn_sort) input.now.rest.now }
{
    match input.rest {
        [Piece::Token(token), ..] => is_dyn(token),
        _ => false,
    }
}
