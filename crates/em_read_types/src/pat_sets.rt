//! What patterns begin with.

ghost use Rattle.std.specs.Prelude.{◌≡◌};
ghost use Rattle.em_grammar.specs.Sets.{next};
ghost use Rattle.em_grammar.specs.LiteralReader.{signed_first};
ghost use Rattle.em_grammar.specs.PatReader as spec;
ghost use Rattle.em_read_types.specs.PatParts.{first_group};

use crate::type_sets::starts_path;
use em_base::Edition;
use em_grammar::{Written, is_literal, is_sign};
use em_read::Cursor;
use em_tree::{FragmentKind, Piece, starts};

/// Whether `ref` or `mut` stands here.
pub fn starts_mark(input: &Cursor<'_>) -> bool
    ensures { result ≡ next spec.mark_first input.now.rest.now }
{
    match input.rest {
        [Piece::Token(token), ..] => {
            is_sign(Written::Ref, token) || is_sign(Written::Mut, token)
        }
        _ => false,
    }
}

/// Whether a literal with or without a sign begins here.
pub fn starts_signed(input: &Cursor<'_>) -> bool
    ensures { result ≡ next signed_first input.now.rest.now }
{
    match input.rest {
        [Piece::Token(token), ..] => is_sign(Written::Minus, token) || is_literal(token),
        [Piece::Group(group), ..] => group.kind == FragmentKind::Literal,
        [] => false,
    }
}

/// Whether a pattern that is no fragment begins here.
pub fn starts_pat_node(input: &Cursor<'_>) -> bool
    ensures { result ≡ next spec.pat_node_first input.now.rest.now }
{
    match input.rest {
        [Piece::Token(token), ..] => {
            is_sign(Written::Underscore, token)
                || starts_mark(input)
                || starts_signed(input)
                || starts_path(input)
        }
        _ => starts_signed(input) || starts_path(input),
    }
}

/// Whether a pattern begins here.
pub fn starts_pat(input: &Cursor<'_>) -> bool
    ensures { result ≡ next spec.pat_first input.now.rest.now }
{
    match input.rest {
        [Piece::Group(group), ..]
            if matches!(group.kind, FragmentKind::Pat | FragmentKind::PatParam) => { true }
        _ => starts_pat_node(input),
    }
}

/// Whether the first piece is a fragment that is one pattern.
#[tactic(auto, using(crate::proofs::PatGroups::one_pat))]
pub fn is_pat_group(pieces: &[Piece]) -> bool
    ensures { result ≡ first_group spec.is_pat_group pieces.now }
{
    match pieces {
        [Piece::Group(group), ..] => match group.kind {
            FragmentKind::PatParam => true,
            FragmentKind::Pat => starts(FragmentKind::PatParam, Edition::E2021, pieces),
            _ => false,
        },
        _ => false,
    }
}

/// Whether the first piece is a fragment that is a pattern with a `|`.
#[tactic(auto, using(crate::proofs::PatGroups::no_bars))]
pub fn is_top_group(pieces: &[Piece]) -> bool
    ensures { result ≡ first_group spec.is_top_group pieces.now }
{
    match pieces {
        [Piece::Group(group), ..] if group.kind == FragmentKind::Pat => {
            !starts(FragmentKind::PatParam, Edition::E2021, pieces)
        }
        _ => false,
    }
}
