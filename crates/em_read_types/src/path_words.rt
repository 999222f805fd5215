//! What follows a path by what it is.

ghost use Rattle.std.specs.Prelude.{◌≡◌, IfOk, IfErr};
ghost use Rattle.std.specs.Option.{option_map};
ghost use Rattle.em_tree.specs.Tokens.{before_2021};
ghost use Rattle.em_tree.specs.Yields.{opened, opened_piece};
ghost use Rattle.em_tree.specs.PathGrammar.{path_pieces};
ghost use Rattle.em_grammar.specs.TypeReader as spec;
ghost use Rattle.em_read.specs.declared.stop.Stop.TheVariants as Refusal;
ghost use Rattle.em_read_types.specs.TypeParts.{front, edition_of};

use em_base::{Edition, Token};
use em_grammar::{Weak, is_weak};
use em_read::{Stop, keep};
use em_tree::{Path, Piece, Segments, Shared};
use std::alloc::Global;

fn alone_segments(segments: &Segments) -> Option<&Token>
    ensures { option_map (λ t. t.now) result ≡ spec.alone_segments segments.now.lead segments.now.first.dollar segments.now.first.name segments.now.more }
{
    match (
        &segments.lead,
        &segments.first.dollar,
        segments.more.as_slice(),
    ) {
        (None, None, []) => Some(segments.first.name.get()),
        _ => None,
    }
}

/// The token of a path of one token.
#[tactic(auto, unfolding(em_grammar::specs::TypeReader::alone))]
pub fn alone(path: &Path) -> Option<&Token>
    ensures { option_map (λ t. t.now) result ≡ spec.alone path.now }
{
    match path {
        Path::Plain(segments) => alone_segments(segments),
        _ => None,
    }
}

/// The token of a path of one token, for a tree to keep.
pub fn lone_word(alloc: Global, path: &Path) -> Result<Option<Shared<Token>>, Stop>
    ensures kept { IfOk result (λ t. t ≡ spec.alone path.now) }
    ensures fails { IfErr result (λ e. e ≡ Refusal.NoMemory) }
{
    match alone(path) {
        Some(token) => Ok(Some(keep(alloc, token)?)),
        None => Ok(None),
    }
}

/// Whether the path is this one word.
pub fn is_lone(weak: Weak, path: &Path) -> bool
    ensures { result ≡ spec.is_lone weak (spec.alone path.now) }
{
    match alone(path) {
        Some(token) => is_weak(weak, token),
        None => false,
    }
}

/// Whether the edition is before 2021.
pub fn is_before_2021(edition: Edition) -> bool
    ensures { result ≡ before_2021 edition }
{
    match edition {
        Edition::E2021 => false,
        _ => true,
    }
}

/// The edition of the first token among the pieces, those of fragments included.
#[cycle(editions)]
pub fn first_edition(pieces: &[Piece]) -> Option<Edition>
    ensures { result ≡ edition_of (opened pieces.now) }
{
    for piece in pieces {
        let found = edition_in(piece);
        if found.is_some() {
            return found;
        }
    }
    None
}

#[cycle(editions)]
#[tactic(auto, using(crate::proofs::Editions::token_edition, crate::proofs::Editions::group_edition))]
fn edition_in(piece: &Piece) -> Option<Edition>
    ensures { result ≡ edition_of (opened_piece piece.now) }
{
    match piece {
        Piece::Token(token) => Some(token.edition),
        Piece::Group(group) => first_edition(group.pieces.get().list.as_slice()),
    }
}

fn front(segments: &Segments) -> &Token
    ensures { result.now ≡ front segments.now.lead segments.now.first.dollar segments.now.first.name }
{
    match (&segments.lead, &segments.first.dollar) {
        (Some(lead), _) => lead.get(),
        (None, Some(dollar)) => dollar.get(),
        (None, None) => segments.first.name.get(),
    }
}

/// Whether the first token is of an edition before 2021.
#[tactic(auto, using(crate::proofs::Editions::old_plain, crate::proofs::Editions::old_qualified, crate::proofs::Editions::old_group, crate::proofs::Editions::old_none))]
fn starts_old(path: &Path) -> bool
    ensures { result ≡ spec.starts_old (opened (path_pieces path.now)) }
{
    match path {
        Path::Plain(segments) => is_before_2021(front(segments).edition),
        Path::Qualified(qualified) => is_before_2021(qualified.get().open.get().edition),
        Path::Group { group, .. } => match first_edition(group.pieces.get().list.as_slice()) {
            Some(edition) => is_before_2021(edition),
            None => false,
        },
    }
}

/// Whether a `(` behind the path makes it a trait object without `dyn` (Reference, "Trait objects", "Edition differences").
#[tactic(auto, unfolding(em_grammar::specs::TypeReader::callable))]
pub fn callable(path: &Path) -> bool
    ensures { result ≡ spec.callable path.now }
{
    !is_lone(Weak::Dyn, path) && starts_old(path)
}
