//! A reading of fragments for tests: each is one piece. A `-` is broken, and a `~` nests too deep.

ghost use Rattle.std.specs.Prelude.{◌≡◌, IfOk};
ghost use Rattle.em_macro.specs.OnePiece as toy;

use crate::fragments::Fragments;
use crate::matched::Taken;
use crate::put::share_piece;
use crate::rules::Specifier;
use crate::signs::is_sign;
use crate::tokens::rest;
use em_base::{Edition, List, NoMemory};
use em_tree::{FragError, FragmentKind, Piece, PieceList, Shared, starts};
use sqlite_items::Items;
use std::alloc::Global;

pub struct OnePiece;

fn is_sign_piece(piece: &Piece, sign: &str) -> bool
    ensures { result ≡ toy.is_sign_piece sign.now piece.now }
{
    match piece {
        Piece::Token(token) => is_sign(token, sign),
        Piece::Group(_) => false,
    }
}

fn one(alloc: Global, specifier: Specifier, piece: &Piece) -> Result<Taken, NoMemory>
    ensures { IfOk result (λ t. t ≡ toy.one specifier piece.now) }
{
    let mut list = Items::new(alloc);
    list.push(share_piece(alloc, piece)?)?;
    Ok(Taken {
        kind: specifier.kind,
        edition: specifier.edition,
        pieces: Shared::new(alloc, PieceList { list })?,
    })
}

impl Fragments for OnePiece {
    ghost use Rattle.em_macro.specs.OnePiece.{reads, never_empty, starting};

    ghost reads = { reads };

    ghost never_empty = { never_empty };

    ghost starting = { starting };

    fn parse(
        &self,
        alloc: Global,
        kind: FragmentKind,
        edition: Edition,
        pieces: &List<Piece>,
        from: usize,
    ) -> Result<Taken, FragError> {
        let ahead = rest(pieces.as_slice(), from);
        if !starts(kind, edition, ahead) {
            return Err(FragError::CannotStart);
        }
        match ahead {
            [first, ..] => {
                if is_sign_piece(first, "-") {
                    Err(FragError::Broken)
                } else if is_sign_piece(first, "~") {
                    Err(FragError::Depth)
                } else {
                    match one(alloc, Specifier { kind, edition }, first) {
                        Ok(found) => Ok(found),
                        Err(NoMemory) => Err(FragError::NoMemory),
                    }
                }
            }
            [] => Err(FragError::CannotStart),
        }
    }
}
