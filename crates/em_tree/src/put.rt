//! Tokens and macro text, put at the end of a list of tokens.

ghost use Rattle.std.specs.Prelude.{◌≡◌, [], ◌∷◌, ◌++◌, OnOk};
ghost use Rattle.em_tree.specs.Parts.{each, maybe};
ghost use Rattle.em_tree.specs.Yields.{one, opened, opened_piece};

use crate::piece::Piece;
use crate::shared::Shared;
use em_base::{List, NoMemory, Token};
use std::alloc::Global;

pub(crate) fn put(alloc: Global, out: &mut List<Token>, token: &Token) -> Result<(), NoMemory>
    ensures { OnOk result (out.new ≡ out.old ++ one token.now) }
{
    out.push(token.share(alloc)?)
}

pub(crate) fn put_if(
    alloc: Global,
    out: &mut List<Token>,
    token: &Option<Shared<Token>>,
) -> Result<(), NoMemory>
    ensures { OnOk result (out.new ≡ out.old ++ maybe one token.now) }
{
    match token {
        None => Ok(()),
        Some(token) => {
            put(alloc, out, token.get())?;
            Ok(())
        }
    }
}

/// Puts the tokens of macro text, with its fragments opened.
#[cycle(opens)]
pub(crate) fn put_text(alloc: Global, out: &mut List<Token>, list: &[Piece]) -> Result<(), NoMemory>
    ensures { OnOk result (out.new ≡ out.old ++ opened list.now) }
{
    for part in list {
        put_piece(alloc, out, part)?;
    }
    Ok(())
}

#[cycle(opens)]
#[tactic(auto, using(crate::proofs::Opened::puts_token, crate::proofs::Opened::puts_group))]
fn put_piece(alloc: Global, out: &mut List<Token>, piece: &Piece) -> Result<(), NoMemory>
    ensures { OnOk result (out.new ≡ out.old ++ opened_piece piece.now) }
{
    match piece {
        Piece::Token(token) => {
            put(alloc, out, token)?;
            Ok(())
        }
        Piece::Group(group) => {
            put_text(alloc, out, group.pieces.get().list.as_slice())?;
            Ok(())
        }
    }
}
