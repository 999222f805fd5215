//! Puts single tokens and fragments into what a macro writes.

ghost use Rattle.std.specs.Prelude.{[], ◌∷◌, ◌++◌, ◌≡◌, IfOk, OnOk};
ghost use Rattle.em_tree.specs.declared.piece.Piece.TheVariants as p;
ghost use Rattle.em_macro.specs.Write as spec;

use crate::matched::Taken;
use em_base::{List, Mark, NoMemory, Span, Token};
use em_tree::{FragmentKind, Group, Piece};
use std::alloc::Global;

/// The marks of a token that the transcriber wrote.
fn marks_with(alloc: Global, marks: &List<Mark>, mark: Mark) -> Result<List<Mark>, NoMemory>
    ensures { IfOk result (λ ms. ms ≡ marks.now ++ mark ∷ []) }
{
    let mut all = List::from_slice(alloc, marks.as_slice())?;
    all.push(mark)?;
    Ok(all)
}

fn marked(alloc: Global, mark: Mark, token: &Token) -> Result<Token, NoMemory>
    ensures { IfOk result (λ t. t ≡ spec.marked mark token.now) }
{
    Ok(Token {
        kind: token.kind.share()?,
        text: token.text.share()?,
        span: token.span,
        edition: token.edition,
        marks: marks_with(alloc, &token.marks, mark)?,
        doc: token.doc,
    })
}

/// Puts a token of the transcriber behind what is there.
pub fn put_token(
    alloc: Global,
    mark: Mark,
    token: &Token,
    out: &mut List<Piece>,
) -> Result<(), NoMemory>
    ensures { OnOk result (out.new ≡ out.old ++ p.Token (spec.marked mark token.now) ∷ []) }
{
    out.push(Piece::Token(marked(alloc, mark, token)?))
}

/// The same piece, whose texts and pieces aren't copied.
pub fn share_piece(alloc: Global, piece: &Piece) -> Result<Piece, NoMemory>
    ensures { IfOk result (λ x. x ≡ piece.now) }
{
    Ok(match piece {
        Piece::Token(token) => Piece::Token(token.share(alloc)?),
        Piece::Group(group) => Piece::Group(group.share(alloc)?),
    })
}

fn put_pieces(alloc: Global, pieces: &[Piece], out: &mut List<Piece>) -> Result<(), NoMemory>
    ensures { OnOk result (out.new ≡ out.old ++ pieces.now) }
{
    for piece in pieces {
        out.push(share_piece(alloc, piece)?)?;
    }
    Ok(())
}

pub fn is_plain(kind: FragmentKind) -> bool
    ensures { result ≡ spec.is_plain kind }
{
    match kind {
        FragmentKind::Ident => true,
        FragmentKind::Tt => true,
        _ => false,
    }
}

fn whole_span(dollar: &Token, word: &Token) -> Span
    ensures { result ≡ spec.whole_span dollar.now word.now }
{
    Span {
        file: dollar.span.file,
        start: dollar.span.start,
        end: word.span.end,
    }
}

fn group_of(
    alloc: Global,
    mark: Mark,
    dollar: &Token,
    word: &Token,
    fragment: &Taken,
) -> Result<Piece, NoMemory>
    ensures { IfOk result (λ x. x ≡ spec.group_of mark dollar.now word.now fragment.now) }
{
    Ok(Piece::Group(Group {
        outer: whole_span(dollar, word),
        marks: marks_with(alloc, &word.marks, mark)?,
        kind: fragment.kind,
        edition: fragment.edition,
        pieces: fragment.pieces.share()?,
    }))
}

/// Puts a fragment behind what is there: its own pieces for the kinds `ident` and `tt`, else one group at the
/// variable's place (Reference, "Forwarding a matched fragment").
pub fn put(
    alloc: Global,
    mark: Mark,
    dollar: &Token,
    word: &Token,
    fragment: &Taken,
    out: &mut List<Piece>,
) -> Result<(), NoMemory>
    ensures { OnOk result (out.new ≡ out.old ++ spec.put mark dollar.now word.now fragment.now) }
{
    if is_plain(fragment.kind) {
        put_pieces(alloc, fragment.pieces.get().list.as_slice(), out)
    } else {
        out.push(group_of(alloc, mark, dollar, word, fragment)?)
    }
}
