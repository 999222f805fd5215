//! The text of a macro between its delimiters (Reference, "Macro invocation").

ghost use Rattle.std.specs.Prelude.{[], ◌≡◌, ◌++◌, ◌∷◌, IfOk};
ghost use Rattle.em_grammar.specs.Sorts.{sort_of};
ghost use Rattle.em_grammar.specs.Reader as read;
ghost use Rattle.em_grammar.specs.TextReader as spec;
ghost use Rattle.em_read.specs.Parse.{Reads};
ghost use Rattle.em_read.specs.Texts.{shape_as, side_as, opened_as, Opened, Closed, Turned};

use crate::cursor::{Cursor, keep};
use crate::stop::Stop;
use em_base::Token;
use em_grammar::{Sort, Written, sort_of};
use em_tree::{Delimited, Piece, Shared};
use sqlite_items::Items;
use std::alloc::Global;

/// The kinds of delimiters.
#[derive(Clone, Copy, PartialEq, Eq)]
pub enum Shape {
    Round,
    Square,
    Curly,
}

/// What a token is among delimiters.
#[derive(Clone, Copy)]
pub enum Side {
    Opens(Shape),
    Closes(Shape),
    Neither,
}

fn side_of(token: &Token) -> Side
    ensures { spec.side (sort_of token.now) ≡ side_as result }
{
    match sort_of(token) {
        Sort::Written(Written::OpenParen) => Side::Opens(Shape::Round),
        Sort::Written(Written::OpenBracket) => Side::Opens(Shape::Square),
        Sort::Written(Written::OpenBrace) => Side::Opens(Shape::Curly),
        Sort::Written(Written::CloseParen) => Side::Closes(Shape::Round),
        Sort::Written(Written::CloseBracket) => Side::Closes(Shape::Square),
        Sort::Written(Written::CloseBrace) => Side::Closes(Shape::Curly),
        _ => Side::Neither,
    }
}

fn is_shape(one: Shape, other: Shape) -> bool
    ensures { result ≡ spec.same_shape (shape_as one) (shape_as other) }
{
    match (one, other) {
        (Shape::Round, Shape::Round) => true,
        (Shape::Square, Shape::Square) => true,
        (Shape::Curly, Shape::Curly) => true,
        _ => false,
    }
}

fn opening_shape(token: &Token) -> Option<Shape>
    ensures { Opened (sort_of token.now) result }
{
    match sort_of(token) {
        Sort::Written(Written::OpenParen) => Some(Shape::Round),
        Sort::Written(Written::OpenBracket) => Some(Shape::Square),
        Sort::Written(Written::OpenBrace) => Some(Shape::Curly),
        _ => None,
    }
}

/// The delimiter that opens a text.
fn opening(alloc: Global, input: &mut Cursor<'_>) -> Result<(Shared<Token>, Shape), Stop>
    ensures { Reads (read.mapped opened_as (read.token spec.opening) input.old.rest.now) result input.new.rest.now }
{
    match input.rest {
        [Piece::Token(token), rest @ ..] => {
            let Some(shape) = opening_shape(token) else {
                return Err(Stop::Absent);
            };
            let found = keep(alloc, token)?;
            input.rest = rest;
            Ok((found, shape))
        }
        _ => Err(Stop::Absent),
    }
}

/// The delimiters that are open, the innermost last.
#[derive(Drop)]
pub struct Unclosed {
    outer: Items<Shape>,
    inner: Shape,
}

/// Whether this delimiter, which closes, is the last one.
#[tactic(auto, using(crate::proofs::Texts::closes_under))]
fn closes(unclosed: &mut Unclosed, shape: Shape) -> Result<bool, Stop>
    ensures { Closed unclosed.old shape result unclosed.new }
{
    if !is_shape(shape, unclosed.inner) {
        return Err(Stop::Absent);
    }
    match unclosed.outer.pop() {
        None => Ok(true),
        Some(under) => {
            unclosed.inner = under;
            Ok(false)
        }
    }
}

/// Whether the token closes the last delimiter that is open.
#[tactic(auto, using(crate::proofs::Texts::turn_neither, crate::proofs::Texts::turn_opens, crate::proofs::Texts::turn_closes))]
fn turn(unclosed: &mut Unclosed, token: &Token) -> Result<bool, Stop>
    ensures { Turned token.now unclosed.old result unclosed.new }
{
    match side_of(token) {
        Side::Neither => Ok(false),
        Side::Opens(shape) => {
            unclosed.outer.push(unclosed.inner)?;
            unclosed.inner = shape;
            Ok(false)
        }
        Side::Closes(shape) => closes(unclosed, shape),
    }
}

/// The text up to the delimiter that closes one of this shape, and that delimiter.
#[tactic(auto, unfolding(em_grammar::specs::TextReader::text_in))]
fn text(
    alloc: Global,
    input: &mut Cursor<'_>,
    shape: Shape,
) -> Result<(Items<Piece>, Shared<Token>), Stop>
    ensures { Reads (spec.text_in (shape_as shape) [] [] input.old.rest.now) result input.new.rest.now }
{
    let mut unclosed = Unclosed {
        outer: Items::new(alloc),
        inner: shape,
    };
    let mut found = Items::new(alloc);
    while let [piece, rest @ ..] = input.rest {
        input.rest = rest;
        match piece {
            Piece::Group(group) => found.push(Piece::Group(group.share(alloc)?))?,
            Piece::Token(token) => {
                if turn(&mut unclosed, token)? {
                    return Ok((found, keep(alloc, token)?));
                }
                found.push(Piece::Token(token.share(alloc)?))?;
            }
        }
    }
    Err(Stop::Absent)
}

/// A text with its delimiters. Its pieces aren't copied.
pub fn delimited(alloc: Global, input: &mut Cursor<'_>) -> Result<Delimited, Stop>
    ensures { Reads (spec.delimited input.old.rest.now) result input.new.rest.now }
{
    let (start, shape) = opening(alloc, input)?;
    let (text, close) = text(alloc, input, shape)?;
    Ok(Delimited {
        open: start,
        text,
        close,
    })
}
