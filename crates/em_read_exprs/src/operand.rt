//! Operators before an operand, and groups (Reference, "Operator expressions" and "Borrow operators").

ghost use Rattle.std.specs.Prelude.{◌≡◌};
ghost use Rattle.em_grammar.specs.Reader.{entire};
ghost use Rattle.em_grammar.specs.PrefixReader as spec;
ghost use Rattle.em_read.specs.Parse.{Reads, ReadsHere};

use crate::inside::{Inside, Start};
use crate::operator::{Operator, read_operator};
use em_grammar::Written;
use em_read::{Cursor, Stop, sign, sign_if};
use em_tree::{Expr, FragmentKind, Piece};
use sqlite_items::Boxed;
use std::alloc::Global;

/// `-`, `!` or `*` and its operand.
pub fn unary<I: Inside>(
    alloc: Global,
    inside: &I,
    input: &mut Cursor<'_>,
    no_struct: bool,
) -> Result<Expr, Stop>
    requires { I.ready inside.now }
    ensures { Reads (spec.unary (I.readers inside.now) no_struct input.old.rest.now) result input.new.rest.now }
{
    let operator = read_operator(alloc, input, Operator::Unary)?;
    let operand = inside.expr(input, Start::Anywhere, 13, no_struct)?;
    Ok(Expr::Unary {
        operator,
        operand: Boxed::new(alloc, operand)?,
    })
}

/// `&`, maybe `mut`, and the operand.
pub fn reference<I: Inside>(
    alloc: Global,
    inside: &I,
    input: &mut Cursor<'_>,
    no_struct: bool,
) -> Result<Expr, Stop>
    requires { I.ready inside.now }
    ensures { Reads (spec.ref (I.readers inside.now) no_struct input.old.rest.now) result input.new.rest.now }
{
    let amp = sign(alloc, input, Written::And)?;
    let word_mut = sign_if(alloc, input, Written::Mut)?;
    let operand = inside.expr(input, Start::Anywhere, 13, no_struct)?;
    Ok(Expr::Ref {
        amp,
        word_mut,
        operand: Boxed::new(alloc, operand)?,
    })
}

/// `&&`, maybe `mut`, and the operand.
pub fn two_references<I: Inside>(
    alloc: Global,
    inside: &I,
    input: &mut Cursor<'_>,
    no_struct: bool,
) -> Result<Expr, Stop>
    requires { I.ready inside.now }
    ensures { Reads (spec.ref_ref (I.readers inside.now) no_struct input.old.rest.now) result input.new.rest.now }
{
    let amps = sign(alloc, input, Written::AndAnd)?;
    let word_mut = sign_if(alloc, input, Written::Mut)?;
    let operand = inside.expr(input, Start::Anywhere, 13, no_struct)?;
    Ok(Expr::RefRef {
        amps,
        word_mut,
        operand: Boxed::new(alloc, operand)?,
    })
}

/// The expression that the pieces of a group of the kind `literal` are, which are a literal.
fn literal_then<I: Inside>(inside: &I, pieces: &[Piece]) -> Result<Expr, Stop>
    requires { I.ready inside.now }
    ensures { ReadsHere (spec.literal_then (I.readers inside.now) pieces.now) result }
{
    inside.signed(pieces)?;
    inside.opened(pieces)
}

/// A group that is an operand.
pub fn operand_group<I: Inside>(
    alloc: Global,
    inside: &I,
    input: &mut Cursor<'_>,
) -> Result<Expr, Stop>
    requires { I.ready inside.now }
    ensures { Reads (spec.operand_group (I.readers inside.now) input.old.rest.now) result input.new.rest.now }
{
    let [Piece::Group(group), rest @ ..] = input.rest else {
        return Err(Stop::Absent);
    };
    let pieces = group.pieces.get().list.as_slice();
    let inner = match group.kind {
        FragmentKind::Expr => inside.opened(pieces)?,
        FragmentKind::Literal => literal_then(inside, pieces)?,
        _ => return Err(Stop::Absent),
    };
    input.rest = rest;
    Ok(Expr::Group {
        group: group.share(alloc)?,
        inner: Boxed::new(alloc, inner)?,
    })
}
