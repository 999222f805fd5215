//! What stands between brackets (Reference, "Array and array index expressions").

ghost use Rattle.std.specs.Prelude.{◌≡◌};
ghost use Rattle.em_grammar.specs.declared.sort.Written.TheVariants as word;
ghost use Rattle.em_grammar.specs.Sets.{is_sign};
ghost use Rattle.em_grammar.specs.Reader as read;
ghost use Rattle.em_grammar.specs.PrefixReader as spec;
ghost use Rattle.em_read.specs.Parse.{Reads};
ghost use Rattle.em_read_exprs.specs.Exprs.{given, Single};

use crate::inside::Inside;
use crate::suffix::list;
use em_base::Token;
use em_grammar::Written;
use em_read::{Cursor, Stop, sign, stands};
use em_tree::{Expr, Listed, Shared};
use sqlite_items::{Boxed, Items};
use std::alloc::Global;

fn is_single(list: &Items<Listed<Expr>>) -> bool
    ensures { result ≡ spec.is_single list.now }
{
    match list.as_slice() {
        [only] => only.comma.is_none(),
        _ => false,
    }
}

/// The one expression of a list, if it has no comma behind it.
#[tactic(auto, using(crate::proofs::Singles::single_last))]
fn single(mut list: Items<Listed<Expr>>) -> Option<Expr>
    ensures { Single list result }
{
    if !is_single(&list) {
        return None;
    }
    match list.pop() {
        Some(only) => Some(only.item),
        None => None,
    }
}

/// The rest of an array of one expression a number of times.
fn repeat<I: Inside>(
    alloc: Global,
    inside: &I,
    input: &mut Cursor<'_>,
    start: Shared<Token>,
    list: Items<Listed<Expr>>,
) -> Result<Expr, Stop>
    requires { I.ready inside.now }
    ensures { Reads (read.mapped spec.bracket_of (read.seq (given start) (read.seq (given list) (read.when (spec.is_single list) (read.mapped spec.Times (read.seq (read.token (is_sign word.Semi)) (read.seq (I.readers inside.now).int (read.token (is_sign word.CloseBracket)))))))) input.old.rest.now) result input.new.rest.now }
{
    let Some(element) = single(list) else {
        return Err(Stop::Absent);
    };
    let semi = sign(alloc, input, Written::Semi)?;
    let length = inside.int(input)?;
    let close = sign(alloc, input, Written::CloseBracket)?;
    Ok(Expr::Repeat {
        open: start,
        element: Boxed::new(alloc, element)?,
        semi,
        length,
        close,
    })
}

/// An array of its elements, or of one a number of times.
pub fn bracket<I: Inside>(alloc: Global, inside: &I, input: &mut Cursor<'_>) -> Result<Expr, Stop>
    requires { I.ready inside.now }
    ensures { Reads (spec.bracket (I.readers inside.now) input.old.rest.now) result input.new.rest.now }
{
    let start = sign(alloc, input, Written::OpenBracket)?;
    let elements = list(alloc, inside, input)?;
    if stands(input, Written::Semi) {
        return repeat(alloc, inside, input, start, elements);
    }
    let close = sign(alloc, input, Written::CloseBracket)?;
    Ok(Expr::Array {
        open: start,
        elements,
        close,
    })
}
