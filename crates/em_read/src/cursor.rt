ghost use Rattle.std.specs.Prelude.{◌≡◌, IfOk, IfErr};
ghost use Rattle.em_read.specs.declared.stop.Stop.TheVariants as Refusal;
ghost use Rattle.em_grammar.specs.Sets.{is_sign, next, tokens, only};
ghost use Rattle.em_grammar.specs.Sorts.{sort_of};
ghost use Rattle.em_grammar.specs.Reader as read;
ghost use Rattle.em_read.specs.Parse.{Reads, wants};

use crate::stop::Stop;
use em_base::Token;
use em_grammar::{Written, is_dyn, is_name, is_root, is_sign};
use em_tree::{Piece, Shared};
use std::alloc::Global;

/// The pieces that are left.
#[derive(Clone, Copy)]
pub struct Cursor<'a> {
    pub rest: &'a [Piece],
}

/// The token, for a tree to keep.
pub fn keep(alloc: Global, token: &Token) -> Result<Shared<Token>, Stop>
    ensures kept { IfOk result (λ t. t ≡ token.now) }
    ensures fails { IfErr result (λ e. e ≡ Refusal.NoMemory) }
{
    Ok(Shared::new(alloc, token.share(alloc)?)?)
}

/// The word or sign, if it is the next piece.
pub fn sign(alloc: Global, input: &mut Cursor<'_>, sign: Written) -> Result<Shared<Token>, Stop>
    ensures { Reads (read.token (is_sign sign) input.old.rest.now) result input.new.rest.now }
{
    match input.rest {
        [Piece::Token(token), rest @ ..] if is_sign(sign, token) => {
            let found = keep(alloc, token)?;
            input.rest = rest;
            Ok(found)
        }
        _ => Err(Stop::Absent),
    }
}

/// Whether the word or sign is the next piece.
pub fn stands(input: &Cursor<'_>, sign: Written) -> bool
    ensures { result ≡ next (tokens (only sign)) input.now.rest.now }
{
    match input.rest {
        [Piece::Token(token), ..] => is_sign(sign, token),
        _ => false,
    }
}

/// The word or sign, or nothing.
pub fn sign_if(
    alloc: Global,
    input: &mut Cursor<'_>,
    sign: Written,
) -> Result<Option<Shared<Token>>, Stop>
    ensures { Reads (read.opt (read.token (is_sign sign)) input.old.rest.now) result input.new.rest.now }
{
    match input.rest {
        [Piece::Token(token), rest @ ..] if is_sign(sign, token) => {
            let found = keep(alloc, token)?;
            input.rest = rest;
            Ok(Some(found))
        }
        _ => Ok(None),
    }
}

/// Tokens that no one text tells.
#[derive(Clone, Copy)]
pub enum Want {
    Name,
    /// A segment of a path.
    Root,
    /// The keyword `dyn`.
    Dyn,
}

fn is_wanted(want: Want, token: &Token) -> bool
    ensures { result ≡ wants want (sort_of token.now) }
{
    match want {
        Want::Name => is_name(token),
        Want::Root => is_root(token),
        Want::Dyn => is_dyn(token),
    }
}

/// The token, if it is the next piece.
pub fn token(alloc: Global, input: &mut Cursor<'_>, want: Want) -> Result<Shared<Token>, Stop>
    ensures { Reads (read.token (λ t. wants want (sort_of t)) input.old.rest.now) result input.new.rest.now }
{
    match input.rest {
        [Piece::Token(token), rest @ ..] if is_wanted(want, token) => {
            let found = keep(alloc, token)?;
            input.rest = rest;
            Ok(found)
        }
        _ => Err(Stop::Absent),
    }
}
