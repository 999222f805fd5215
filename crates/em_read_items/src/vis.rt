//! Visibility (Reference, "Visibility and privacy").

ghost use Rattle.std.specs.Prelude.{◌≡◌};
ghost use Rattle.em_grammar.specs.ItemReader as spec;
ghost use Rattle.em_grammar.specs.Reader as read;
ghost use Rattle.em_grammar.specs.Sets.{any_of};
ghost use Rattle.em_grammar.specs.Sorts.{sort_of};
ghost use Rattle.em_read.specs.Parse.{Reads};

use em_base::Token;
use em_grammar::{Sort, Written, sort_of};
use em_read::{Cursor, Stop, keep, sign};
use em_tree::{Piece, Shared, Vis, VisScope};
use std::alloc::Global;

fn is_scope(token: &Token) -> bool
    ensures { result ≡ any_of spec.scopes (sort_of token.now) }
{
    match sort_of(token) {
        Sort::Written(word) => matches!(word, Written::Crate | Written::SelfValue | Written::Super),
        _ => false,
    }
}

fn scope_module(alloc: Global, input: &mut Cursor<'_>) -> Result<Shared<Token>, Stop>
    ensures { Reads (read.token (λ t. any_of spec.scopes (sort_of t)) input.old.rest.now) result input.new.rest.now }
{
    match input.rest {
        [Piece::Token(token), rest @ ..] if is_scope(token) => {
            let found = keep(alloc, token)?;
            input.rest = rest;
            Ok(found)
        }
        _ => Err(Stop::Absent),
    }
}

fn scope(alloc: Global, input: &mut Cursor<'_>) -> Result<VisScope, Stop>
    ensures { Reads (spec.scope input.old.rest.now) result input.new.rest.now }
{
    let open = sign(alloc, input, Written::OpenParen)?;
    let module = scope_module(alloc, input)?;
    let close = sign(alloc, input, Written::CloseParen)?;
    Ok(VisScope {
        open,
        module,
        close,
    })
}

fn scope_if(alloc: Global, input: &mut Cursor<'_>) -> Result<Option<VisScope>, Stop>
    ensures { Reads (read.opt spec.scope input.old.rest.now) result input.new.rest.now }
{
    let start = input.rest;
    match scope(alloc, input) {
        Ok(scope) => Ok(Some(scope)),
        Err(Stop::Absent) => {
            input.rest = start;
            Ok(None)
        }
        Err(stop) => Err(stop),
    }
}

fn vis(alloc: Global, input: &mut Cursor<'_>) -> Result<Vis, Stop>
    ensures { Reads (spec.vis input.old.rest.now) result input.new.rest.now }
{
    let word = sign(alloc, input, Written::Pub)?;
    let scope = scope_if(alloc, input)?;
    Ok(Vis { word, scope })
}

/// A visibility, or nothing.
pub fn vis_if(alloc: Global, input: &mut Cursor<'_>) -> Result<Option<Vis>, Stop>
    ensures { Reads (read.opt spec.vis input.old.rest.now) result input.new.rest.now }
{
    let start = input.rest;
    match vis(alloc, input) {
        Ok(vis) => Ok(Some(vis)),
        Err(Stop::Absent) => {
            input.rest = start;
            Ok(None)
        }
        Err(stop) => Err(stop),
    }
}
