//! Imports (Reference, "Extern crate declarations" and "Use declarations").

ghost use Rattle.std.specs.Prelude.{◌≡◌};
ghost use Rattle.em_grammar.specs.ItemReader as spec;
ghost use Rattle.em_grammar.specs.Reader as read;
ghost use Rattle.em_grammar.specs.Sets.{next, either};
ghost use Rattle.em_grammar.specs.Sorts.{sort_of};
ghost use Rattle.em_grammar.specs.declared.sort.Written.TheVariants as word;
ghost use Rattle.em_read.specs.Parse.{Reads};

use em_base::Token;
use em_grammar::{Written, is_name, is_sign};
use em_read::{Cursor, Stop, Want, keep, list_of, sign, token};
use em_tree::{Item, ItemBody, Listed, Piece, Rename, Shared, UseName};
use sqlite_items::Items;
use std::alloc::Global;

fn rename(alloc: Global, input: &mut Cursor<'_>) -> Result<Rename, Stop>
    ensures { Reads (spec.rename input.old.rest.now) result input.new.rest.now }
{
    let word = sign(alloc, input, Written::As)?;
    let name = token(alloc, input, Want::Name)?;
    Ok(Rename { word, name })
}

pub fn rename_if(alloc: Global, input: &mut Cursor<'_>) -> Result<Option<Rename>, Stop>
    ensures { Reads (read.opt spec.rename input.old.rest.now) result input.new.rest.now }
{
    let start = input.rest;
    match rename(alloc, input) {
        Ok(rename) => Ok(Some(rename)),
        Err(Stop::Absent) => {
            input.rest = start;
            Ok(None)
        }
        Err(stop) => Err(stop),
    }
}

fn is_imported(token: &Token) -> bool
    ensures { result ≡ spec.use_sort (sort_of token.now) }
{
    is_name(token) || is_sign(Written::SelfValue, token)
}

fn imported(alloc: Global, input: &mut Cursor<'_>) -> Result<Shared<Token>, Stop>
    ensures { Reads (read.token (λ t. spec.use_sort (sort_of t)) input.old.rest.now) result input.new.rest.now }
{
    match input.rest {
        [Piece::Token(token), rest @ ..] if is_imported(token) => {
            let found = keep(alloc, token)?;
            input.rest = rest;
            Ok(found)
        }
        _ => Err(Stop::Absent),
    }
}

fn use_name(alloc: Global, input: &mut Cursor<'_>) -> Result<UseName, Stop>
    ensures { Reads (spec.use_name input.old.rest.now) result input.new.rest.now }
{
    let name = imported(alloc, input)?;
    let rename = rename_if(alloc, input)?;
    Ok(UseName { name, rename })
}

pub fn extern_crate(alloc: Global, input: &mut Cursor<'_>) -> Result<ItemBody<Item>, Stop>
    ensures { Reads (spec.extern_crate input.old.rest.now) result input.new.rest.now }
{
    let word = sign(alloc, input, Written::Extern)?;
    let word_crate = sign(alloc, input, Written::Crate)?;
    let name = token(alloc, input, Want::Name)?;
    let rename = rename_if(alloc, input)?;
    let semi = sign(alloc, input, Written::Semi)?;
    Ok(ItemBody::ExternCrate {
        word,
        word_crate,
        name,
        rename,
        semi,
    })
}

/// Whether the path of an import ends here.
pub fn path_ends(input: &Cursor<'_>) -> bool
    ensures { result ≡ next (either (spec.at word.As) (spec.at word.Semi)) input.now.rest.now }
{
    match input.rest {
        [Piece::Token(token), ..] => {
            is_sign(Written::As, token) || is_sign(Written::Semi, token)
        }
        _ => false,
    }
}

pub fn use_names(alloc: Global, input: &mut Cursor<'_>) -> Result<Items<Listed<UseName>>, Stop>
    ensures { Reads (read.list_of spec.use_name input.old.rest.now) result input.new.rest.now }
{
    list_of(alloc, input, |input| use_name(alloc, input))
}
