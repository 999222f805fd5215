//! Attributes (Reference, "Attributes").

ghost use Rattle.std.specs.Prelude.{◌≡◌};
ghost use Rattle.em_tree.specs.ItemGrammar as grammar;
ghost use Rattle.em_tree.specs.Starts as start;
ghost use Rattle.em_grammar.specs.ItemReader as spec;
ghost use Rattle.em_grammar.specs.Reader as read;
ghost use Rattle.em_read.specs.Parse.{Reads};
ghost use Rattle.em_read_items.specs.Items as part;

use em_base::Token;
use em_grammar::Written;
use em_read::{Allowed, Cursor, Stop, all_of, delimited, is_spelled, keep, sign, stands, unsigned};
use em_tree::{Attribute, FileAttribute, Meta, MetaInput, Piece, Shared};
use sqlite_items::Items;
use std::alloc::Global;

/// `= 'literal'` behind the name of an attribute.
fn value(alloc: Global, input: &mut Cursor<'_>, groups: usize) -> Result<MetaInput, Stop>
    ensures { Reads (part.value groups input.old.rest.now) result input.new.rest.now }
{
    let equals = sign(alloc, input, Written::Eq)?;
    let literal = unsigned(alloc, input, Allowed::All, groups)?;
    Ok(MetaInput::Value { equals, literal })
}

/// What is written behind the name of an attribute.
fn written_input(alloc: Global, input: &mut Cursor<'_>, groups: usize) -> Result<MetaInput, Stop>
    ensures { Reads (part.written_input groups input.old.rest.now) result input.new.rest.now }
{
    if stands(input, Written::OpenParen) {
        let text = delimited(alloc, input)?;
        return Ok(MetaInput::List(text));
    }
    value(alloc, input, groups)
}

fn meta_input(alloc: Global, input: &mut Cursor<'_>, groups: usize) -> Result<MetaInput, Stop>
    ensures { Reads (spec.meta_input groups input.old.rest.now) result input.new.rest.now }
{
    let start = input.rest;
    match written_input(alloc, input, groups) {
        Ok(found) => Ok(found),
        Err(Stop::Absent) => {
            input.rest = start;
            Ok(MetaInput::Nothing)
        }
        Err(stop) => Err(stop),
    }
}

/// Whether the token names an attribute of the profile.
fn is_attribute(token: &Token) -> bool
    ensures { result ≡ start.is_spelled grammar.attributes token.now }
{
    is_spelled(
        token,
        &[
            "allow",
            "warn",
            "deny",
            "forbid",
            "doc",
            "inline",
            "must_use",
            "derive",
            "macro_use",
            "macro_export",
        ],
    )
}

fn attribute_name(alloc: Global, input: &mut Cursor<'_>) -> Result<Shared<Token>, Stop>
    ensures { Reads (read.token spec.is_attribute input.old.rest.now) result input.new.rest.now }
{
    match input.rest {
        [Piece::Token(token), rest @ ..] if is_attribute(token) => {
            let found = keep(alloc, token)?;
            input.rest = rest;
            Ok(found)
        }
        _ => Err(Stop::Absent),
    }
}

fn meta(alloc: Global, input: &mut Cursor<'_>, groups: usize) -> Result<Meta, Stop>
    ensures { Reads (spec.meta groups input.old.rest.now) result input.new.rest.now }
{
    let name = attribute_name(alloc, input)?;
    let found = meta_input(alloc, input, groups)?;
    Ok(Meta { name, input: found })
}

fn attribute(alloc: Global, input: &mut Cursor<'_>, groups: usize) -> Result<Attribute, Stop>
    ensures { Reads (spec.attribute groups input.old.rest.now) result input.new.rest.now }
{
    let hash = sign(alloc, input, Written::Pound)?;
    let open = sign(alloc, input, Written::OpenBracket)?;
    let meta = meta(alloc, input, groups)?;
    let close = sign(alloc, input, Written::CloseBracket)?;
    Ok(Attribute {
        hash,
        open,
        meta,
        close,
    })
}

pub fn attributes(
    alloc: Global,
    input: &mut Cursor<'_>,
    groups: usize,
) -> Result<Items<Attribute>, Stop>
    ensures { Reads (read.all_of (spec.attribute groups) input.old.rest.now) result input.new.rest.now }
{
    all_of(alloc, input, |input| attribute(alloc, input, groups))
}

pub fn file_attribute(
    alloc: Global,
    input: &mut Cursor<'_>,
    groups: usize,
) -> Result<FileAttribute, Stop>
    ensures { Reads (spec.file_attribute groups input.old.rest.now) result input.new.rest.now }
{
    let hash = sign(alloc, input, Written::Pound)?;
    let bang = sign(alloc, input, Written::Not)?;
    let open = sign(alloc, input, Written::OpenBracket)?;
    let meta = meta(alloc, input, groups)?;
    let close = sign(alloc, input, Written::CloseBracket)?;
    Ok(FileAttribute {
        hash,
        bang,
        open,
        meta,
        close,
    })
}
