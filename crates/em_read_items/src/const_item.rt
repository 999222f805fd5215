//! Constants (Reference, "Constant items").

ghost use Rattle.std.specs.Prelude.{◌≡◌, IfOk, IfErr};
ghost use Rattle.em_grammar.specs.ItemReader as spec;
ghost use Rattle.em_grammar.specs.LiteralReader.{signed_in};
ghost use Rattle.em_read.specs.declared.stop.Stop.TheVariants as Refusal;
ghost use Rattle.em_read.specs.Parse.{Reads};
ghost use Rattle.em_read_items.specs.Items as part;

use crate::parts::Parts;
use em_base::Token;
use em_grammar::Written;
use em_read::{Cursor, Stop, Want, sign, signed, token};
use em_tree::{Item, ItemBody, Literal, Shared, TypeTree};
use sqlite_items::Boxed;
use std::alloc::Global;

/// The `=`, the value, and the `;`.
type ConstValue = (Shared<Token>, (Literal, Shared<Token>));

/// A literal with or without a sign.
fn literal<P: Parts>(alloc: Global, parts: &P, input: &mut Cursor<'_>) -> Result<Literal, Stop>
    requires { P.ready parts.now }
    ensures { Reads (signed_in (P.inner parts.now).nested input.old.rest.now) result input.new.rest.now }
{
    signed(alloc, input, parts.groups())
}

/// A literal between `=` and `;`.
fn const_value<P: Parts>(
    alloc: Global,
    parts: &P,
    input: &mut Cursor<'_>,
) -> Result<ConstValue, Stop>
    requires { P.ready parts.now }
    ensures { Reads (part.const_value (P.inner parts.now).nested input.old.rest.now) result input.new.rest.now }
{
    let equals = sign(alloc, input, Written::Eq)?;
    let value = literal(alloc, parts, input)?;
    let semi = sign(alloc, input, Written::Semi)?;
    Ok((equals, (value, semi)))
}

/// The type and the value.
fn typed_value<P: Parts>(
    alloc: Global,
    parts: &P,
    input: &mut Cursor<'_>,
) -> Result<(TypeTree, ConstValue), Stop>
    requires { P.ready parts.now }
    ensures { Reads (part.typed_value (P.inner parts.now).types (P.inner parts.now).nested input.old.rest.now) result input.new.rest.now }
{
    let ty = parts.ty(input)?;
    let value = const_value(alloc, parts, input)?;
    Ok((ty, value))
}

/// The constant of these parts.
fn const_with(
    alloc: Global,
    word: Shared<Token>,
    name: Shared<Token>,
    colon: Shared<Token>,
    typed: (TypeTree, ConstValue),
) -> Result<ItemBody<Item>, Stop>
    ensures made { IfOk result (λ y. y ≡ spec.const_of (word, (name, (colon, typed)))) }
    ensures fails { IfErr result (λ e. e ≡ Refusal.NoMemory) }
{
    let (ty, (equals, (value, semi))) = typed;
    let ty = Boxed::new(alloc, ty)?;
    Ok(ItemBody::Const {
        word,
        name,
        colon,
        ty,
        equals,
        value,
        semi,
    })
}

pub fn const_item<P: Parts>(
    alloc: Global,
    parts: &P,
    input: &mut Cursor<'_>,
) -> Result<ItemBody<Item>, Stop>
    requires { P.ready parts.now }
    ensures { Reads (spec.const_item (P.inner parts.now).types (P.inner parts.now).nested input.old.rest.now) result input.new.rest.now }
{
    let word = sign(alloc, input, Written::Const)?;
    let name = token(alloc, input, Want::Name)?;
    let colon = sign(alloc, input, Written::Colon)?;
    let typed = typed_value(alloc, parts, input)?;
    let found = const_with(alloc, word, name, colon, typed)?;
    Ok(found)
}
