//! Structs and enums (Reference, "Structs" and "Enumerations").

ghost use Rattle.em_grammar.specs.ItemReader as spec;
ghost use Rattle.em_grammar.specs.Reader as read;
ghost use Rattle.em_read.specs.Parse.{Reads};
ghost use Rattle.em_read_items.specs.Items as part;

use crate::parts::Parts;
use crate::vis::vis_if;
use em_grammar::Written;
use em_read::{Cursor, Stop, Want, list_of, sign, stands, token};
use em_tree::{
    FieldDecl, Item, ItemBody, Listed, StructFields, TupleDecl, TypeTree, VariantDecl,
    VariantField, VariantFields,
};
use sqlite_items::Items;
use std::alloc::Global;

fn field<P: Parts>(alloc: Global, parts: &P, input: &mut Cursor<'_>) -> Result<FieldDecl, Stop>
    requires { P.ready parts.now }
    ensures { Reads (spec.field (P.inner parts.now).types input.old.rest.now) result input.new.rest.now }
{
    let vis = vis_if(alloc, input)?;
    let name = token(alloc, input, Want::Name)?;
    let colon = sign(alloc, input, Written::Colon)?;
    let ty = parts.ty(input)?;
    Ok(FieldDecl {
        vis,
        name,
        colon,
        ty,
    })
}

fn tuple_field<P: Parts>(
    alloc: Global,
    parts: &P,
    input: &mut Cursor<'_>,
) -> Result<TupleDecl, Stop>
    requires { P.ready parts.now }
    ensures { Reads (spec.tuple_field (P.inner parts.now).types input.old.rest.now) result input.new.rest.now }
{
    let vis = vis_if(alloc, input)?;
    let ty = parts.ty(input)?;
    Ok(TupleDecl { vis, ty })
}

fn field_list<P: Parts>(
    alloc: Global,
    parts: &P,
    input: &mut Cursor<'_>,
) -> Result<Items<Listed<FieldDecl>>, Stop>
    requires { P.ready parts.now }
    ensures { Reads (read.list_of (spec.field (P.inner parts.now).types) input.old.rest.now) result input.new.rest.now }
{
    list_of(alloc, input, |input| field(alloc, parts, input))
}

fn named_fields<P: Parts>(
    alloc: Global,
    parts: &P,
    input: &mut Cursor<'_>,
) -> Result<StructFields, Stop>
    requires { P.ready parts.now }
    ensures { Reads (part.named_fields (P.inner parts.now).types input.old.rest.now) result input.new.rest.now }
{
    let open = sign(alloc, input, Written::OpenBrace)?;
    let fields = field_list(alloc, parts, input)?;
    let close = sign(alloc, input, Written::CloseBrace)?;
    Ok(StructFields::Named {
        open,
        fields,
        close,
    })
}

fn tuple_list<P: Parts>(
    alloc: Global,
    parts: &P,
    input: &mut Cursor<'_>,
) -> Result<Items<Listed<TupleDecl>>, Stop>
    requires { P.ready parts.now }
    ensures { Reads (read.list_of (spec.tuple_field (P.inner parts.now).types) input.old.rest.now) result input.new.rest.now }
{
    list_of(alloc, input, |input| tuple_field(alloc, parts, input))
}

fn tuple_fields<P: Parts>(
    alloc: Global,
    parts: &P,
    input: &mut Cursor<'_>,
) -> Result<StructFields, Stop>
    requires { P.ready parts.now }
    ensures { Reads (part.tuple_fields (P.inner parts.now).types input.old.rest.now) result input.new.rest.now }
{
    let open = sign(alloc, input, Written::OpenParen)?;
    let fields = tuple_list(alloc, parts, input)?;
    let close = sign(alloc, input, Written::CloseParen)?;
    let semi = sign(alloc, input, Written::Semi)?;
    Ok(StructFields::Tuple {
        open,
        fields,
        close,
        semi,
    })
}

fn fields<P: Parts>(alloc: Global, parts: &P, input: &mut Cursor<'_>) -> Result<StructFields, Stop>
    requires { P.ready parts.now }
    ensures { Reads (spec.fields (P.inner parts.now).types input.old.rest.now) result input.new.rest.now }
{
    if stands(input, Written::Semi) {
        let semi = sign(alloc, input, Written::Semi)?;
        return Ok(StructFields::Unit { semi });
    }
    if stands(input, Written::OpenBrace) {
        return named_fields(alloc, parts, input);
    }
    tuple_fields(alloc, parts, input)
}

pub fn struct_item<P: Parts>(
    alloc: Global,
    parts: &P,
    input: &mut Cursor<'_>,
) -> Result<ItemBody<Item>, Stop>
    requires { P.ready parts.now }
    ensures { Reads (spec.struct_item (P.inner parts.now).types input.old.rest.now) result input.new.rest.now }
{
    let word = sign(alloc, input, Written::Struct)?;
    let name = token(alloc, input, Want::Name)?;
    let fields = fields(alloc, parts, input)?;
    Ok(ItemBody::Struct { word, name, fields })
}

fn variant_field<P: Parts>(
    alloc: Global,
    parts: &P,
    input: &mut Cursor<'_>,
) -> Result<VariantField, Stop>
    requires { P.ready parts.now }
    ensures { Reads (spec.variant_field (P.inner parts.now).types input.old.rest.now) result input.new.rest.now }
{
    let name = token(alloc, input, Want::Name)?;
    let colon = sign(alloc, input, Written::Colon)?;
    let ty = parts.ty(input)?;
    Ok(VariantField { name, colon, ty })
}

fn type_list<P: Parts>(
    alloc: Global,
    parts: &P,
    input: &mut Cursor<'_>,
) -> Result<Items<Listed<TypeTree>>, Stop>
    requires { P.ready parts.now }
    ensures { Reads (read.list_of (P.inner parts.now).types input.old.rest.now) result input.new.rest.now }
{
    list_of(alloc, input, |input| parts.ty(input))
}

fn tuple_variant<P: Parts>(
    alloc: Global,
    parts: &P,
    input: &mut Cursor<'_>,
) -> Result<VariantFields, Stop>
    requires { P.ready parts.now }
    ensures { Reads (part.tuple_variant (P.inner parts.now).types input.old.rest.now) result input.new.rest.now }
{
    let open = sign(alloc, input, Written::OpenParen)?;
    let fields = type_list(alloc, parts, input)?;
    let close = sign(alloc, input, Written::CloseParen)?;
    Ok(VariantFields::Tuple {
        open,
        fields,
        close,
    })
}

fn variant_field_list<P: Parts>(
    alloc: Global,
    parts: &P,
    input: &mut Cursor<'_>,
) -> Result<Items<Listed<VariantField>>, Stop>
    requires { P.ready parts.now }
    ensures { Reads (read.list_of (spec.variant_field (P.inner parts.now).types) input.old.rest.now) result input.new.rest.now }
{
    list_of(alloc, input, |input| variant_field(alloc, parts, input))
}

fn named_variant<P: Parts>(
    alloc: Global,
    parts: &P,
    input: &mut Cursor<'_>,
) -> Result<VariantFields, Stop>
    requires { P.ready parts.now }
    ensures { Reads (part.named_variant (P.inner parts.now).types input.old.rest.now) result input.new.rest.now }
{
    let open = sign(alloc, input, Written::OpenBrace)?;
    let fields = variant_field_list(alloc, parts, input)?;
    let close = sign(alloc, input, Written::CloseBrace)?;
    Ok(VariantFields::Named {
        open,
        fields,
        close,
    })
}

/// What is written behind the name of a variant.
fn written_fields<P: Parts>(
    alloc: Global,
    parts: &P,
    input: &mut Cursor<'_>,
) -> Result<VariantFields, Stop>
    requires { P.ready parts.now }
    ensures { Reads (part.written_fields (P.inner parts.now).types input.old.rest.now) result input.new.rest.now }
{
    if stands(input, Written::OpenParen) {
        return tuple_variant(alloc, parts, input);
    }
    named_variant(alloc, parts, input)
}

fn variant_body<P: Parts>(
    alloc: Global,
    parts: &P,
    input: &mut Cursor<'_>,
) -> Result<VariantFields, Stop>
    requires { P.ready parts.now }
    ensures { Reads (spec.variant_body (P.inner parts.now).types input.old.rest.now) result input.new.rest.now }
{
    let start = input.rest;
    match written_fields(alloc, parts, input) {
        Ok(fields) => Ok(fields),
        Err(Stop::Absent) => {
            input.rest = start;
            Ok(VariantFields::Unit)
        }
        Err(stop) => Err(stop),
    }
}

fn variant<P: Parts>(alloc: Global, parts: &P, input: &mut Cursor<'_>) -> Result<VariantDecl, Stop>
    requires { P.ready parts.now }
    ensures { Reads (spec.variant (P.inner parts.now).types input.old.rest.now) result input.new.rest.now }
{
    let name = token(alloc, input, Want::Name)?;
    let fields = variant_body(alloc, parts, input)?;
    Ok(VariantDecl { name, fields })
}

fn variant_list<P: Parts>(
    alloc: Global,
    parts: &P,
    input: &mut Cursor<'_>,
) -> Result<Items<Listed<VariantDecl>>, Stop>
    requires { P.ready parts.now }
    ensures { Reads (read.list_of (spec.variant (P.inner parts.now).types) input.old.rest.now) result input.new.rest.now }
{
    list_of(alloc, input, |input| variant(alloc, parts, input))
}

pub fn enum_item<P: Parts>(
    alloc: Global,
    parts: &P,
    input: &mut Cursor<'_>,
) -> Result<ItemBody<Item>, Stop>
    requires { P.ready parts.now }
    ensures { Reads (spec.enum_item (P.inner parts.now).types input.old.rest.now) result input.new.rest.now }
{
    let word = sign(alloc, input, Written::Enum)?;
    let name = token(alloc, input, Want::Name)?;
    let open = sign(alloc, input, Written::OpenBrace)?;
    let variants = variant_list(alloc, parts, input)?;
    let close = sign(alloc, input, Written::CloseBrace)?;
    Ok(ItemBody::Enum {
        word,
        name,
        open,
        variants,
        close,
    })
}
