//! The places of an item's first and last piece.

ghost use Rattle.std.specs.Prelude.{◌≡◌, ◌++◌, Some};
ghost use Rattle.em_tree.specs.Parts.{attribute_parts, delimited_parts, each, item_body_parts, item_parts, maybe, struct_fields_parts, vis_parts};
ghost use Rattle.em_tree.specs.Yields.{piece, whole, as_it_is, first_of, last_of};

use crate::first::first_macro_call;
use crate::item::{Attribute, Item, ItemBody, StructFields, Vis};
use crate::last::{last_block, last_macro_call, last_or};
use crate::piece::Delimited;
use em_base::Span;

fn first_item_body(tree: &ItemBody<Item>) -> Span
    ensures { first_of (item_body_parts piece whole as_it_is (item_parts piece whole as_it_is) tree.now) ≡ Some result }
{
    match tree {
        ItemBody::ExternCrate { word, .. } => word.get().span,
        ItemBody::Use { word, .. } => word.get().span,
        ItemBody::UseList { word, .. } => word.get().span,
        ItemBody::ModFile { word, .. } => word.get().span,
        ItemBody::ModBlock { word, .. } => word.get().span,
        ItemBody::Fn { sig, .. } => sig.get().word.get().span,
        ItemBody::Struct { word, .. } => word.get().span,
        ItemBody::Enum { word, .. } => word.get().span,
        ItemBody::Trait { word, .. } => word.get().span,
        ItemBody::Impl { word, .. } => word.get().span,
        ItemBody::Const { word, .. } => word.get().span,
        ItemBody::Rules { word, .. } => word.get().span,
        ItemBody::Macro { call, .. } => first_macro_call(call),
    }
}

/// The first piece of an item that is no fragment.
fn first_plain(attributes: &[Attribute], vis: &Option<Vis>, body: &ItemBody<Item>) -> Span
    ensures { first_of (each (attribute_parts piece whole as_it_is) attributes.now ++ (maybe (vis_parts piece whole as_it_is) vis.now ++ item_body_parts piece whole as_it_is (item_parts piece whole as_it_is) body.now)) ≡ Some result }
{
    match (attributes.first(), vis) {
        (Some(attribute), _) => attribute.hash.get().span,
        (None, Some(vis)) => vis.word.get().span,
        (None, None) => first_item_body(body),
    }
}

#[tactic(auto, using(crate::proofs::Edges::first_item_plain, crate::proofs::Edges::first_item_group))]
pub(crate) fn first_item(tree: &Item) -> Span
    ensures { first_of (item_parts piece whole as_it_is tree.now) ≡ Some result }
{
    match tree {
        Item::Plain {
            attributes,
            vis,
            body,
        } => first_plain(attributes.as_slice(), vis, body),
        Item::Group { group, .. } => group.outer,
    }
}

#[tactic(auto, using(crate::proofs::Ends::last_struct_fields_named, crate::proofs::Ends::last_struct_fields_tuple, crate::proofs::Ends::last_struct_fields_unit))]
fn last_struct_fields(tree: &StructFields) -> Span
    ensures { last_of (struct_fields_parts piece whole as_it_is tree.now) ≡ Some result }
{
    match tree {
        StructFields::Unit { semi } => semi.get().span,
        StructFields::Named { close, .. } => close.get().span,
        StructFields::Tuple { semi, .. } => semi.get().span,
    }
}

#[tactic(auto, using(crate::proofs::Ends::last_delimited))]
fn last_delimited(tree: &Delimited) -> Span
    ensures { last_of (delimited_parts piece whole as_it_is tree.now) ≡ Some result }
{
    tree.close.get().span
}

#[tactic(auto, using(crate::proofs::Ends::last_item_body_const, crate::proofs::Ends::last_item_body_enum, crate::proofs::Ends::last_item_body_extern_crate, crate::proofs::Ends::last_item_body_fn, crate::proofs::Ends::last_item_body_impl, crate::proofs::Ends::last_item_body_macro, crate::proofs::Ends::last_item_body_mod_block, crate::proofs::Ends::last_item_body_mod_file, crate::proofs::Ends::last_item_body_rules, crate::proofs::Ends::last_item_body_struct, crate::proofs::Ends::last_item_body_trait, crate::proofs::Ends::last_item_body_use, crate::proofs::Ends::last_item_body_use_list))]
fn last_item_body(tree: &ItemBody<Item>) -> Span
    ensures { last_of (item_body_parts piece whole as_it_is (item_parts piece whole as_it_is) tree.now) ≡ Some result }
{
    match tree {
        ItemBody::ExternCrate { semi, .. } => semi.get().span,
        ItemBody::Use { semi, .. } => semi.get().span,
        ItemBody::UseList { semi, .. } => semi.get().span,
        ItemBody::ModFile { semi, .. } => semi.get().span,
        ItemBody::ModBlock { close, .. } => close.get().span,
        ItemBody::Fn { body, .. } => last_block(body.get()),
        ItemBody::Struct { fields, .. } => last_struct_fields(fields),
        ItemBody::Enum { close, .. } => close.get().span,
        ItemBody::Trait { close, .. } => close.get().span,
        ItemBody::Impl { close, .. } => close.get().span,
        ItemBody::Const { semi, .. } => semi.get().span,
        ItemBody::Rules { text, semi, .. } => last_or(semi, last_delimited(text)),
        ItemBody::Macro { call, semi } => last_or(semi, last_macro_call(call)),
    }
}

#[tactic(auto, using(crate::proofs::Edges::last_item_plain, crate::proofs::Edges::last_item_group))]
pub(crate) fn last_item(tree: &Item) -> Span
    ensures { last_of (item_parts piece whole as_it_is tree.now) ≡ Some result }
{
    match tree {
        Item::Plain { body, .. } => last_item_body(body),
        Item::Group { group, .. } => group.outer,
    }
}
