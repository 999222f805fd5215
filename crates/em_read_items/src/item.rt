//! Items (Reference, "Items").

ghost use Rattle.std.specs.Prelude.{◌≡◌};
ghost use Rattle.em_grammar.specs.ItemReader as spec;
ghost use Rattle.em_grammar.specs.Reader as read;
ghost use Rattle.em_grammar.specs.Sets.{next};
ghost use Rattle.em_read.specs.Parse.{Reads};
ghost use Rattle.em_read_items.specs.Items as part;

use crate::attribute::attributes;
use crate::const_item::const_item;
use crate::data::{enum_item, struct_item};
use crate::fn_item::fn_item;
use crate::impl_item::impl_item;
use crate::import::extern_crate;
use crate::macro_item::{is_macro, macro_item};
use crate::mod_item::mod_item;
use crate::parts::Parts;
use crate::trait_item::trait_item;
use crate::use_item::use_item;
use crate::vis::vis_if;
use em_base::Token;
use em_grammar::{Sort, Written, sort_of};
use em_read::{Cursor, Stop, stands};
use em_tree::{Attribute, FragmentKind, Item, ItemBody, Piece};
use sqlite_items::{Boxed, Items};
use std::alloc::Global;

/// Whether an item that is no fragment begins here.
pub fn starts_plain_item(input: &Cursor<'_>) -> bool
    ensures { result ≡ next spec.plain_start input.now.rest.now }
{
    match input.rest {
        [Piece::Token(token), ..] => match sort_of(token) {
            Sort::Written(word) => matches!(
                word,
                Written::Pound
                    | Written::Pub
                    | Written::Extern
                    | Written::Use
                    | Written::Mod
                    | Written::Fn
                    | Written::Struct
                    | Written::Enum
                    | Written::Trait
                    | Written::Impl
                    | Written::Const
            ),
            _ => is_macro(token),
        },
        _ => false,
    }
}

/// Whether an item begins here.
pub fn starts_item(input: &Cursor<'_>) -> bool
    ensures { result ≡ next spec.item_start input.now.rest.now }
{
    match input.rest {
        [Piece::Group(group), ..] => group.kind == FragmentKind::Item,
        _ => starts_plain_item(input),
    }
}

/// An item without its attributes and its visibility, by its first piece.
#[tactic(auto, unfolding(em_grammar::specs::ItemReader::item_body))]
fn item_body<P: Parts>(
    alloc: Global,
    parts: &P,
    input: &mut Cursor<'_>,
) -> Result<ItemBody<Item>, Stop>
    requires { P.ready parts.now }
    ensures { Reads (spec.item_body (P.inner parts.now) input.old.rest.now) result input.new.rest.now }
{
    if stands(input, Written::Extern) {
        return extern_crate(alloc, input);
    }
    if stands(input, Written::Use) {
        return use_item(alloc, input);
    }
    if stands(input, Written::Mod) {
        return mod_item(alloc, parts, input);
    }
    if stands(input, Written::Fn) {
        return fn_item(alloc, parts, input);
    }
    if stands(input, Written::Struct) {
        return struct_item(alloc, parts, input);
    }
    if stands(input, Written::Enum) {
        return enum_item(alloc, parts, input);
    }
    if stands(input, Written::Trait) {
        return trait_item(alloc, parts, input);
    }
    if stands(input, Written::Impl) {
        return impl_item(alloc, parts, input);
    }
    if stands(input, Written::Const) {
        return const_item(alloc, parts, input);
    }
    macro_item(alloc, input)
}

/// The attributes of an item.
fn item_attributes<P: Parts>(
    alloc: Global,
    parts: &P,
    input: &mut Cursor<'_>,
) -> Result<Items<Attribute>, Stop>
    requires { P.ready parts.now }
    ensures { Reads (read.all_of (spec.attribute (P.inner parts.now).nested) input.old.rest.now) result input.new.rest.now }
{
    attributes(alloc, input, parts.groups())
}

/// An item that is no fragment.
fn plain_item<P: Parts>(alloc: Global, parts: &P, input: &mut Cursor<'_>) -> Result<Item, Stop>
    requires { P.ready parts.now }
    ensures { Reads (part.plain_item (P.inner parts.now) input.old.rest.now) result input.new.rest.now }
{
    let attributes = item_attributes(alloc, parts, input)?;
    let vis = vis_if(alloc, input)?;
    let body = item_body(alloc, parts, input)?;
    Ok(Item::Plain {
        attributes,
        vis,
        body,
    })
}

/// A fragment that is an item.
fn item_group<P: Parts>(alloc: Global, parts: &P, input: &mut Cursor<'_>) -> Result<Item, Stop>
    requires { P.ready parts.now }
    ensures { Reads (part.item_group (P.opens parts.now) input.old.rest.now) result input.new.rest.now }
{
    match input.rest {
        [Piece::Group(group), rest @ ..] if group.kind == FragmentKind::Item => {
            let found = parts.opened(group.pieces.get().list.as_slice())?;
            input.rest = rest;
            let inner = Boxed::new(alloc, found)?;
            let group = group.share(alloc)?;
            Ok(Item::Group { group, inner })
        }
        _ => Err(Stop::Absent),
    }
}

/// An item.
#[tactic(auto, unfolding(em_grammar::specs::ItemReader::item_node))]
pub fn item_node<P: Parts>(alloc: Global, parts: &P, input: &mut Cursor<'_>) -> Result<Item, Stop>
    requires { P.ready parts.now }
    ensures { Reads (spec.item_node (P.inner parts.now) (P.opens parts.now) input.old.rest.now) result input.new.rest.now }
{
    if starts_plain_item(input) {
        return plain_item(alloc, parts, input);
    }
    item_group(alloc, parts, input)
}
