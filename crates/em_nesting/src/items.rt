ghost use Rattle.std.specs.Prelude.{◌≤◌, ◌<◌, MatchBool};
ghost use Rattle.em_tree.specs.Nesting.{file_nesting, greatest, item_body_depth, item_nesting, of_some, param_nesting, path_nesting, sig_nesting, struct_nesting, trait_body_nesting, variant_nesting};
ghost use Rattle.em_nesting.specs.Depths.{impl_fn_nesting, trait_fn_nesting};

use crate::exprs::block_within;
use crate::list::each_within;
use crate::pats::pat_within;
use crate::types::{output_within, path_within, type_within};
use em_tree::{
    FileTree, ImplFn, ImplTrait, Item, ItemBody, Listed, Param, Sig, StructFields, TraitBody,
    TraitFn, VariantDecl, VariantFields,
};

fn param_within(tree: &Param, most: usize) -> bool
    ensures { MatchBool result (param_nesting tree.now ≤ most) (most < param_nesting tree.now) }
{
    match tree {
        Param::Typed { pat, ty, .. } => pat_within(pat, most) && type_within(ty, most),
        Param::Anonymous(ty) => type_within(ty, most),
    }
}

fn params_within(list: &[Listed<Param>], most: usize) -> bool
    ensures { MatchBool result (greatest (λ l. param_nesting l.item) list.now ≤ most) (most < greatest (λ l. param_nesting l.item) list.now) }
{
    each_within(list, most, |part| param_within(&part.item, most))
}

fn sig_within(tree: &Sig, most: usize) -> bool
    ensures { MatchBool result (sig_nesting tree.now ≤ most) (most < sig_nesting tree.now) }
{
    params_within(tree.params.as_slice(), most) && output_within(&tree.output, most)
}

fn trait_body_within(tree: &TraitBody, most: usize) -> bool
    ensures { MatchBool result (trait_body_nesting tree.now ≤ most) (most < trait_body_nesting tree.now) }
{
    match tree {
        TraitBody::Semi(_) => true,
        TraitBody::Block(block) => block_within(block.get(), most),
    }
}

fn trait_fn_within(tree: &TraitFn, most: usize) -> bool
    ensures { MatchBool result (trait_fn_nesting tree.now ≤ most) (most < trait_fn_nesting tree.now) }
{
    sig_within(tree.sig.get(), most) && trait_body_within(&tree.body, most)
}

fn trait_fns_within(list: &[TraitFn], most: usize) -> bool
    ensures { MatchBool result (greatest trait_fn_nesting list.now ≤ most) (most < greatest trait_fn_nesting list.now) }
{
    each_within(list, most, |part| trait_fn_within(part, most))
}

fn impl_fn_within(tree: &ImplFn, most: usize) -> bool
    ensures { MatchBool result (impl_fn_nesting tree.now ≤ most) (most < impl_fn_nesting tree.now) }
{
    sig_within(tree.sig.get(), most) && block_within(tree.body.get(), most)
}

fn impl_fns_within(list: &[ImplFn], most: usize) -> bool
    ensures { MatchBool result (greatest impl_fn_nesting list.now ≤ most) (most < greatest impl_fn_nesting list.now) }
{
    each_within(list, most, |part| impl_fn_within(part, most))
}

fn impl_trait_within(tree: &Option<ImplTrait>, most: usize) -> bool
    ensures { MatchBool result (of_some (λ x. path_nesting x.path) tree.now ≤ most) (most < of_some (λ x. path_nesting x.path) tree.now) }
{
    match tree {
        Some(of_trait) => path_within(of_trait.path.get(), most),
        None => true,
    }
}

fn struct_within(tree: &StructFields, most: usize) -> bool
    ensures { MatchBool result (struct_nesting tree.now ≤ most) (most < struct_nesting tree.now) }
{
    match tree {
        StructFields::Unit { .. } => true,
        StructFields::Named { fields, .. } => {
            each_within(
                fields.as_slice(),
                most,
                |part| type_within(&part.item.ty, most),
            )
        }
        StructFields::Tuple { fields, .. } => {
            each_within(
                fields.as_slice(),
                most,
                |part| type_within(&part.item.ty, most),
            )
        }
    }
}

fn variant_within(tree: &VariantFields, most: usize) -> bool
    ensures { MatchBool result (variant_nesting tree.now ≤ most) (most < variant_nesting tree.now) }
{
    match tree {
        VariantFields::Unit => true,
        VariantFields::Tuple { fields, .. } => {
            each_within(
                fields.as_slice(),
                most,
                |part| type_within(&part.item, most),
            )
        }
        VariantFields::Named { fields, .. } => {
            each_within(
                fields.as_slice(),
                most,
                |part| type_within(&part.item.ty, most),
            )
        }
    }
}

fn variants_within(list: &[Listed<VariantDecl>], most: usize) -> bool
    ensures { MatchBool result (greatest (λ l. variant_nesting l.item.fields) list.now ≤ most) (most < greatest (λ l. variant_nesting l.item.fields) list.now) }
{
    each_within(list, most, |part| variant_within(&part.item.fields, most))
}

#[cycle(items)]
fn item_body_within(tree: &ItemBody<Item>, most: usize) -> bool
    ensures { MatchBool result (item_body_depth item_nesting tree.now ≤ most) (most < item_body_depth item_nesting tree.now) }
{
    match tree {
        ItemBody::ModBlock { items, .. } => items_within(items.as_slice(), most),
        ItemBody::Fn { sig, body } => {
            sig_within(sig.get(), most) && block_within(body.get(), most)
        }
        ItemBody::Struct { fields, .. } => struct_within(fields, most),
        ItemBody::Enum { variants, .. } => variants_within(variants.as_slice(), most),
        ItemBody::Trait { functions, .. } => trait_fns_within(functions.as_slice(), most),
        ItemBody::Impl {
            of_trait,
            self_type,
            functions,
            ..
        } => {
            impl_trait_within(of_trait, most)
                && type_within(self_type.get(), most)
                && impl_fns_within(functions.as_slice(), most)
        }
        ItemBody::Const { ty, .. } => type_within(ty.get(), most),
        _ => true,
    }
}

#[cycle(items)]
fn items_within(list: &[Item], most: usize) -> bool
    ensures { MatchBool result (greatest item_nesting list.now ≤ most) (most < greatest item_nesting list.now) }
{
    for part in list {
        if !item_within(part, most) {
            return false;
        }
    }
    true
}

/// Whether the item nests no deeper.
#[cycle(items)]
#[tactic(auto, using(crate::proofs::ItemDepths::plain_item, crate::proofs::ItemDepths::item_group))]
pub fn item_within(tree: &Item, most: usize) -> bool
    ensures { MatchBool result (item_nesting tree.now ≤ most) (most < item_nesting tree.now) }
{
    match tree {
        Item::Plain { body, .. } => most > 0 && item_body_within(body, most - 1),
        Item::Group { inner, .. } => item_within(inner.get(), most),
    }
}

/// Whether the items of the file nest no deeper.
pub fn file_within(tree: &FileTree, most: usize) -> bool
    ensures { MatchBool result (file_nesting tree.now ≤ most) (most < file_nesting tree.now) }
{
    items_within(tree.items.as_slice(), most)
}
