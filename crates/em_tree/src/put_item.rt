//! The tokens of items.

ghost use Rattle.std.specs.Prelude.{◌≡◌, [], ◌∷◌, ◌++◌, true, false};
ghost use Rattle.em_tree.specs.Parts.{attribute_parts, each, field_decl_parts, impl_fn_parts, impl_trait_parts, item_body_parts, item_parts, listed_parts, maybe, meta_input_parts, meta_parts, param_parts, rename_parts, self_param_parts, sig_parts, struct_fields_parts, trait_body_parts, trait_fn_parts, tuple_decl_parts, type_tree_parts, use_name_parts, variant_decl_parts, variant_field_parts, variant_fields_parts, vis_parts, vis_scope_parts};
ghost use Rattle.em_tree.specs.Yields.{one, inside, opened};
ghost use Rattle.em_tree.specs.Adding.{Adds};

use crate::item::{
    Attribute, FieldDecl, ImplFn, ImplTrait, Item, ItemBody, Meta, MetaInput, Param, Rename,
    SelfParam, Sig, StructFields, TraitBody, TraitFn, TupleDecl, UseName, VariantDecl,
    VariantField, VariantFields, Vis, VisScope,
};
use crate::parts::Listed;
use crate::put_expr::add_block;
use crate::types::TypeTree;
use crate::writer::Writer;

#[tactic(auto, using(crate::proofs::Adds::adds0, crate::proofs::Adds::adds2))]
pub(crate) fn add_meta_input(out: &mut Writer, part: &MetaInput)
    ensures { Adds out.old (meta_input_parts one inside opened part.now) out.new }
{
    match part {
        MetaInput::Nothing => {}
        MetaInput::List(list) => out.delimited(list),
        MetaInput::Value { equals, literal } => {
            out.token(equals.get());
            out.literal(literal);
        }
    }
}

#[tactic(auto, using(crate::proofs::Adds::adds2))]
pub(crate) fn add_meta(out: &mut Writer, part: &Meta)
    ensures { Adds out.old (meta_parts one inside opened part.now) out.new }
{
    out.token(part.name.get());
    add_meta_input(out, &part.input);
}

#[tactic(auto, using(crate::proofs::Adds::adds4))]
pub(crate) fn add_attribute(out: &mut Writer, part: &Attribute)
    ensures { Adds out.old (attribute_parts one inside opened part.now) out.new }
{
    out.token(part.hash.get());
    out.token(part.open.get());
    add_meta(out, &part.meta);
    out.token(part.close.get());
}

pub(crate) fn add_attributes(out: &mut Writer, list: &[Attribute])
    ensures { Adds out.old (each (attribute_parts one inside opened) list.now) out.new }
{
    for part in list {
        add_attribute(out, part);
    }
}

#[tactic(auto, using(crate::proofs::Adds::adds3))]
pub(crate) fn add_vis_scope(out: &mut Writer, part: &VisScope)
    ensures { Adds out.old (vis_scope_parts one inside opened part.now) out.new }
{
    out.token(part.open.get());
    out.token(part.module.get());
    out.token(part.close.get());
}

pub(crate) fn add_vis_scope_if(out: &mut Writer, part: &Option<VisScope>)
    ensures { Adds out.old (maybe (vis_scope_parts one inside opened) part.now) out.new }
{
    if let Some(part) = part {
        add_vis_scope(out, part);
    }
}

#[tactic(auto, using(crate::proofs::Adds::adds2))]
pub(crate) fn add_vis(out: &mut Writer, part: &Vis)
    ensures { Adds out.old (vis_parts one inside opened part.now) out.new }
{
    out.token(part.word.get());
    add_vis_scope_if(out, &part.scope);
}

pub(crate) fn add_vis_if(out: &mut Writer, part: &Option<Vis>)
    ensures { Adds out.old (maybe (vis_parts one inside opened) part.now) out.new }
{
    if let Some(part) = part {
        add_vis(out, part);
    }
}

#[tactic(auto, using(crate::proofs::Adds::adds3))]
pub(crate) fn add_self_param(out: &mut Writer, part: &SelfParam)
    ensures { Adds out.old (self_param_parts one inside opened part.now) out.new }
{
    out.token_if(&part.amp);
    out.token_if(&part.word_mut);
    out.token(part.word.get());
}

pub(crate) fn add_receiver_if(out: &mut Writer, part: &Option<Listed<SelfParam>>)
    ensures { Adds out.old (maybe (listed_parts one inside opened (self_param_parts one inside opened)) part.now) out.new }
{
    if let Some(part) = part {
        add_self_param(out, &part.item);
        out.token_if(&part.comma);
    }
}

#[tactic(auto, using(crate::proofs::Adds::adds3))]
pub(crate) fn add_param(out: &mut Writer, part: &Param)
    ensures { Adds out.old (param_parts one inside opened part.now) out.new }
{
    match part {
        Param::Typed { pat, colon, ty } => {
            out.pat(pat);
            out.token(colon.get());
            out.ty(ty);
        }
        Param::Anonymous(ty) => out.ty(ty),
    }
}

pub(crate) fn add_params(out: &mut Writer, list: &[Listed<Param>])
    ensures { Adds out.old (each (listed_parts one inside opened (param_parts one inside opened)) list.now) out.new }
{
    for part in list {
        add_param(out, &part.item);
        out.token_if(&part.comma);
    }
}

#[tactic(auto, using(crate::proofs::Adds::adds7))]
pub(crate) fn add_sig(out: &mut Writer, part: &Sig)
    ensures { Adds out.old (sig_parts one inside opened part.now) out.new }
{
    out.token(part.word.get());
    out.token(part.name.get());
    out.token(part.open.get());
    add_receiver_if(out, &part.receiver);
    add_params(out, part.params.as_slice());
    out.token(part.close.get());
    out.output(&part.output);
}

pub(crate) fn add_trait_body(out: &mut Writer, part: &TraitBody)
    ensures { Adds out.old (trait_body_parts one inside opened part.now) out.new }
{
    match part {
        TraitBody::Semi(semi) => out.token(semi.get()),
        TraitBody::Block(block) => add_block(out, block.get()),
    }
}

#[tactic(auto, using(crate::proofs::Adds::adds2))]
pub(crate) fn add_trait_fn(out: &mut Writer, part: &TraitFn)
    ensures { Adds out.old (trait_fn_parts one inside opened part.now) out.new }
{
    add_sig(out, part.sig.get());
    add_trait_body(out, &part.body);
}

pub(crate) fn add_trait_fns(out: &mut Writer, list: &[TraitFn])
    ensures { Adds out.old (each (trait_fn_parts one inside opened) list.now) out.new }
{
    for part in list {
        add_trait_fn(out, part);
    }
}

#[tactic(auto, using(crate::proofs::Adds::adds3))]
pub(crate) fn add_impl_fn(out: &mut Writer, part: &ImplFn)
    ensures { Adds out.old (impl_fn_parts one inside opened part.now) out.new }
{
    add_vis_if(out, &part.vis);
    add_sig(out, part.sig.get());
    add_block(out, part.body.get());
}

pub(crate) fn add_impl_fns(out: &mut Writer, list: &[ImplFn])
    ensures { Adds out.old (each (impl_fn_parts one inside opened) list.now) out.new }
{
    for part in list {
        add_impl_fn(out, part);
    }
}

#[tactic(auto, using(crate::proofs::Adds::adds2))]
pub(crate) fn add_impl_trait(out: &mut Writer, part: &ImplTrait)
    ensures { Adds out.old (impl_trait_parts one inside opened part.now) out.new }
{
    out.path(part.path.get());
    out.token(part.word_for.get());
}

pub(crate) fn add_impl_trait_if(out: &mut Writer, part: &Option<ImplTrait>)
    ensures { Adds out.old (maybe (impl_trait_parts one inside opened) part.now) out.new }
{
    if let Some(part) = part {
        add_impl_trait(out, part);
    }
}

#[tactic(auto, using(crate::proofs::Adds::adds4))]
pub(crate) fn add_field_decl(out: &mut Writer, part: &FieldDecl)
    ensures { Adds out.old (field_decl_parts one inside opened part.now) out.new }
{
    add_vis_if(out, &part.vis);
    out.token(part.name.get());
    out.token(part.colon.get());
    out.ty(&part.ty);
}

pub(crate) fn add_field_decls(out: &mut Writer, list: &[Listed<FieldDecl>])
    ensures { Adds out.old (each (listed_parts one inside opened (field_decl_parts one inside opened)) list.now) out.new }
{
    for part in list {
        add_field_decl(out, &part.item);
        out.token_if(&part.comma);
    }
}

#[tactic(auto, using(crate::proofs::Adds::adds2))]
pub(crate) fn add_tuple_decl(out: &mut Writer, part: &TupleDecl)
    ensures { Adds out.old (tuple_decl_parts one inside opened part.now) out.new }
{
    add_vis_if(out, &part.vis);
    out.ty(&part.ty);
}

pub(crate) fn add_tuple_decls(out: &mut Writer, list: &[Listed<TupleDecl>])
    ensures { Adds out.old (each (listed_parts one inside opened (tuple_decl_parts one inside opened)) list.now) out.new }
{
    for part in list {
        add_tuple_decl(out, &part.item);
        out.token_if(&part.comma);
    }
}

#[tactic(auto, using(crate::proofs::Adds::adds3, crate::proofs::Adds::adds4))]
pub(crate) fn add_struct_fields(out: &mut Writer, part: &StructFields)
    ensures { Adds out.old (struct_fields_parts one inside opened part.now) out.new }
{
    match part {
        StructFields::Unit { semi } => out.token(semi.get()),
        StructFields::Named {
            open,
            fields,
            close,
        } => {
            out.token(open.get());
            add_field_decls(out, fields.as_slice());
            out.token(close.get());
        }
        StructFields::Tuple {
            open,
            fields,
            close,
            semi,
        } => {
            out.token(open.get());
            add_tuple_decls(out, fields.as_slice());
            out.token(close.get());
            out.token(semi.get());
        }
    }
}

#[tactic(auto, using(crate::proofs::Adds::adds3))]
pub(crate) fn add_variant_field(out: &mut Writer, part: &VariantField)
    ensures { Adds out.old (variant_field_parts one inside opened part.now) out.new }
{
    out.token(part.name.get());
    out.token(part.colon.get());
    out.ty(&part.ty);
}

pub(crate) fn add_variant_field_list(out: &mut Writer, list: &[Listed<VariantField>])
    ensures { Adds out.old (each (listed_parts one inside opened (variant_field_parts one inside opened)) list.now) out.new }
{
    for part in list {
        add_variant_field(out, &part.item);
        out.token_if(&part.comma);
    }
}

pub(crate) fn add_types(out: &mut Writer, list: &[Listed<TypeTree>])
    ensures { Adds out.old (each (listed_parts one inside opened (type_tree_parts one inside opened)) list.now) out.new }
{
    for part in list {
        out.ty(&part.item);
        out.token_if(&part.comma);
    }
}

#[tactic(auto, using(crate::proofs::Adds::adds0, crate::proofs::Adds::adds3))]
pub(crate) fn add_variant_fields(out: &mut Writer, part: &VariantFields)
    ensures { Adds out.old (variant_fields_parts one inside opened part.now) out.new }
{
    match part {
        VariantFields::Unit => {}
        VariantFields::Tuple {
            open,
            fields,
            close,
        } => {
            out.token(open.get());
            add_types(out, fields.as_slice());
            out.token(close.get());
        }
        VariantFields::Named {
            open,
            fields,
            close,
        } => {
            out.token(open.get());
            add_variant_field_list(out, fields.as_slice());
            out.token(close.get());
        }
    }
}

#[tactic(auto, using(crate::proofs::Adds::adds2))]
pub(crate) fn add_variant(out: &mut Writer, part: &VariantDecl)
    ensures { Adds out.old (variant_decl_parts one inside opened part.now) out.new }
{
    out.token(part.name.get());
    add_variant_fields(out, &part.fields);
}

pub(crate) fn add_variants(out: &mut Writer, list: &[Listed<VariantDecl>])
    ensures { Adds out.old (each (listed_parts one inside opened (variant_decl_parts one inside opened)) list.now) out.new }
{
    for part in list {
        add_variant(out, &part.item);
        out.token_if(&part.comma);
    }
}

#[tactic(auto, using(crate::proofs::Adds::adds2))]
pub(crate) fn add_rename(out: &mut Writer, part: &Rename)
    ensures { Adds out.old (rename_parts one inside opened part.now) out.new }
{
    out.token(part.word.get());
    out.token(part.name.get());
}

pub(crate) fn add_rename_if(out: &mut Writer, part: &Option<Rename>)
    ensures { Adds out.old (maybe (rename_parts one inside opened) part.now) out.new }
{
    if let Some(part) = part {
        add_rename(out, part);
    }
}

#[tactic(auto, using(crate::proofs::Adds::adds2))]
pub(crate) fn add_use_name(out: &mut Writer, part: &UseName)
    ensures { Adds out.old (use_name_parts one inside opened part.now) out.new }
{
    out.token(part.name.get());
    add_rename_if(out, &part.rename);
}

pub(crate) fn add_use_names(out: &mut Writer, list: &[Listed<UseName>])
    ensures { Adds out.old (each (listed_parts one inside opened (use_name_parts one inside opened)) list.now) out.new }
{
    for part in list {
        add_use_name(out, &part.item);
        out.token_if(&part.comma);
    }
}

#[cycle(items)]
#[tactic(auto, using(crate::proofs::Adds::adds2, crate::proofs::Adds::adds3, crate::proofs::Adds::adds4, crate::proofs::Adds::adds5, crate::proofs::Adds::adds6, crate::proofs::Adds::adds7))]
pub(crate) fn add_item_body(out: &mut Writer, part: &ItemBody<Item>)
    ensures { Adds out.old (item_body_parts one inside opened (item_parts one inside opened) part.now) out.new }
{
    match part {
        ItemBody::ExternCrate {
            word,
            word_crate,
            name,
            rename,
            semi,
        } => {
            out.token(word.get());
            out.token(word_crate.get());
            out.token(name.get());
            add_rename_if(out, rename);
            out.token(semi.get());
        }
        ItemBody::Use {
            word,
            path,
            rename,
            semi,
        } => {
            out.token(word.get());
            out.segments(path);
            add_rename_if(out, rename);
            out.token(semi.get());
        }
        ItemBody::UseList {
            word,
            path,
            separator,
            open,
            names,
            close,
            semi,
        } => {
            out.token(word.get());
            out.segments(path);
            out.token(separator.get());
            out.token(open.get());
            add_use_names(out, names.as_slice());
            out.token(close.get());
            out.token(semi.get());
        }
        ItemBody::ModFile { word, name, semi } => {
            out.token(word.get());
            out.token(name.get());
            out.token(semi.get());
        }
        ItemBody::ModBlock {
            word,
            name,
            open,
            items,
            close,
        } => {
            out.token(word.get());
            out.token(name.get());
            out.token(open.get());
            add_items(out, items.as_slice());
            out.token(close.get());
        }
        ItemBody::Fn { sig, body } => {
            add_sig(out, sig.get());
            add_block(out, body.get());
        }
        ItemBody::Struct { word, name, fields } => {
            out.token(word.get());
            out.token(name.get());
            add_struct_fields(out, fields);
        }
        ItemBody::Enum {
            word,
            name,
            open,
            variants,
            close,
        } => {
            out.token(word.get());
            out.token(name.get());
            out.token(open.get());
            add_variants(out, variants.as_slice());
            out.token(close.get());
        }
        ItemBody::Trait {
            word,
            name,
            open,
            functions,
            close,
        } => {
            out.token(word.get());
            out.token(name.get());
            out.token(open.get());
            add_trait_fns(out, functions.as_slice());
            out.token(close.get());
        }
        ItemBody::Impl {
            word,
            of_trait,
            self_type,
            open,
            functions,
            close,
        } => {
            out.token(word.get());
            add_impl_trait_if(out, of_trait);
            out.ty(self_type.get());
            out.token(open.get());
            add_impl_fns(out, functions.as_slice());
            out.token(close.get());
        }
        ItemBody::Const {
            word,
            name,
            colon,
            ty,
            equals,
            value,
            semi,
        } => {
            out.token(word.get());
            out.token(name.get());
            out.token(colon.get());
            out.ty(ty.get());
            out.token(equals.get());
            out.literal(value);
            out.token(semi.get());
        }
        ItemBody::Rules {
            word,
            bang,
            name,
            text,
            semi,
        } => {
            out.token(word.get());
            out.token(bang.get());
            out.token(name.get());
            out.delimited(text);
            out.token_if(semi);
        }
        ItemBody::Macro { call, semi } => {
            out.macro_call(call);
            out.token_if(semi);
        }
    }
}

#[cycle(items)]
pub(crate) fn add_items(out: &mut Writer, list: &[Item])
    ensures { Adds out.old (each (item_parts one inside opened) list.now) out.new }
{
    for part in list {
        add_item(out, part);
    }
}

#[cycle(items)]
#[tactic(auto, using(crate::proofs::ItemAdds::adds_item_plain, crate::proofs::ItemAdds::adds_item_group))]
pub(crate) fn add_item(out: &mut Writer, part: &Item)
    ensures { Adds out.old (item_parts one inside opened part.now) out.new }
{
    match part {
        Item::Plain {
            attributes,
            vis,
            body,
        } => {
            add_attributes(out, attributes.as_slice());
            add_vis_if(out, vis);
            add_item_body(out, body);
        }
        Item::Group { inner, .. } => add_item(out, inner.get()),
    }
}
