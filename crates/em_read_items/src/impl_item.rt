//! Impls (Reference, "Implementations").

ghost use Rattle.std.specs.Prelude.{◌≡◌, Some, IfOk, IfErr};
ghost use Rattle.em_grammar.specs.ItemReader as spec;
ghost use Rattle.em_grammar.specs.Reader as read;
ghost use Rattle.em_read.specs.declared.stop.Stop.TheVariants as Refusal;
ghost use Rattle.em_read.specs.Parse.{Reads};
ghost use Rattle.em_read_items.specs.Items as part;

use crate::fn_item::impl_fns;
use crate::parts::Parts;
use em_base::Token;
use em_grammar::{Weak, Written};
use em_read::{Cursor, Stop, sign};
use em_read_types::is_lone;
use em_tree::{ImplFn, ImplTrait, Item, ItemBody, Path, Shared, TypeTree};
use sqlite_items::{Boxed, Items};
use std::alloc::Global;

/// A type, and maybe `for` and another one.
type Head = (TypeTree, Option<(Shared<Token>, TypeTree)>);

/// Functions in their braces.
type Functions = (Shared<Token>, (Items<ImplFn>, Shared<Token>));

/// Whether the type is a path that may stand before `for`: not the word `dyn` alone.
#[tactic(auto, unfolding(em_grammar::specs::ItemReader::trait_path))]
fn has_path(ty: &TypeTree) -> bool
    ensures { result ≡ spec.has_path (spec.trait_path ty.now) }
{
    match ty {
        TypeTree::Path(path) => !is_lone(Weak::Dyn, path),
        _ => false,
    }
}

/// The path that the type is, if it may stand before `for`.
#[tactic(auto, unfolding(em_grammar::specs::ItemReader::trait_path))]
fn trait_path(ty: TypeTree) -> Option<Path>
    ensures { result ≡ spec.trait_path ty }
{
    match ty {
        TypeTree::Path(path) => {
            if is_lone(Weak::Dyn, &path) {
                None
            } else {
                Some(path)
            }
        }
        _ => None,
    }
}

/// `for` and the type behind it, where this type may stand before it.
fn for_type<P: Parts>(
    alloc: Global,
    parts: &P,
    input: &mut Cursor<'_>,
    ty: &TypeTree,
) -> Result<(Shared<Token>, TypeTree), Stop>
    requires { P.ready parts.now }
    ensures { Reads (part.for_type (P.inner parts.now) ty.now input.old.rest.now) result input.new.rest.now }
{
    if !has_path(ty) {
        return Err(Stop::Absent);
    }
    let word = sign(alloc, input, Written::For)?;
    let self_type = parts.ty(input)?;
    Ok((word, self_type))
}

fn for_type_if<P: Parts>(
    alloc: Global,
    parts: &P,
    input: &mut Cursor<'_>,
    ty: &TypeTree,
) -> Result<Option<(Shared<Token>, TypeTree)>, Stop>
    requires { P.ready parts.now }
    ensures { Reads (read.opt (part.for_type (P.inner parts.now) ty.now) input.old.rest.now) result input.new.rest.now }
{
    let start = input.rest;
    match for_type(alloc, parts, input, ty) {
        Ok(found) => Ok(Some(found)),
        Err(Stop::Absent) => {
            input.rest = start;
            Ok(None)
        }
        Err(stop) => Err(stop),
    }
}

fn impl_head<P: Parts>(alloc: Global, parts: &P, input: &mut Cursor<'_>) -> Result<Head, Stop>
    requires { P.ready parts.now }
    ensures { Reads (spec.impl_head (P.inner parts.now) input.old.rest.now) result input.new.rest.now }
{
    let ty = parts.head(input)?;
    let of = for_type_if(alloc, parts, input, &ty)?;
    Ok((ty, of))
}

fn functions<P: Parts>(alloc: Global, parts: &P, input: &mut Cursor<'_>) -> Result<Functions, Stop>
    requires { P.ready parts.now }
    ensures { Reads (part.impl_functions (P.inner parts.now) input.old.rest.now) result input.new.rest.now }
{
    let open = sign(alloc, input, Written::OpenBrace)?;
    let functions = impl_fns(alloc, parts, input)?;
    let close = sign(alloc, input, Written::CloseBrace)?;
    Ok((open, (functions, close)))
}

/// The trait of an impl, whose path may lack.
fn of_trait(
    alloc: Global,
    path: Option<Path>,
    word_for: Shared<Token>,
) -> Result<Option<ImplTrait>, Stop>
    ensures made { IfOk result (λ x. x ≡ part.of_trait path word_for) }
    ensures fails { IfErr result (λ e. e ≡ Refusal.NoMemory) }
{
    match path {
        Some(path) => {
            let path = Boxed::new(alloc, path)?;
            Ok(Some(ImplTrait { path, word_for }))
        }
        None => Ok(None),
    }
}

/// The types of an impl.
fn impl_types(alloc: Global, head: Head) -> Result<(Option<ImplTrait>, Boxed<TypeTree>), Stop>
    ensures made { IfOk result (λ x. x ≡ part.impl_types head) }
    ensures fails { IfErr result (λ e. e ≡ Refusal.NoMemory) }
{
    match head {
        (ty, Some((word_for, self_type))) => {
            let of_trait = of_trait(alloc, trait_path(ty), word_for)?;
            let self_type = Boxed::new(alloc, self_type)?;
            Ok((of_trait, self_type))
        }
        (ty, None) => {
            let self_type = Boxed::new(alloc, ty)?;
            Ok((None, self_type))
        }
    }
}

/// The impl of these parts.
#[tactic(auto, using(crate::proofs::Impls::of_types))]
fn impl_with(
    alloc: Global,
    word: Shared<Token>,
    head: Head,
    functions: Functions,
) -> Result<ItemBody<Item>, Stop>
    ensures made { IfOk result (λ y. y ≡ spec.impl_of (word, (head, functions))) }
    ensures fails { IfErr result (λ e. e ≡ Refusal.NoMemory) }
{
    let (of_trait, self_type) = impl_types(alloc, head)?;
    let (open, (functions, close)) = functions;
    Ok(ItemBody::Impl {
        word,
        of_trait,
        self_type,
        open,
        functions,
        close,
    })
}

pub fn impl_item<P: Parts>(
    alloc: Global,
    parts: &P,
    input: &mut Cursor<'_>,
) -> Result<ItemBody<Item>, Stop>
    requires { P.ready parts.now }
    ensures { Reads (spec.impl_item (P.inner parts.now) input.old.rest.now) result input.new.rest.now }
{
    let word = sign(alloc, input, Written::Impl)?;
    let head = impl_head(alloc, parts, input)?;
    let functions = functions(alloc, parts, input)?;
    let found = impl_with(alloc, word, head, functions)?;
    Ok(found)
}
