//! Coercions to trait objects and to slices.

ghost use Rattle.std.specs.Prelude.{◌≡◌, ◌↔◌, IsTrue};
ghost use Rattle.em_core.specs.declared.ty.Ty.{out-Ty};
ghost use Rattle.em_core.specs.Naming as naming;
ghost use Rattle.em_core.specs.Naming.{IsImplOf, Implements, IsClosureOf, BecomesObject, BecomesSlice, IsArrayOf, Unsizes};

use crate::methods::Impl;
use crate::program::Core;
use crate::same::{same_type, same_types};
use crate::ty::{ClosureKind, Ty};
use crate::typed::fits::is_at_least;
use crate::typed::places::closure_of;

fn at_most(new: bool, old: bool) -> bool
    ensures { result ≡ naming.at_most new old }
{
    !new || old
}

#[tactic(auto, unfolding(crate::specs::Naming::IsImplOf))]
fn is_impl_of(found: &Impl, of: u32, ty: &Ty) -> bool
    ensures { IsTrue result ↔ IsImplOf of ty.now found.now }
{
    found.of == of && same_type(&found.ty, ty)
}

#[tactic(auto, using(crate::proofs::ImplLemmas::there, crate::proofs::ImplLemmas::none_there))]
fn implements(core: &Core, of: u32, ty: &Ty) -> bool
    ensures { IsTrue result ↔ Implements core.now of ty.now }
{
    let impls = core.methods.impls.as_slice();
    for i in 0..impls.len() {
        if is_impl_of(&impls[i], of, ty) {
            return true;
        }
    }
    false
}

#[tactic(auto, unfolding(crate::specs::Naming::IsClosureOf))]
fn is_closure_of(core: &Core, ty: &Ty, kind: ClosureKind, parameters: &[Ty], wanted: &Ty) -> bool
    ensures { IsTrue result ↔ IsClosureOf core.now (out-Ty ty.now) kind parameters.now wanted.now }
{
    match ty {
        Ty::Closure { id, .. } => match closure_of(core, *id) {
            Some(entry) => {
                is_at_least(entry.kind, kind)
                    && same_types(entry.parameters.as_slice(), parameters)
                    && same_type(&entry.result, wanted)
            }
            None => false,
        },
        _ => false,
    }
}

#[tactic(auto, unfolding(crate::specs::Naming::BecomesObject))]
fn becomes_object(core: &Core, ty: &Ty, object: &Ty) -> bool
    ensures { IsTrue result ↔ BecomesObject core.now ty.now (out-Ty object.now) }
{
    match object {
        Ty::Dyn(of) => implements(core, *of, ty),
        Ty::DynFn {
            kind,
            arguments,
            result,
        } => is_closure_of(core, ty, *kind, arguments.as_slice(), result.get()),
        _ => false,
    }
}

#[tactic(auto, unfolding(crate::specs::Naming::IsArrayOf))]
fn is_array_of(ty: &Ty, wanted: &Ty) -> bool
    ensures { IsTrue result ↔ IsArrayOf (out-Ty ty.now) wanted.now }
{
    match ty {
        Ty::Array(element, _) => same_type(element.get(), wanted),
        _ => false,
    }
}

#[tactic(auto, unfolding(crate::specs::Naming::BecomesSlice))]
fn becomes_slice(ty: &Ty, slice: &Ty) -> bool
    ensures { IsTrue result ↔ BecomesSlice (out-Ty ty.now) (out-Ty slice.now) }
{
    match slice {
        Ty::Slice(element) => is_array_of(ty, element.get()),
        _ => false,
    }
}

#[tactic(auto, unfolding(crate::specs::Naming::Unsizes))]
pub fn unsizes(core: &Core, from: &Ty, to: &Ty) -> bool
    ensures { IsTrue result ↔ Unsizes core.now (out-Ty from.now) (out-Ty to.now) }
{
    match from {
        Ty::Ref {
            to: whole,
            unique: old,
        } => match to {
            Ty::Ref {
                to: part,
                unique: new,
            } => {
                at_most(*new, *old)
                    && (becomes_object(core, whole.get(), part.get())
                        || becomes_slice(whole.get(), part.get()))
            }
            _ => false,
        },
        Ty::Boxed(content) => match to {
            Ty::Boxed(object) => becomes_object(core, content.get(), object.get()),
            _ => false,
        },
        _ => false,
    }
}
