//! What may be called, and with which arguments.

ghost use Rattle.std.specs.Prelude.{◌≡◌, ◌↔◌, IsTrue, IsSomeAnd};
ghost use Rattle.std.specs.Option.{option_copied};
ghost use Rattle.em_core.specs.declared.ty.Ty.{out-Ty};
ghost use Rattle.em_core.specs.Fitting as fitting;
ghost use Rattle.em_core.specs.Fitting.{AllFit};
ghost use Rattle.em_core.specs.Naming as naming;
ghost use Rattle.em_core.specs.Naming.{MayCall, ObjectFits};

use crate::methods::{Method, Owner, Receiver};
use crate::program::Core;
use crate::ty::{ClosureKind, Ty};
use crate::typed::fits::{all_fit, is_at_least};
use crate::typed::places::closure_of;

/// A closure in a box is called as the closure.
pub fn unboxed(ty: &Ty) -> &Ty
    ensures { result.now ≡ naming.unboxed ty.now (out-Ty ty.now) }
{
    match ty {
        Ty::Boxed(content) => content.get(),
        _ => ty,
    }
}

fn kind_of(core: &Core, ty: &Ty) -> Option<ClosureKind>
    ensures { result ≡ naming.kind_of core.now (out-Ty ty.now) }
{
    match ty {
        Ty::Closure { id, .. } => match closure_of(core, *id) {
            Some(entry) => Some(entry.kind),
            None => None,
        },
        Ty::DynFn { kind, .. } => Some(*kind),
        _ => None,
    }
}

fn parameters_of<'a>(core: &'a Core, ty: &'a Ty) -> Option<&'a [Ty]>
    ensures { option_copied result ≡ naming.parameters_of core.now (out-Ty ty.now) }
{
    match ty {
        Ty::Closure { id, .. } => match closure_of(core, *id) {
            Some(entry) => Some(entry.parameters.as_slice()),
            None => None,
        },
        Ty::DynFn { arguments, .. } => Some(arguments.as_slice()),
        _ => None,
    }
}

/// What a call of a value of the type gives.
pub fn result_of<'a>(core: &'a Core, ty: &'a Ty) -> Option<&'a Ty>
    ensures { option_copied result ≡ naming.result_of core.now (out-Ty ty.now) }
{
    match ty {
        Ty::Closure { id, .. } => match closure_of(core, *id) {
            Some(entry) => Some(&entry.result),
            None => None,
        },
        Ty::DynFn { result, .. } => Some(result.get()),
        _ => None,
    }
}

fn has_kind(core: &Core, ty: &Ty, wanted: ClosureKind) -> bool
    ensures { IsTrue result ↔ IsSomeAnd (naming.kind_of core.now (out-Ty ty.now)) (λ j. IsTrue (fitting.is_at_least j wanted)) }
{
    match kind_of(core, ty) {
        Some(kind) => is_at_least(kind, wanted),
        None => false,
    }
}

fn takes(core: &Core, ty: &Ty, types: &[Ty]) -> bool
    ensures { IsTrue result ↔ IsSomeAnd (naming.parameters_of core.now (out-Ty ty.now)) (λ ps. AllFit types.now ps) }
{
    match parameters_of(core, ty) {
        Some(parameters) => all_fit(types, parameters),
        None => false,
    }
}

#[tactic(auto, unfolding(crate::specs::Naming::MayCall))]
pub fn may_call(core: &Core, ty: &Ty, kind: ClosureKind, types: &[Ty]) -> bool
    ensures { IsTrue result ↔ MayCall core.now ty.now kind types.now }
{
    has_kind(core, ty, kind) && takes(core, ty, types)
}

pub fn receiver_takes(receiver: Receiver, unique: bool) -> bool
    ensures { result ≡ naming.receiver_takes receiver unique }
{
    match receiver {
        Receiver::Shared => !unique,
        Receiver::Unique => unique,
        _ => false,
    }
}

fn is_object_of(owner: &Owner, ty: &Ty) -> bool
    ensures { result ≡ naming.is_object_of owner.now (out-Ty ty.now) }
{
    match owner {
        Owner::Trait(of) => match ty {
            Ty::Dyn(object) => of == object,
            _ => false,
        },
        _ => false,
    }
}

fn receiver_fits(method: &Method, ty: &Ty) -> bool
    ensures { result ≡ naming.receiver_fits method.now (out-Ty ty.now) }
{
    match ty {
        Ty::Ref { to, unique } => is_object_of(&method.owner, to.get())
            && receiver_takes(method.receiver, *unique),
        _ => false,
    }
}

/// Whether a call of the method on an object takes operands of these types.
#[tactic(auto, unfolding(crate::specs::Naming::ObjectFits))]
pub fn object_fits(method: &Method, types: &[Ty]) -> bool
    ensures { IsTrue result ↔ ObjectFits method.now types.now }
{
    match types {
        [] => false,
        [receiver, arguments @ ..] => receiver_fits(method, receiver)
            && match &method.on_object {
                Some(signature) => all_fit(arguments, signature.parameters.as_slice()),
                None => false,
            },
    }
}
