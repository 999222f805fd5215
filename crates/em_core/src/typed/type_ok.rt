//! The types that a Core may name.

ghost use Rattle.std.specs.Prelude.{◌≡◌, ◌↔◌, IsTrue};
ghost use Rattle.em_core.specs.declared.ty.Ty.{out-Ty};
ghost use Rattle.em_core.specs.Types as types;
ghost use Rattle.em_core.specs.Types.{FormOk, TypeOk, ValueTypeOk};

use crate::program::Core;
use crate::same::same_type;
use crate::ty::Ty;
use crate::typed::children::type_child;
use crate::typed::fits::is_sized;
use crate::typed::places::closure_of;

fn is_ref(ty: &Ty) -> bool
    ensures { result ≡ types.is_ref (out-Ty ty.now) }
{
    matches!(ty, Ty::Ref { .. })
}

/// Whether the numbers in the type itself name something, and what it holds may stand there.
#[tactic(auto, unfolding(crate::specs::Types::FormOk))]
fn form_ok(core: &Core, ty: &Ty) -> bool
    ensures { IsTrue result ↔ FormOk core.now (out-Ty ty.now) }
{
    match ty {
        Ty::Def(def) => (*def as usize) < core.types.len(),
        Ty::Closure { id, .. } => match closure_of(core, *id) {
            Some(entry) => same_type(&entry.ty, ty),
            None => false,
        },
        Ty::Array(element, _) => is_sized(element.get()),
        Ty::ArrayIter(item) => is_sized(item.get()),
        Ty::RefIter(item) => is_ref(item.get()),
        Ty::Slice(element) => is_sized(element.get()),
        Ty::DynFn {
            arguments,
            result,
            ..
        } => {
            arguments
                .as_slice()
                .iter()
                .all(|argument| is_sized(argument))
                && is_sized(result.get())
        }
        _ => true,
    }
}

/// Whether all numbers in the type name something, and each part may stand where it stands.
#[tactic(auto, using(crate::proofs::TypeLemmas::form_of, crate::proofs::TypeLemmas::part_of, crate::proofs::TypeLemmas::type_of))]
pub fn type_ok(core: &Core, ty: &Ty) -> bool
    ensures { IsTrue result ↔ TypeOk core.now ty.now }
{
    if !form_ok(core, ty) {
        return false;
    }
    let mut at = 0;
    while let Some(child) = type_child(ty, at) {
        if !type_ok(core, child) {
            return false;
        }
        at += 1;
    }
    true
}

/// Whether the type may be that of a value.
#[tactic(auto, unfolding(crate::specs::Types::ValueTypeOk))]
pub fn value_type_ok(core: &Core, ty: &Ty) -> bool
    ensures { IsTrue result ↔ ValueTypeOk core.now ty.now }
{
    is_sized(ty) && type_ok(core, ty)
}
