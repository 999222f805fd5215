ghost use Rattle.std.specs.Prelude.{◌↔◌, IsTrue};
ghost use Rattle.em_core.specs.Types.{IsCopy};

use crate::program::Core;
use crate::ty::Ty;

/// Whether values of the type are copied where they are used (Reference, "Copy").
#[tactic(auto, using(crate::proofs::CopyLemmas::copy_int, crate::proofs::CopyLemmas::copy_bool, crate::proofs::CopyLemmas::copy_char, crate::proofs::CopyLemmas::copy_unit, crate::proofs::CopyLemmas::copy_ref, crate::proofs::CopyLemmas::copy_array, crate::proofs::CopyLemmas::copy_def, crate::proofs::CopyLemmas::copy_closure, crate::proofs::CopyLemmas::not_str, crate::proofs::CopyLemmas::not_never, crate::proofs::CopyLemmas::not_slice, crate::proofs::CopyLemmas::not_boxed, crate::proofs::CopyLemmas::not_dyn, crate::proofs::CopyLemmas::not_dyn_fn, crate::proofs::CopyLemmas::not_array_iter, crate::proofs::CopyLemmas::not_ref_iter, crate::proofs::CopyLemmas::not_range))]
pub fn is_copy_type(core: &Core, ty: &Ty) -> bool
    ensures { IsTrue result ↔ IsCopy core.now ty.now }
{
    match ty {
        Ty::Int(_) | Ty::Bool | Ty::Char | Ty::Unit => true,
        Ty::Str | Ty::Never | Ty::Slice(_) | Ty::Boxed(_) | Ty::Dyn(_) | Ty::DynFn { .. } => false,
        Ty::ArrayIter(_) | Ty::RefIter(_) | Ty::Range(_) => false,
        Ty::Ref { unique, .. } => !*unique,
        Ty::Array(element, _) => is_copy_type(core, element.get()),
        Ty::Def(def) => match core.types.get(*def as usize) {
            Some(found) => found.copy,
            None => false,
        },
        Ty::Closure { copy, .. } => *copy,
    }
}
