ghost use Rattle.std.specs.Prelude.{◌≡◌, ◌↔◌, IsTrue};
ghost use Rattle.em_core.specs.declared.ty.Ty.{out-Ty};
ghost use Rattle.em_core.specs.Fitting as fitting;

use crate::ty::Ty;

/// Whether two types are equal.
#[cycle(same)]
pub fn same_type(a: &Ty, b: &Ty) -> bool
    ensures { IsTrue result ↔ (a.now ≡ b.now) }
{
    match (a, b) {
        (Ty::Int(kind), Ty::Int(other)) => kind == other,
        (Ty::Bool, Ty::Bool) => true,
        (Ty::Char, Ty::Char) => true,
        (Ty::Str, Ty::Str) => true,
        (Ty::Unit, Ty::Unit) => true,
        (Ty::Never, Ty::Never) => true,
        (Ty::Def(def), Ty::Def(other)) => def == other,
        (Ty::Array(element, length), Ty::Array(other, count)) => {
            length == count && same_type(element.get(), other.get())
        }
        (Ty::Slice(element), Ty::Slice(other)) => same_type(element.get(), other.get()),
        (
            Ty::Ref { to, unique },
            Ty::Ref {
                to: other,
                unique: way,
            },
        ) => unique == way && same_type(to.get(), other.get()),
        (Ty::Boxed(content), Ty::Boxed(other)) => same_type(content.get(), other.get()),
        (Ty::Dyn(of), Ty::Dyn(other)) => of == other,
        (Ty::DynFn { .. }, _) => same_object(a, b),
        (Ty::Closure { .. }, _) => same_closure(a, b),
        (Ty::ArrayIter(item), Ty::ArrayIter(other)) => same_type(item.get(), other.get()),
        (Ty::RefIter(item), Ty::RefIter(other)) => same_type(item.get(), other.get()),
        (Ty::Range(kind), Ty::Range(other)) => kind == other,
        _ => false,
    }
}

/// Whether the object type of a closure trait is another type.
#[cycle(same)]
fn same_object(a: &Ty, b: &Ty) -> bool
    ensures { IsTrue (fitting.is_closure_object (out-Ty a.now)) → (IsTrue result ↔ (a.now ≡ b.now)) }
{
    match (a, b) {
        (
            Ty::DynFn {
                kind,
                arguments,
                result,
            },
            Ty::DynFn {
                kind: other_kind,
                arguments: others,
                result: other,
            },
        ) => {
            kind == other_kind
                && same_types(arguments.as_slice(), others.as_slice())
                && same_type(result.get(), other.get())
        }
        _ => false,
    }
}

/// Whether the type of a closure is another type.
fn same_closure(a: &Ty, b: &Ty) -> bool
    ensures { IsTrue (fitting.is_closure (out-Ty a.now)) → (IsTrue result ↔ (a.now ≡ b.now)) }
{
    match (a, b) {
        (
            Ty::Closure {
                id,
                copy,
                drop_free,
                refers,
            },
            Ty::Closure {
                id: other,
                copy: other_copy,
                drop_free: other_drop_free,
                refers: other_refers,
            },
        ) => {
            id == other
                && copy == other_copy
                && drop_free == other_drop_free
                && refers == other_refers
        }
        _ => false,
    }
}

/// Whether two lists of types are equal.
#[cycle(same)]
pub fn same_types(a: &[Ty], b: &[Ty]) -> bool
    ensures { IsTrue result ↔ (a.now ≡ b.now) }
{
    if a.len() != b.len() {
        return false;
    }
    for i in 0..a.len() {
        if !same_type(&a[i], &b[i]) {
            return false;
        }
    }
    true
}
