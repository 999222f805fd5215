ghost use Rattle.std.specs.Prelude.{◌≡◌, IfOk};

use crate::ty::Ty;
use em_base::NoMemory;
use sqlite_items::{Boxed, Items};
use std::alloc::Global;

/// A copy of a type.
#[cycle(copied)]
pub fn copy_type(alloc: Global, ty: &Ty) -> Result<Ty, NoMemory>
    ensures { IfOk result (λ t. t ≡ ty.now) }
{
    Ok(match ty {
        Ty::Int(kind) => Ty::Int(*kind),
        Ty::Bool => Ty::Bool,
        Ty::Char => Ty::Char,
        Ty::Str => Ty::Str,
        Ty::Unit => Ty::Unit,
        Ty::Never => Ty::Never,
        Ty::Def(def) => Ty::Def(*def),
        Ty::Array(element, length) => Ty::Array(boxed(alloc, element)?, *length),
        Ty::Slice(element) => Ty::Slice(boxed(alloc, element)?),
        Ty::Ref { to, unique } => Ty::Ref {
            to: boxed(alloc, to)?,
            unique: *unique,
        },
        Ty::Boxed(content) => Ty::Boxed(boxed(alloc, content)?),
        Ty::Dyn(of) => Ty::Dyn(*of),
        Ty::DynFn {
            kind,
            arguments,
            result,
        } => Ty::DynFn {
            kind: *kind,
            arguments: copy_types(alloc, arguments.as_slice())?,
            result: boxed(alloc, result)?,
        },
        Ty::Closure {
            id,
            copy,
            drop_free,
            refers,
        } => Ty::Closure {
            id: *id,
            copy: *copy,
            drop_free: *drop_free,
            refers: *refers,
        },
        Ty::ArrayIter(item) => Ty::ArrayIter(boxed(alloc, item)?),
        Ty::RefIter(item) => Ty::RefIter(boxed(alloc, item)?),
        Ty::Range(kind) => Ty::Range(*kind),
    })
}

#[cycle(copied)]
fn boxed(alloc: Global, ty: &Boxed<Ty>) -> Result<Boxed<Ty>, NoMemory>
    ensures { IfOk result (λ t. t ≡ ty.now) }
{
    let copied = copy_type(alloc, ty.get())?;
    Ok(Boxed::new(alloc, copied)?)
}

#[cycle(copied)]
fn copy_types(alloc: Global, types: &[Ty]) -> Result<Items<Ty>, NoMemory>
    ensures { IfOk result (λ ts. ts ≡ types.now) }
{
    let mut copied = Items::new(alloc);
    for ty in types {
        copied.push(copy_type(alloc, ty)?)?;
    }
    Ok(copied)
}
