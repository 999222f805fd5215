//! The types that expressions give.

ghost use Rattle.std.specs.Prelude.{◌≡◌, not, IfOk, find};
ghost use Rattle.std.specs.List.{list_any};
ghost use Rattle.std.specs.Option.{option_copied};
ghost use Rattle.em_core.specs.declared.ty.Ty.{out-Ty};
ghost use Rattle.em_core.specs.declared.ty.Ty as types;
ghost use Rattle.em_core.specs.Fitting as fitting;
ghost use Rattle.em_core.specs.Rules as rules;

use crate::operator::Constant;
use crate::ty::Ty;
use crate::typed::copied::copy_type;
use crate::typed::fits::is_never;
use crate::typed::places::element_type;
use em_base::NoMemory;
use sqlite_items::Boxed;
use std::alloc::Global;

/// A reference to the type.
pub fn reference(alloc: Global, to: &Ty, unique: bool) -> Result<Ty, NoMemory>
    ensures { IfOk result (λ t. t ≡ types.Ref to.now unique) }
{
    let to = Boxed::new(alloc, copy_type(alloc, to)?)?;
    Ok(Ty::Ref { to, unique })
}

/// An array of so many elements of the type.
pub fn array(alloc: Global, element: &Ty, length: u64) -> Result<Ty, NoMemory>
    ensures { IfOk result (λ t. t ≡ types.Array element.now length) }
{
    let element = Boxed::new(alloc, copy_type(alloc, element)?)?;
    Ok(Ty::Array(element, length))
}

pub fn boxed(alloc: Global, content: &Ty) -> Result<Ty, NoMemory>
    ensures { IfOk result (λ t. t ≡ types.Boxed content.now) }
{
    let content = Boxed::new(alloc, copy_type(alloc, content)?)?;
    Ok(Ty::Boxed(content))
}

pub fn constant_type(alloc: Global, constant: &Constant) -> Result<Ty, NoMemory>
    ensures { IfOk result (λ t. t ≡ fitting.constant_type constant.now) }
{
    match constant {
        Constant::Int { kind, .. } => Ok(Ty::Int(*kind)),
        Constant::Bool(_) => Ok(Ty::Bool),
        Constant::Char(_) => Ok(Ty::Char),
        Constant::Text(_) => reference(alloc, &Ty::Str, false),
        Constant::Unit => Ok(Ty::Unit),
    }
}

fn first_value(types: &[Ty]) -> Option<&Ty>
    ensures { option_copied result ≡ find (λ t. not (fitting.is_never (out-Ty t))) types.now }
{
    types.iter().find(|ty| !is_never(ty))
}

/// The type of branches: the first one's that gives a value.
pub fn branch_type(alloc: Global, types: &[Ty]) -> Result<Ty, NoMemory>
    ensures { IfOk result (λ t. t ≡ fitting.branch_type types.now) }
{
    match first_value(types) {
        Some(first) => copy_type(alloc, first),
        None => Ok(Ty::Never),
    }
}

fn last_type(alloc: Global, types: &[Ty]) -> Result<Ty, NoMemory>
    ensures { IfOk result (λ t. t ≡ fitting.last_type types.now) }
{
    if types.is_empty() {
        return Ok(Ty::Unit);
    }
    copy_type(alloc, &types[types.len() - 1])
}

fn any_never(types: &[Ty]) -> bool
    ensures { result ≡ list_any (λ t. fitting.is_never (out-Ty t)) types.now }
{
    types.iter().any(|ty| is_never(ty))
}

pub fn sequence_type(alloc: Global, types: &[Ty]) -> Result<Ty, NoMemory>
    ensures { IfOk result (λ t. t ≡ fitting.sequence_type types.now) }
{
    if any_never(types) {
        Ok(Ty::Never)
    } else {
        last_type(alloc, types)
    }
}

pub fn loop_type(ends: bool) -> Ty
    ensures { result ≡ rules.loop_type ends }
{
    if ends { Ty::Unit } else { Ty::Never }
}

/// The range between two integers of the type.
pub fn range_type(ty: &Ty) -> Option<Ty>
    ensures { result ≡ fitting.range_type (out-Ty ty.now) }
{
    match ty {
        Ty::Int(kind) => Some(Ty::Range(*kind)),
        _ => None,
    }
}

/// The iterator that an array or a range becomes.
pub fn iterator_type(alloc: Global, ty: &Ty) -> Result<Option<Ty>, NoMemory>
    ensures { IfOk result (λ t. t ≡ fitting.iterator_type (out-Ty ty.now)) }
{
    match ty {
        Ty::Array(element, _) => {
            let item = Boxed::new(alloc, copy_type(alloc, element.get())?)?;
            Ok(Some(Ty::ArrayIter(item)))
        }
        Ty::Range(kind) => Ok(Some(Ty::Range(*kind))),
        _ => Ok(None),
    }
}

/// The iterator over references to the elements that a reference leads to.
pub fn reference_iterator_type(alloc: Global, ty: &Ty) -> Result<Option<Ty>, NoMemory>
    ensures { IfOk result (λ t. t ≡ fitting.reference_iterator_type (out-Ty ty.now)) }
{
    match ty {
        Ty::Ref { to, unique } => match element_type(to.get()) {
            Some(element) => {
                let item = Boxed::new(alloc, reference(alloc, element, *unique)?)?;
                Ok(Some(Ty::RefIter(item)))
            }
            None => Ok(None),
        },
        _ => Ok(None),
    }
}
