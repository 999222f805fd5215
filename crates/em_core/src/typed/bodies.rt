//! Bodies, type definitions, methods and the entry.

ghost use Rattle.std.specs.Prelude.{◌≡◌, ◌↔◌, IsTrue, IfOk, All, IsSomeAnd, slice_get};
ghost use Rattle.em_core.specs.declared.ty.Ty.{out-Ty};
ghost use Rattle.em_core.specs.Typed as typed;
ghost use Rattle.em_core.specs.Typed.{AreFirst, BodyOk, CopyOk, DefOk, DropOk, EntryOk, FieldsCopy, FieldsOk, IsDropFor, IsEntry, MethodFunctionOk, MethodOk, ObjectMethodOk, OwnerOk};
ghost use Rattle.em_core.specs.Types.{ValueTypeOk};

use crate::copying::is_copy_type;
use crate::definition::{TypeDef, Variant};
use crate::expr::Expr;
use crate::function::{Function, Variable};
use crate::methods::{Method, Owner, Receiver, Signature};
use crate::program::Core;
use crate::same::same_type;
use crate::ty::Ty;
use crate::typed::fits::fits;
use crate::typed::scene::Scene;
use crate::typed::type_ok::{type_ok, value_type_ok};
use em_base::NoMemory;
use std::alloc::Global;

#[tactic(auto, unfolding(crate::specs::Typed::AreFirst))]
fn are_first(parameters: &[Ty], slots: &[Ty]) -> bool
    ensures { IsTrue result ↔ AreFirst parameters.now slots.now }
{
    if slots.len() < parameters.len() {
        return false;
    }
    for i in 0..parameters.len() {
        if !same_type(&parameters[i], &slots[i]) {
            return false;
        }
    }
    true
}

fn value_types_ok(core: &Core, types: &[Ty]) -> bool
    ensures { IsTrue result ↔ All (λ t. ValueTypeOk core.now t) types.now }
{
    types.iter().all(|ty| value_type_ok(core, ty))
}

/// Whether a body gives what its function or closure says.
pub fn returns(
    alloc: Global,
    core: &Core,
    slots: &[Ty],
    roots: &[Variable],
    wanted: &Ty,
    body: &Expr,
) -> Result<bool, NoMemory>
    ensures { IfOk result (λ b. IsTrue b ↔ typed.Returns core.now slots.now roots.now wanted.now body.now) }
{
    let scene = Scene {
        alloc,
        core,
        slots,
        roots,
        result: wanted,
    };
    match scene.type_of(body, false)? {
        Some(given) => Ok(fits(&given.ty, wanted)),
        None => Ok(false),
    }
}

/// Whether the types of a body fit: its parameters are its first slots, and it gives the result.
#[tactic(auto, unfolding(crate::specs::Typed::BodyOk))]
pub fn body_ok(
    alloc: Global,
    core: &Core,
    parameters: &[Ty],
    slots: &[Ty],
    roots: &[Variable],
    wanted: &Ty,
    body: &Expr,
) -> Result<bool, NoMemory>
    ensures { IfOk result (λ b. IsTrue b ↔ BodyOk core.now parameters.now slots.now roots.now wanted.now body.now) }
{
    if !value_type_ok(core, wanted) {
        return Ok(false);
    }
    if !value_types_ok(core, slots) {
        return Ok(false);
    }
    if !are_first(parameters, slots) {
        return Ok(false);
    }
    returns(alloc, core, slots, roots, wanted, body)
}

fn is_unit(ty: &Ty) -> bool
    ensures { result ≡ typed.is_unit (out-Ty ty.now) }
{
    matches!(ty, Ty::Unit)
}

fn is_def_of(def: usize, ty: &Ty) -> bool
    ensures { result ≡ typed.is_unique_def def (out-Ty ty.now) }
{
    match ty {
        Ty::Def(found) => def == *found as usize,
        _ => false,
    }
}

fn is_drop_parameter(def: usize, ty: &Ty) -> bool
    ensures { result ≡ typed.is_drop_parameter def (out-Ty ty.now) }
{
    match ty {
        Ty::Ref { to, unique: true } => is_def_of(def, to.get()),
        _ => false,
    }
}

#[tactic(auto, unfolding(crate::specs::Typed::IsDropFor))]
fn is_drop_for(def: usize, function: &Function) -> bool
    ensures { IsTrue result ↔ IsDropFor def function.now }
{
    match function.parameters.as_slice() {
        [only] => is_drop_parameter(def, only) && is_unit(&function.result),
        _ => false,
    }
}

#[tactic(auto, unfolding(crate::specs::Typed::DropOk))]
fn drop_ok(core: &Core, def: usize, drop: Option<u32>) -> bool
    ensures { IsTrue result ↔ DropOk core.now def drop }
{
    match drop {
        Some(number) => match core.functions.get(number as usize) {
            Some(function) => is_drop_for(def, function),
            None => false,
        },
        None => true,
    }
}

#[tactic(auto, unfolding(crate::specs::Typed::FieldsOk))]
fn fields_ok(core: &Core, variant: &Variant) -> bool
    ensures { IsTrue result ↔ FieldsOk core.now variant.now }
{
    variant
        .fields
        .as_slice()
        .iter()
        .all(|ty| value_type_ok(core, ty))
}

#[tactic(auto, unfolding(crate::specs::Typed::FieldsCopy))]
fn fields_copy(core: &Core, variant: &Variant) -> bool
    ensures { IsTrue result ↔ FieldsCopy core.now variant.now }
{
    variant
        .fields
        .as_slice()
        .iter()
        .all(|ty| is_copy_type(core, ty))
}

fn all_fields_copy(core: &Core, variants: &[Variant]) -> bool
    ensures { IsTrue result ↔ All (λ v. FieldsCopy core.now v) variants.now }
{
    variants.iter().all(|variant| fields_copy(core, variant))
}

fn all_fields_ok(core: &Core, variants: &[Variant]) -> bool
    ensures { IsTrue result ↔ All (λ v. FieldsOk core.now v) variants.now }
{
    variants.iter().all(|variant| fields_ok(core, variant))
}

#[tactic(auto, unfolding(crate::specs::Typed::CopyOk))]
fn copy_ok(core: &Core, ty: &TypeDef) -> bool
    ensures { IsTrue result ↔ CopyOk core.now ty.now.copy ty.now }
{
    if ty.copy {
        ty.drop.is_none() && all_fields_copy(core, ty.variants.as_slice())
    } else {
        true
    }
}

/// Whether a struct or an enum is fine: its fields' types, its Drop function, and what `Copy` asks.
#[tactic(auto, unfolding(crate::specs::Typed::DefOk))]
pub fn def_ok(core: &Core, def: usize, ty: &TypeDef) -> bool
    ensures { IsTrue result ↔ DefOk core.now def ty.now }
{
    all_fields_ok(core, ty.variants.as_slice()) && drop_ok(core, def, ty.drop) && copy_ok(core, ty)
}

#[tactic(auto, unfolding(crate::specs::Typed::OwnerOk))]
fn owner_ok(core: &Core, owner: &Owner) -> bool
    ensures { IsTrue result ↔ OwnerOk core.now owner.now }
{
    match owner {
        Owner::Type(ty) => type_ok(core, ty),
        Owner::Trait(_) => true,
    }
}

#[tactic(auto, unfolding(crate::specs::Typed::MethodFunctionOk))]
fn method_function_ok(core: &Core, function: Option<u32>) -> bool
    ensures { IsTrue result ↔ MethodFunctionOk core.now function }
{
    match function {
        Some(number) => (number as usize) < core.functions.len(),
        None => true,
    }
}

fn is_some_trait(owner: &Owner) -> bool
    ensures { result ≡ typed.is_some_trait owner.now }
{
    matches!(owner, Owner::Trait(_))
}

fn is_by_reference(receiver: Receiver) -> bool
    ensures { result ≡ typed.is_by_reference receiver }
{
    matches!(receiver, Receiver::Shared | Receiver::Unique)
}

#[tactic(auto, unfolding(crate::specs::Typed::ObjectMethodOk))]
fn object_method_ok(core: &Core, method: &Method) -> bool
    ensures { IsTrue result ↔ ObjectMethodOk core.now method.now method.now.on_object }
{
    match &method.on_object {
        Some(signature) => {
            is_some_trait(&method.owner)
                && is_by_reference(method.receiver)
                && value_types_ok(core, signature.parameters.as_slice())
                && value_type_ok(core, &signature.result)
        }
        None => true,
    }
}

/// Whether a method's numbers name something, and an object may have it if it says so.
#[tactic(auto, unfolding(crate::specs::Typed::MethodOk))]
pub fn method_ok(core: &Core, method: &Method) -> bool
    ensures { IsTrue result ↔ MethodOk core.now method.now }
{
    owner_ok(core, &method.owner)
        && method_function_ok(core, method.function)
        && object_method_ok(core, method)
}

#[tactic(auto, unfolding(crate::specs::Typed::IsEntry))]
fn is_entry(function: &Function) -> bool
    ensures { IsTrue result ↔ IsEntry function.now }
{
    match function.parameters.as_slice() {
        [] => is_unit(&function.result),
        _ => false,
    }
}

/// Whether the entry, if there is one, has no parameter and the result `()`.
#[tactic(auto, unfolding(crate::specs::Typed::EntryOk))]
pub fn entry_ok(core: &Core) -> bool
    ensures { IsTrue result ↔ EntryOk core.now core.now.entry }
{
    match core.entry {
        Some(number) => match core.functions.get(number as usize) {
            Some(function) => is_entry(function),
            None => false,
        },
        None => true,
    }
}
