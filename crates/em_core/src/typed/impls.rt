//! Impls of traits: what they provide for the methods that an object has.

ghost use Rattle.std.specs.Prelude.{◌≡◌, ◌↔◌, IsTrue, IsSomeAnd, IfOk, All, ◌==◌, find, map, option_and_then, slice_get};
ghost use Rattle.std.specs.Option.{option_copied};
ghost use Rattle.em_core.specs.declared.ty.Ty.{out-Ty};
ghost use Rattle.em_core.specs.declared.ty.Ty as shapes;
ghost use Rattle.em_core.specs.Typed as typed;
ghost use Rattle.em_core.specs.Typed.{AllDifferent, Answers, ImplFunctionOk, ImplOk, OneImpl, ProvidedBy, Provides, ProvidesAll, ProvidesSignature, SameImpl, TakesRest, TakesSelf};

use crate::function::Function;
use crate::methods::{Impl, ImplFunction, Method, Owner, Receiver, Signature};
use crate::program::Core;
use crate::same::{same_type, same_types};
use crate::ty::Ty;
use crate::typed::calls::receiver_takes;
use crate::typed::slots::all_different;
use crate::typed::type_ok::type_ok;
use em_base::{NoMemory, rest_from};
use std::alloc::Global;

#[tactic(auto, unfolding(crate::specs::Typed::TakesSelf))]
fn takes_self(how: Receiver, parameter: &Ty, ty: &Ty) -> bool
    ensures { IsTrue result ↔ TakesSelf how (out-Ty parameter.now) ty.now }
{
    match parameter {
        Ty::Ref { to, unique } => receiver_takes(how, *unique) && same_type(to.get(), ty),
        _ => false,
    }
}

#[tactic(auto, unfolding(crate::specs::Typed::TakesRest))]
fn takes_rest(how: Receiver, parameters: &[Ty], ty: &Ty, wanted: &[Ty]) -> bool
    ensures { IsTrue result ↔ TakesRest how parameters.now ty.now wanted.now }
{
    match parameters {
        [] => false,
        [first, rest @ ..] => takes_self(how, first, ty) && same_types(rest, wanted),
    }
}

/// Whether the function may stand for a method that an object has.
#[tactic(auto, unfolding(crate::specs::Typed::Answers))]
fn answers(ty: &Ty, how: Receiver, signature: &Signature, function: &Function) -> bool
    ensures { IsTrue result ↔ Answers ty.now how signature.now function.now }
{
    takes_rest(
        how,
        function.parameters.as_slice(),
        ty,
        signature.parameters.as_slice(),
    ) && same_type(&function.result, &signature.result)
}

fn is_trait(of: u32, owner: &Owner) -> bool
    ensures { result ≡ typed.is_trait of owner.now }
{
    match owner {
        Owner::Trait(found) => of == *found,
        Owner::Type(_) => false,
    }
}

/// What the impl has for a method.
fn function_for(found: &Impl, method: usize) -> Option<&ImplFunction>
    ensures { option_copied result ≡ find (λ f. f.method == method) found.now.functions }
{
    found
        .functions
        .as_slice()
        .iter()
        .find(|function| function.method as usize == method)
}

/// Whether the impl's function, or the method's default body, may stand for the method.
#[tactic(auto, unfolding(crate::specs::Typed::ProvidedBy))]
fn provided_by(
    core: &Core,
    own: Option<&ImplFunction>,
    found: &Impl,
    method: &Method,
    signature: &Signature,
) -> bool
    ensures { IsTrue result ↔ ProvidedBy core.now (option_copied own.entry) found.now method.now signature.now }
{
    match own {
        Some(own) => match core.functions.get(own.function as usize) {
            Some(function) => answers(&found.ty, method.receiver, signature, function),
            None => false,
        },
        None => default_answers(core, found.of, method, signature),
    }
}

/// Whether the method has a default body, which takes a reference to an object of the trait.
fn default_answers(core: &Core, of: u32, method: &Method, signature: &Signature) -> bool
    ensures { IsTrue result ↔ IsSomeAnd (option_and_then (λ f. slice_get core.now.functions f) method.now.function) (λ g. Answers (shapes.Dyn of) method.now.receiver signature.now g) }
{
    match method.function {
        Some(number) => match core.functions.get(number as usize) {
            Some(function) => answers(&Ty::Dyn(of), method.receiver, signature, function),
            None => false,
        },
        None => false,
    }
}

/// Whether the impl has what an object of its trait needs for a method.
#[tactic(auto, unfolding(crate::specs::Typed::ProvidesSignature, crate::specs::Typed::Provides))]
fn provides(core: &Core, found: &Impl, number: usize, method: &Method) -> bool
    ensures { IsTrue result ↔ Provides core.now found.now number method.now }
{
    if !is_trait(found.of, &method.owner) {
        return true;
    }
    match &method.on_object {
        Some(signature) => provided_by(core, function_for(found, number), found, method, signature),
        None => true,
    }
}

#[tactic(auto, unfolding(crate::specs::Typed::ProvidesAll))]
fn provides_all(core: &Core, found: &Impl) -> bool
    ensures { IsTrue result ↔ ProvidesAll core.now found.now }
{
    let methods = core.methods.methods.as_slice();
    for i in 0..methods.len() {
        if !provides(core, found, i, &methods[i]) {
            return false;
        }
    }
    true
}

#[tactic(auto, unfolding(crate::specs::Typed::ImplFunctionOk))]
fn impl_function_ok(core: &Core, found: &Impl, function: &ImplFunction) -> bool
    ensures { IsTrue result ↔ ImplFunctionOk core.now found.now function.now }
{
    if function.function as usize >= core.functions.len() {
        return false;
    }
    match core.methods.methods.get(function.method as usize) {
        Some(method) => is_trait(found.of, &method.owner),
        None => false,
    }
}

fn impl_functions_ok(core: &Core, found: &Impl) -> bool
    ensures { IsTrue result ↔ All (λ f. ImplFunctionOk core.now found.now f) found.now.functions }
{
    found
        .functions
        .as_slice()
        .iter()
        .all(|function| impl_function_ok(core, found, function))
}

fn methods_of(alloc: Global, functions: &[ImplFunction]) -> Result<Vec<u32>, NoMemory>
    ensures { IfOk result (λ numbers. numbers.items ≡ map (λ f. f.method) functions.now) }
{
    let mut numbers = Vec::new(alloc);
    for function in functions {
        numbers.push(function.method)?;
    }
    Ok(numbers)
}

/// Whether no two functions of an impl are for one method.
fn methods_differ(alloc: Global, functions: &[ImplFunction]) -> Result<bool, NoMemory>
    ensures { IfOk result (λ b. IsTrue b ↔ AllDifferent (map (λ f. f.method) functions.now)) }
{
    let numbers = methods_of(alloc, functions)?;
    all_different(alloc, numbers.as_slice())
}

fn is_impl_type(ty: &Ty) -> bool
    ensures { result ≡ typed.is_impl_type (out-Ty ty.now) }
{
    matches!(ty, Ty::Def(_) | Ty::Int(_) | Ty::Bool | Ty::Char | Ty::Unit)
}

/// Whether an impl is fine: its type, its functions, and what it provides.
#[tactic(auto, unfolding(crate::specs::Typed::ImplOk))]
fn impl_ok(alloc: Global, core: &Core, found: &Impl) -> Result<bool, NoMemory>
    ensures { IfOk result (λ b. IsTrue b ↔ ImplOk core.now found.now) }
{
    if !is_impl_type(&found.ty) || !type_ok(core, &found.ty) {
        return Ok(false);
    }
    if !impl_functions_ok(core, found) || !provides_all(core, found) {
        return Ok(false);
    }
    methods_differ(alloc, found.functions.as_slice())
}

/// Whether all impls are fine.
pub fn impls_ok(alloc: Global, core: &Core) -> Result<bool, NoMemory>
    ensures { IfOk result (λ b. IsTrue b ↔ All (λ i. ImplOk core.now i) core.now.methods.impls) }
{
    let impls = core.methods.impls.as_slice();
    for i in 0..impls.len() {
        if !impl_ok(alloc, core, &impls[i])? {
            return Ok(false);
        }
    }
    Ok(true)
}

#[tactic(auto, unfolding(crate::specs::Typed::SameImpl))]
fn same_impl(found: &Impl, other: &Impl) -> bool
    ensures { IsTrue result ↔ SameImpl found.now other.now }
{
    found.of == other.of && same_type(&found.ty, &other.ty)
}

fn is_only(found: &Impl, others: &[Impl]) -> bool
    ensures { IsTrue result ↔ All (λ o. SameImpl found.now o → ⊥) others.now }
{
    others.iter().all(|other| !same_impl(found, other))
}

/// Whether there is one impl per trait and type.
pub fn one_impl(impls: &[Impl]) -> bool
    ensures { IsTrue result ↔ OneImpl impls.now }
{
    for i in 0..impls.len() {
        if !is_only(&impls[i], rest_from(impls, i + 1)) {
            return false;
        }
    }
    true
}
