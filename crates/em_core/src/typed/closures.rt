//! Functions and closures: what closures capture, what their types say of it, and the bodies.

ghost use Rattle.std.specs.Prelude.{◌≡◌, ◌↔◌, IsTrue, IfOk, All, Any, length, drop};
ghost use Rattle.em_core.specs.declared.ty.Ty.{out-Ty};
ghost use Rattle.em_core.specs.declared.typed.parts.Sought.TheVariants as kinds;
ghost use Rattle.em_core.specs.Deciding.{IsMarked};
ghost use Rattle.em_core.specs.Naming as naming;
ghost use Rattle.em_core.specs.Naming.{CaptureFits, PartsApart};
ghost use Rattle.em_core.specs.Typed.{ClosureOk, ClosureTypeFits, CopyCapture, CopyVariable, DropFreeCapture, DropFreeVariable, FunctionOk, RefersCapture, RefersVariable, SaysCopy, SaysDropFree, SaysRefers, VariableOk};

use crate::copying::is_copy_type;
use crate::function::{Capture, ClosureEntry, Function, Variable};
use crate::mention::By;
use crate::program::Core;
use crate::ty::Ty;
use crate::typed::bodies::body_ok;
use crate::typed::parts::{holds_reference, is_drop_free};
use crate::typed::places::{are_apart, capture_fits};
use crate::typed::slots::slots_apart;
use crate::typed::type_ok::value_type_ok;
use em_base::{NoMemory, rest_from};
use std::alloc::Global;

#[tactic(auto, unfolding(crate::specs::Typed::CopyCapture))]
fn copy_capture(core: &Core, ty: &Ty, capture: &Capture) -> bool
    ensures { IsTrue result ↔ CopyCapture core.now ty.now capture.now }
{
    match capture.by {
        By::Shared => true,
        By::Unique => false,
        By::Value => is_copy_type(core, ty),
    }
}

#[tactic(auto, unfolding(crate::specs::Typed::CopyVariable))]
fn copy_variable(core: &Core, variable: &Variable) -> bool
    ensures { IsTrue result ↔ CopyVariable core.now variable.now }
{
    variable
        .captures
        .as_slice()
        .iter()
        .all(|capture| copy_capture(core, &variable.ty, capture))
}

fn copy_variables(core: &Core, variables: &[Variable]) -> bool
    ensures { IsTrue result ↔ All (λ x. CopyVariable core.now x) variables.now }
{
    variables
        .iter()
        .all(|variable| copy_variable(core, variable))
}

#[tactic(auto, unfolding(crate::specs::Typed::DropFreeCapture))]
fn drop_free_capture(core: &Core, drops: &[bool], ty: &Ty, capture: &Capture) -> bool
    requires { IsMarked core.now kinds.Drops drops.now }
    ensures { IsTrue result ↔ DropFreeCapture core.now ty.now capture.now }
{
    match capture.by {
        By::Shared | By::Unique => true,
        By::Value => is_drop_free(core, drops, ty),
    }
}

#[tactic(auto, unfolding(crate::specs::Typed::DropFreeVariable))]
fn drop_free_variable(core: &Core, drops: &[bool], variable: &Variable) -> bool
    requires { IsMarked core.now kinds.Drops drops.now }
    ensures { IsTrue result ↔ DropFreeVariable core.now variable.now }
{
    let captures = variable.captures.as_slice();
    for i in 0..captures.len() {
        if !drop_free_capture(core, drops, &variable.ty, &captures[i]) {
            return false;
        }
    }
    true
}

fn drop_free_variables(core: &Core, drops: &[bool], variables: &[Variable]) -> bool
    requires { IsMarked core.now kinds.Drops drops.now }
    ensures { IsTrue result ↔ All (λ x. DropFreeVariable core.now x) variables.now }
{
    for i in 0..variables.len() {
        if !drop_free_variable(core, drops, &variables[i]) {
            return false;
        }
    }
    true
}

#[tactic(auto, unfolding(crate::specs::Typed::RefersCapture))]
fn refers_capture(core: &Core, references: &[bool], ty: &Ty, capture: &Capture) -> bool
    requires { IsMarked core.now kinds.References references.now }
    ensures { IsTrue result ↔ RefersCapture core.now ty.now capture.now }
{
    match capture.by {
        By::Shared | By::Unique => true,
        By::Value => holds_reference(core, references, ty),
    }
}

#[tactic(auto, using(crate::proofs::ListLemmas::any_at, crate::proofs::ListLemmas::none_any), unfolding(crate::specs::Typed::RefersVariable))]
fn refers_variable(core: &Core, references: &[bool], variable: &Variable) -> bool
    requires { IsMarked core.now kinds.References references.now }
    ensures { IsTrue result ↔ RefersVariable core.now variable.now }
{
    let captures = variable.captures.as_slice();
    for i in 0..captures.len() {
        if refers_capture(core, references, &variable.ty, &captures[i]) {
            return true;
        }
    }
    false
}

#[tactic(auto, using(crate::proofs::ListLemmas::any_at, crate::proofs::ListLemmas::none_any))]
fn refers_variables(core: &Core, references: &[bool], variables: &[Variable]) -> bool
    requires { IsMarked core.now kinds.References references.now }
    ensures { IsTrue result ↔ Any (λ x. RefersVariable core.now x) variables.now }
{
    for i in 0..variables.len() {
        if refers_variable(core, references, &variables[i]) {
            return true;
        }
    }
    false
}

#[tactic(auto, unfolding(crate::specs::Typed::SaysCopy))]
fn says_copy(core: &Core, variables: &[Variable], copy: bool) -> bool
    ensures { IsTrue result ↔ SaysCopy core.now variables.now copy }
{
    copy == copy_variables(core, variables)
}

#[tactic(auto, unfolding(crate::specs::Typed::SaysDropFree))]
fn says_drop_free(core: &Core, drops: &[bool], variables: &[Variable], drop_free: bool) -> bool
    requires { IsMarked core.now kinds.Drops drops.now }
    ensures { IsTrue result ↔ SaysDropFree core.now variables.now drop_free }
{
    drop_free == drop_free_variables(core, drops, variables)
}

#[tactic(auto, unfolding(crate::specs::Typed::SaysRefers))]
fn says_refers(core: &Core, references: &[bool], variables: &[Variable], refers: bool) -> bool
    requires { IsMarked core.now kinds.References references.now }
    ensures { IsTrue result ↔ SaysRefers core.now variables.now refers }
{
    refers == refers_variables(core, references, variables)
}

/// Whether a closure's type says of its captures what is so.
#[tactic(auto, unfolding(crate::specs::Typed::ClosureTypeFits))]
fn closure_type_fits(core: &Core, drops: &[bool], references: &[bool], entry: &ClosureEntry) -> bool
    requires drops { IsMarked core.now kinds.Drops drops.now }
    requires references { IsMarked core.now kinds.References references.now }
    ensures { IsTrue result ↔ ClosureTypeFits core.now entry.now (out-Ty entry.now.ty) }
{
    let variables = entry.variables.as_slice();
    match &entry.ty {
        Ty::Closure {
            id,
            copy,
            drop_free,
            refers,
        } => {
            *id == entry.id
                && says_copy(core, variables, *copy)
                && says_drop_free(core, drops, variables, *drop_free)
                && says_refers(core, references, variables, *refers)
        }
        _ => false,
    }
}

fn is_apart(capture: &Capture, others: &[Capture]) -> bool
    ensures { IsTrue result ↔ All (λ o. IsTrue (naming.are_apart capture.now.path o.path)) others.now }
{
    others.iter().all(|other| are_apart(capture.path.as_slice(), other.path.as_slice()))
}

fn parts_apart(captures: &[Capture]) -> bool
    ensures { IsTrue result ↔ PartsApart captures.now }
{
    for i in 0..captures.len() {
        if !is_apart(&captures[i], rest_from(captures, i + 1)) {
            return false;
        }
    }
    true
}

fn captures_fit(core: &Core, ty: &Ty, captures: &[Capture]) -> bool
    ensures { IsTrue result ↔ All (λ c. CaptureFits core.now ty.now c) captures.now }
{
    captures
        .iter()
        .all(|capture| capture_fits(core, ty, capture))
}

fn variable_ok(core: &Core, variable: &Variable) -> bool
    ensures { IsTrue result ↔ VariableOk core.now variable.now }
{
    value_type_ok(core, &variable.ty)
        && captures_fit(core, &variable.ty, variable.captures.as_slice())
        && parts_apart(variable.captures.as_slice())
}

fn variables_ok(core: &Core, variables: &[Variable]) -> bool
    ensures { IsTrue result ↔ All (λ x. VariableOk core.now x) variables.now }
{
    variables.iter().all(|variable| variable_ok(core, variable))
}

/// Whether a closure is fine: its type, its captures, its body and the body's slots.
fn closure_ok(
    alloc: Global,
    core: &Core,
    drops: &[bool],
    references: &[bool],
    entry: &ClosureEntry,
) -> Result<bool, NoMemory>
    requires drops { IsMarked core.now kinds.Drops drops.now }
    requires references { IsMarked core.now kinds.References references.now }
    ensures { IfOk result (λ b. IsTrue b ↔ ClosureOk core.now entry.now) }
{
    let parameters = entry.parameters.as_slice();
    let variables = entry.variables.as_slice();
    if !closure_type_fits(core, drops, references, entry) {
        return Ok(false);
    }
    if !variables_ok(core, variables) {
        return Ok(false);
    }
    if !body_ok(
        alloc,
        core,
        parameters,
        entry.slots.as_slice(),
        variables,
        &entry.result,
        &entry.body,
    )? {
        return Ok(false);
    }
    slots_apart(alloc, parameters.len(), &entry.body)
}

fn closures_ok(
    alloc: Global,
    core: &Core,
    drops: &[bool],
    references: &[bool],
    entries: &[ClosureEntry],
) -> Result<bool, NoMemory>
    requires drops { IsMarked core.now kinds.Drops drops.now }
    requires references { IsMarked core.now kinds.References references.now }
    ensures { IfOk result (λ b. IsTrue b ↔ All (λ e. ClosureOk core.now e) entries.now) }
{
    for i in 0..entries.len() {
        if !closure_ok(alloc, core, drops, references, &entries[i])? {
            return Ok(false);
        }
    }
    Ok(true)
}

/// Whether a function is fine, with the closures that are made in it.
fn function_ok(
    alloc: Global,
    core: &Core,
    drops: &[bool],
    references: &[bool],
    function: &Function,
) -> Result<bool, NoMemory>
    requires drops { IsMarked core.now kinds.Drops drops.now }
    requires references { IsMarked core.now kinds.References references.now }
    ensures { IfOk result (λ b. IsTrue b ↔ FunctionOk core.now function.now) }
{
    let parameters = function.parameters.as_slice();
    if !body_ok(
        alloc,
        core,
        parameters,
        function.slots.as_slice(),
        &[],
        &function.result,
        &function.body,
    )? {
        return Ok(false);
    }
    if !slots_apart(alloc, parameters.len(), &function.body)? {
        return Ok(false);
    }
    closures_ok(alloc, core, drops, references, function.closures.as_slice())
}

/// Whether all functions are fine.
pub fn functions_ok(
    alloc: Global,
    core: &Core,
    drops: &[bool],
    references: &[bool],
) -> Result<bool, NoMemory>
    requires drops { IsMarked core.now kinds.Drops drops.now }
    requires references { IsMarked core.now kinds.References references.now }
    ensures { IfOk result (λ b. IsTrue b ↔ All (λ g. FunctionOk core.now g) core.now.functions) }
{
    let functions = core.functions.as_slice();
    for i in 0..functions.len() {
        if !function_ok(alloc, core, drops, references, &functions[i])? {
            return Ok(false);
        }
    }
    Ok(true)
}
