//! The whole of a Core.

ghost use Rattle.std.specs.Prelude.{◌≡◌, ◌↔◌, ◌++◌, ℕ, IsTrue, IfOk, OnOk, All, Some, map, slice_get};
ghost use Rattle.em_core.specs.Facts as facts;
ghost use Rattle.em_core.specs.Typed.{AllDifferent, DefOk, FunctionOk, MethodOk, Typed};
ghost use Rattle.em_core.specs.declared.definition.TypeDef.{TypeDef as Def};

use crate::function::ClosureEntry;
use crate::program::Core;
use crate::typed::bodies::{def_ok, entry_ok, method_ok};
use crate::typed::closures::functions_ok;
use crate::typed::impls::{impls_ok, one_impl};
use crate::typed::parts::{Sought, marks};
use crate::typed::slots::all_different;
use em_base::NoMemory;
use std::alloc::Global;

fn defs_ok(core: &Core) -> bool
    ensures { IsTrue result ↔ ((d : ℕ) (x : Def) → slice_get core.now.types d ≡ Some x → DefOk core.now d x) }
{
    let types = core.types.as_slice();
    for i in 0..types.len() {
        if !def_ok(core, i, &types[i]) {
            return false;
        }
    }
    true
}

fn methods_ok(core: &Core) -> bool
    ensures { IsTrue result ↔ All (λ x. MethodOk core.now x) core.now.methods.methods }
{
    core.methods
        .methods
        .as_slice()
        .iter()
        .all(|method| method_ok(core, method))
}

fn push_numbers(entries: &[ClosureEntry], numbers: &mut Vec<u32>) -> Result<(), NoMemory>
    ensures { OnOk result (numbers.new.items ≡ numbers.old.items ++ map (λ e. e.id) entries.now) }
{
    for entry in entries {
        numbers.push(entry.id)?;
    }
    Ok(())
}

/// The numbers of all closures.
fn closure_numbers(alloc: Global, core: &Core) -> Result<Vec<u32>, NoMemory>
    ensures { IfOk result (λ numbers. numbers.items ≡ map (λ e. e.id) (facts.closures_of core.now)) }
{
    let mut numbers = Vec::new(alloc);
    for function in core.functions.as_slice() {
        push_numbers(function.closures.as_slice(), &mut numbers)?;
    }
    Ok(numbers)
}

/// Whether no two closures have one number.
fn closures_differ(alloc: Global, core: &Core) -> Result<bool, NoMemory>
    ensures { IfOk result (λ b. IsTrue b ↔ AllDifferent (map (λ e. e.id) (facts.closures_of core.now))) }
{
    let numbers = closure_numbers(alloc, core)?;
    all_different(alloc, numbers.as_slice())
}

/// Whether all functions are fine, by the types that have a part with a Drop impl or a reference.
fn bodies_ok(alloc: Global, core: &Core) -> Result<bool, NoMemory>
    ensures { IfOk result (λ b. IsTrue b ↔ All (λ g. FunctionOk core.now g) core.now.functions) }
{
    let drops = marks(alloc, core, Sought::Drops)?;
    let references = marks(alloc, core, Sought::References)?;
    functions_ok(alloc, core, drops.as_slice(), references.as_slice())
}

/// Whether a Core is typed: its numbers name what it has, and each expression gives and takes values of the types that its place asks. It looks at the Core alone and runs nothing.
///
/// Answers `Err` for want of memory alone.
pub fn is_typed(alloc: Global, core: &Core) -> Result<bool, NoMemory>
    ensures { IfOk result (λ b. IsTrue b ↔ Typed core.now) }
{
    if !defs_ok(core) || !methods_ok(core) || !entry_ok(core) {
        return Ok(false);
    }
    if !one_impl(core.methods.impls.as_slice()) || !impls_ok(alloc, core)? {
        return Ok(false);
    }
    if !closures_differ(alloc, core)? {
        return Ok(false);
    }
    bodies_ok(alloc, core)
}
