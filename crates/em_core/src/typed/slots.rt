//! The slots of a body that are a scope's or a dropped value's own.

ghost use Rattle.std.specs.Prelude.{◌≡◌, ◌↔◌, ◌++◌, ◌≤◌, IsTrue, IfOk, OnOk, All};
ghost use Rattle.em_core.specs.declared.expr.Expr.{out-Expr};
ghost use Rattle.em_core.specs.Deciding.{Adds};
ghost use Rattle.em_core.specs.Typed as typed;
ghost use Rattle.em_core.specs.Typed.{AllDifferent, SlotsApart};

use crate::expr::Expr;
use crate::typed::children::child_at;
use em_base::NoMemory;
use std::alloc::Global;
use std::collections::BTreeSet;

/// The slots that an expression itself lists.
fn push_own(e: &Expr, listed: &mut Vec<u32>) -> Result<(), NoMemory>
    ensures { OnOk result (listed.new.items ≡ listed.old.items ++ typed.own_slots (out-Expr e.now)) }
{
    match e {
        Expr::Scope { slots, .. } => {
            listed.extend_from_slice(slots.as_slice())?;
            Ok(())
        }
        Expr::DropValue { slot, .. } => {
            listed.push(*slot)?;
            Ok(())
        }
        _ => Ok(()),
    }
}

/// The slots that an expression and its operands list.
fn push_listed(e: &Expr, listed: &mut Vec<u32>) -> Result<(), NoMemory>
    ensures { OnOk result (Adds e.now listed.old.items listed.new.items) }
{
    push_own(e, listed)?;
    let mut at = 0;
    while let Some(child) = child_at(e, at) {
        push_listed(child, listed)?;
        at += 1;
    }
    Ok(())
}

#[tactic(auto, using(crate::proofs::SlotLemmas::apart_all, crate::proofs::SlotLemmas::not_apart))]
/// Whether no two of the numbers are equal.
pub fn all_different(alloc: Global, numbers: &[u32]) -> Result<bool, NoMemory>
    ensures { IfOk result (λ answer. IsTrue answer ↔ AllDifferent numbers.now) }
{
    let mut seen: BTreeSet<u32> = BTreeSet::new(alloc);
    for number in numbers {
        if !seen.insert(*number)? {
            return Ok(false);
        }
    }
    Ok(true)
}

fn all_above(parameters: usize, slots: &[u32]) -> bool
    ensures { IsTrue result ↔ All (λ s. parameters ≤ s) slots.now }
{
    slots.iter().all(|slot| parameters <= *slot as usize)
}

/// Whether no slot is listed twice, and no parameter's is.
pub fn slots_apart(alloc: Global, parameters: usize, body: &Expr) -> Result<bool, NoMemory>
    ensures { IfOk result (λ answer. IsTrue answer ↔ SlotsApart parameters body.now) }
{
    let mut listed = Vec::new(alloc);
    push_listed(body, &mut listed)?;
    if !all_above(parameters, listed.as_slice()) {
        return Ok(false);
    }
    all_different(alloc, listed.as_slice())
}
