//! What the variables of a matcher are bound to.

ghost use Rattle.std.specs.Prelude.{◌≡◌, ◌++◌, map, IfOk, OnOk};
ghost use Rattle.em_macro.specs.declared.rules.Matcher.{out-Matcher};
ghost use Rattle.em_macro.specs.Match as law;

use crate::matched::{Binding, Bound};
use crate::rules::Matcher;
use crate::tokens::same_name;
use em_base::{Name, NoMemory};
use em_tree::Shared;
use sqlite_items::Items;
use std::alloc::Global;

#[cycle(names)]
fn names_of(depth: usize, matcher: &Matcher, found: &mut Items<Name>) -> Result<(), NoMemory>
    ensures { OnOk result (found.new ≡ found.old ++ law.names_of (law.names depth) (out-Matcher matcher.now)) }
{
    match matcher {
        Matcher::Token(_) => Ok(()),
        Matcher::Fragment { name, .. } => {
            found.push(name.share()?)?;
            Ok(())
        }
        Matcher::Delimited { body, .. } => names(depth, body.as_slice(), found),
        Matcher::Repeat { body, .. } => names(depth, body.as_slice(), found),
    }
}

/// The variables of the matcher, in order.
#[cycle(names)]
pub fn names(depth: usize, matchers: &[Matcher], found: &mut Items<Name>) -> Result<(), NoMemory>
    ensures { OnOk result (found.new ≡ found.old ++ law.names depth matchers.now) }
{
    if depth == 0 {
        return Ok(());
    }
    for matcher in matchers {
        names_of(depth - 1, matcher, found)?;
    }
    Ok(())
}

pub fn share_bound(bound: &Bound) -> Result<Bound, NoMemory>
    ensures { IfOk result (λ b. b ≡ bound.now) }
{
    match bound {
        Bound::One(found) => Ok(Bound::One(found.share()?)),
        Bound::Many(all) => Ok(Bound::Many(all.share()?)),
    }
}

pub fn bound_to(alloc: Global, name: &Name, bindings: &[Binding]) -> Result<Bound, NoMemory>
    ensures { IfOk result (λ b. b ≡ law.bound_to name.now bindings.now) }
{
    for binding in bindings {
        if same_name(name, &binding.name) {
            return share_bound(&binding.bound);
        }
    }
    Ok(Bound::Many(Shared::new(alloc, Items::new(alloc))?))
}

fn column(alloc: Global, name: &Name, copies: &[Items<Binding>]) -> Result<Items<Bound>, NoMemory>
    ensures { IfOk result (λ b. b ≡ map (law.bound_to name.now) copies.now) }
{
    let mut found = Items::new(alloc);
    for copy in copies {
        found.push(bound_to(alloc, name, copy.as_slice())?)?;
    }
    Ok(found)
}

/// Binds each variable to the list of what the copies bind it to.
pub fn gather(
    alloc: Global,
    names: &[Name],
    copies: &[Items<Binding>],
) -> Result<Items<Binding>, NoMemory>
    ensures { IfOk result (λ b. b ≡ law.gather names.now copies.now) }
{
    let mut found = Items::new(alloc);
    for name in names {
        let bound = Bound::Many(Shared::new(alloc, column(alloc, name, copies)?)?);
        found.push(Binding {
            name: name.share()?,
            bound,
        })?;
    }
    Ok(found)
}
