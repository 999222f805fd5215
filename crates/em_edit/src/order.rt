ghost use Rattle.std.specs.Prelude.{◌≡◌, AllPairs, IfOk, map};
ghost use Rattle.std.specs.List.Sorted.{IsPermutation};
ghost use Rattle.em_edit.specs.Edited.{all_parts};
ghost use Rattle.em_edit.specs.Order.{StartsNoLater};

use em_base::{NoMemory, Part, Suggestion};
use std::alloc::Global;

/// Parts in the order of (file, start).
fn sorted<'a>(mut parts: Vec<&'a Part>) -> Result<Vec<&'a Part>, NoMemory>
    ensures same { IfOk result (λ v. IsPermutation (map (λ p. p.now) parts.entry.items) (map (λ p. p.now) v.items)) }
    ensures order { IfOk result (λ v. AllPairs StartsNoLater (map (λ p. p.now) v.items)) }
{
    parts.sort_by_key(|part| (part.span.file, part.span.start))?;
    Ok(parts)
}

/// The parts of a suggestion in the order of (file, start).
pub fn in_order<'a>(alloc: Global, parts: &'a [Part]) -> Result<Vec<&'a Part>, NoMemory>
    ensures same { IfOk result (λ v. IsPermutation parts.now (map (λ p. p.now) v.items)) }
    ensures order { IfOk result (λ v. AllPairs StartsNoLater (map (λ p. p.now) v.items)) }
{
    let mut all = Vec::new(alloc);
    for part in parts {
        all.push(part)?;
    }
    sorted(all)
}

/// All parts of suggestions.
fn parts_of<'a>(alloc: Global, taken: &'a [Suggestion]) -> Result<Vec<&'a Part>, NoMemory>
    ensures { IfOk result (λ v. map (λ p. p.now) v.items ≡ all_parts taken.now) }
{
    let mut parts = Vec::new(alloc);
    for suggestion in taken {
        for part in suggestion.parts.as_slice() {
            parts.push(part)?;
        }
    }
    Ok(parts)
}

/// All parts of suggestions in the order of (file, start).
pub fn ordered_parts<'a>(alloc: Global, taken: &'a [Suggestion]) -> Result<Vec<&'a Part>, NoMemory>
    ensures same { IfOk result (λ v. IsPermutation (all_parts taken.now) (map (λ p. p.now) v.items)) }
    ensures order { IfOk result (λ v. AllPairs StartsNoLater (map (λ p. p.now) v.items)) }
{
    sorted(parts_of(alloc, taken)?)
}
