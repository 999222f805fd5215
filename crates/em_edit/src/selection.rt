ghost use Rattle.std.specs.Prelude.{◌≡◌, ◌<◌, ◌^◌, length, map, IfOk};
ghost use Rattle.em_edit.specs.Selected.{turns_from, IsSelection, IsWalk};

use crate::ends::{admit, no_ends};
use em_base::{List, NoMemory, Suggestion};
use std::alloc::Global;

/// A finding's anchor, (file, start, end), and its index.
type Turn = ((u32, u32, u32), u32);

/// All findings by their anchors and indices.
fn turns(alloc: Global, findings: &[Suggestion]) -> Result<Vec<Turn>, NoMemory>
    requires { length findings.now < 2 ^ 32 }
    ensures { IfOk result (λ turns. turns.items ≡ turns_from 0 findings.now) }
{
    let mut turns = Vec::new(alloc);
    for (index, finding) in findings.iter().enumerate() {
        let anchor = finding.anchor;
        turns.push(((anchor.file, anchor.start, anchor.end), index as u32))?;
    }
    Ok(turns)
}

/// All findings in the order of their walk.
fn walk(alloc: Global, findings: &[Suggestion]) -> Result<Vec<Turn>, NoMemory>
    requires { length findings.now < 2 ^ 32 }
    ensures { IfOk result (λ turns. IsWalk findings.now (map (λ t. t.1) turns.items)) }
{
    let mut turns = turns(alloc, findings)?;
    turns.sort()?;
    Ok(turns)
}

/// The indices of the findings that are taken, in the order in which they are taken. They are walked by their anchors,
/// (file, start, end), those with equal anchors in the order of the list. One is taken exactly if no part of it meets
/// one of a finding that is taken before. Its own parts may meet one another; `apply` then refuses it.
///
/// Takes time n log n in the number of findings and their parts.
pub fn select(alloc: Global, findings: &List<Suggestion>) -> Result<List<u32>, NoMemory>
    requires { length findings.now < 2 ^ 32 }
    ensures { IfOk result (IsSelection findings.now) }
{
    let turns = walk(alloc, findings.as_slice())?;
    let mut ends = no_ends(alloc);
    let mut taken = List::new(alloc);
    for turn in &turns {
        let parts = findings.as_slice()[turn.1 as usize].parts.as_slice();
        if admit(alloc, &mut ends, parts)? {
            taken.push(turn.1)?;
        }
    }
    Ok(taken)
}
