ghost use Rattle.std.specs.Prelude.{◌≡◌, ◌++◌, ℕ, List, [], ◌∷◌, All, Any, AllPairs, IfOk, MatchBool, MatchOption, OnOk, map};
ghost use Rattle.em_base.specs.declared.edit.Part.{Part};
ghost use Rattle.em_edit.specs.Ends.{last_of, AreClear, Holds, HoldsClear, IsEarlierOrClear, IsLastUpTo, IsReach, NoneUpTo};
ghost use Rattle.em_edit.specs.Meet.{Meet, OneMeets, TwoMeet};
ghost use Rattle.em_edit.specs.Order.{StartsNoLater};

use crate::order::in_order;
use em_base::{NoMemory, Part, Span};
use std::alloc::Global;
use std::collections::BTreeMap;

/// The places where ranges start, with the last offset that is taken from there on.
pub type Ends = BTreeMap<(u32, u32), u32>;

/// The map of no range.
pub fn no_ends(alloc: Global) -> Ends
    ensures { HoldsClear result [] }
{
    BTreeMap::new(alloc)
}

/// The last offset that a range takes: that of its last byte. An insertion takes the offset where it is put in.
fn last_of(span: Span) -> u32
    ensures { result ≡ last_of span }
{
    span.start.max(span.end.saturating_sub(1))
}

/// The last entry up to a place.
fn last_up_to(ends: &Ends, place: (u32, u32)) -> Option<((u32, u32), u32)>
    ensures { MatchOption result (NoneUpTo ends.now place) (λ e. IsLastUpTo ends.now place e.0 e.1) }
{
    match ends.range(..=place).next_back() {
        Some((start, last)) => Some((*start, *last)),
        None => None,
    }
}

/// Whether a range meets one of the map's.
fn meets(ends: &Ends, span: Span) -> bool
    ensures { (p : Part) (parts : List Part) → p.span ≡ span → Holds ends.now parts → MatchBool result (Any (Meet p) parts) (All (AreClear p) parts) }
{
    match last_up_to(ends, (span.file, last_of(span))) {
        Some((place, last)) => place.0 == span.file && span.start <= last,
        None => false,
    }
}

/// The last offset that a range or an entry of its file up to its start takes.
fn reach_of(ends: &Ends, span: Span) -> u32
    ensures { IsReach ends.now span result }
{
    let own = last_of(span);
    match last_up_to(ends, (span.file, span.start)) {
        Some((place, last)) => {
            if place.0 == span.file {
                last.max(own)
            } else {
                own
            }
        }
        None => own,
    }
}

/// Puts a range into the map. It meets none there that starts behind it.
fn put(ends: &mut Ends, span: Span) -> Result<(), NoMemory>
    ensures { OnOk result ((p : Part) (parts : List Part) → p.span ≡ span → Holds ends.old parts → All (IsEarlierOrClear p) parts → Holds ends.new (parts ++ p ∷ [])) }
{
    let reach = reach_of(ends, span);
    ends.insert((span.file, span.start), reach)?;
    Ok(())
}

/// Puts parts into the map, up to the first that meets one there. Whether all are put in.
pub fn put_all(ends: &mut Ends, parts: &[Part]) -> Result<bool, NoMemory>
    ensures { (before : List Part) → HoldsClear ends.old before → IfOk result (λ all. MatchBool all (HoldsClear ends.new (before ++ parts.now)) (TwoMeet (before ++ parts.now))) }
{
    for part in parts {
        if meets(ends, part.span) {
            return Ok(false);
        }
        put(ends, part.span)?;
    }
    Ok(true)
}

/// Whether a part meets one of the map's.
fn meets_any(ends: &Ends, parts: &[Part]) -> bool
    ensures { (before : List Part) → Holds ends.now before → MatchBool result (OneMeets parts.now before) (All (λ p. All (AreClear p) before) parts.now) }
{
    for part in parts {
        if meets(ends, part.span) {
            return true;
        }
    }
    false
}

/// Puts parts into the map, which stand in order and may meet one another, but none of the map's.
fn put_in_order(ends: &mut Ends, parts: &[&Part]) -> Result<(), NoMemory>
    ensures { (before : List Part) → Holds ends.old before → All (λ p. All (AreClear p) before) (map (λ p. p.now) parts.now) → AllPairs StartsNoLater (map (λ p. p.now) parts.now) → OnOk result (Holds ends.new (before ++ map (λ p. p.now) parts.now)) }
{
    for part in parts {
        put(ends, part.span)?;
    }
    Ok(())
}

/// Puts the parts of a finding into the map if none meets one there. Whether it does.
pub fn admit(alloc: Global, ends: &mut Ends, parts: &[Part]) -> Result<bool, NoMemory>
    ensures { (before : List Part) → Holds ends.old before → IfOk result (λ admitted. MatchBool admitted ((OneMeets parts.now before → ⊥) × Holds ends.new (before ++ parts.now)) (OneMeets parts.now before × Holds ends.new before)) }
{
    if meets_any(ends, parts) {
        return Ok(false);
    }
    let ordered = in_order(alloc, parts)?;
    put_in_order(ends, ordered.as_slice())?;
    Ok(true)
}
