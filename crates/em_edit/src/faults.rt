ghost use Rattle.std.specs.Prelude.{◌≡◌, ◌++◌, ◌<◌, ◌^◌, List, length, All, Any, MatchBool, IfErr, OnOk};
ghost use Rattle.em_base.specs.declared.edit.Part.{Part};
ghost use Rattle.em_edit.specs.Check.{IsFault};
ghost use Rattle.em_edit.specs.Ends.{HoldsClear};
ghost use Rattle.em_edit.specs.Faults.{IsInText, IsOnBoundaries, IsRefused};
ghost use Rattle.em_edit.specs.Fit.{is_boundary, AreApplicable, LiesIn};

use crate::bad_edit::BadEdit;
use crate::ends::{Ends, no_ends, put_all};
use em_base::{Bytes, Part, Suggestion};
use std::alloc::Global;

/// Whether no character is cut at an offset of a text.
fn is_boundary(text: &[u8], offset: u32) -> bool
    ensures { result ≡ is_boundary text.now offset }
{
    match text.get(offset as usize) {
        Some(byte) => !(128 <= *byte && *byte <= 191),
        None => true,
    }
}

/// Whether a part is a range of a source.
fn is_in_text(sources: &[Bytes], part: &Part) -> bool
    ensures { MatchBool result (IsInText sources.now part.now) (IsInText sources.now part.now → ⊥) }
{
    let span = part.span;
    match sources.get(span.file as usize) {
        Some(text) => span.start <= span.end && span.end as usize <= text.len(),
        None => false,
    }
}

/// Whether a part cuts no character of its source.
fn is_on_boundaries(sources: &[Bytes], part: &Part) -> bool
    ensures { MatchBool result (IsOnBoundaries sources.now part.now) (IsOnBoundaries sources.now part.now → ⊥) }
{
    let span = part.span;
    match sources.get(span.file as usize) {
        Some(text) => {
            is_boundary(text.as_slice(), span.start) && is_boundary(text.as_slice(), span.end)
        }
        None => false,
    }
}

/// Whether all parts are ranges of the sources.
fn are_in_text(sources: &[Bytes], parts: &[Part]) -> bool
    ensures { MatchBool result (All (IsInText sources.now) parts.now) (Any (λ p. IsInText sources.now p → ⊥) parts.now) }
{
    parts.iter().all(|part| is_in_text(sources, part))
}

/// Whether no part cuts a character.
fn are_on_boundaries(sources: &[Bytes], parts: &[Part]) -> bool
    ensures { MatchBool result (All (IsOnBoundaries sources.now) parts.now) (Any (λ p. IsOnBoundaries sources.now p → ⊥) parts.now) }
{
    parts.iter().all(|part| is_on_boundaries(sources, part))
}

/// Whether the suggestion at an index can be applied behind those whose parts are in the map, and puts its parts in.
fn check_one(sources: &[Bytes], ends: &mut Ends, which: u32, parts: &[Part]) -> Result<(), BadEdit>
    ensures lie { OnOk result (All (LiesIn sources.now) parts.now) }
    ensures put { (before : List Part) → HoldsClear ends.old before → OnOk result (HoldsClear ends.new (before ++ parts.now)) }
    ensures fault { (before : List Part) → HoldsClear ends.old before → IfErr result (IsFault sources.now before parts.now which) }
{
    if !are_in_text(sources, parts) {
        return Err(BadEdit::OutOfText { which });
    }
    if !are_on_boundaries(sources, parts) {
        return Err(BadEdit::NotBoundary { which });
    }
    if !put_all(ends, parts)? {
        return Err(BadEdit::Overlap { which });
    }
    Ok(())
}

/// Whether all suggestions can be applied to the sources, and else the first fault of the first that can't.
pub fn check_all(alloc: Global, sources: &[Bytes], taken: &[Suggestion]) -> Result<(), BadEdit>
    requires { length taken.now < 2 ^ 32 }
    ensures fit { OnOk result (AreApplicable sources.now taken.now) }
    ensures refused { IfErr result (IsRefused sources.now taken.now) }
{
    let mut ends = no_ends(alloc);
    for (which, suggestion) in taken.iter().enumerate() {
        check_one(
            sources,
            &mut ends,
            which as u32,
            suggestion.parts.as_slice(),
        )?;
    }
    Ok(())
}
