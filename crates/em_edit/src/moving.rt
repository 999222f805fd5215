ghost use Rattle.std.specs.Prelude.{◌≡◌, ◌+◌, ◌-◌, ◌^◌, ◌<◌, ◌≤◌, min, sum_by};
ghost use Rattle.em_edit.specs.Edited.{all_parts, parts_of};
ghost use Rattle.em_edit.specs.Moved.{moved_offset, moved_span, IsMovable};
ghost use Rattle.em_edit.specs.Shift.{put_by, removed_by, HasPlace};

use em_base::{List, Part, Span, Suggestion};

/// An offset of a file, and whether it passes an insertion there.
#[derive(Clone, Copy)]
struct Spot {
    file: u32,
    offset: u32,
    passes: bool,
}

/// How many bytes a part puts in before a spot.
fn put_by(part: &Part, spot: Spot) -> usize
    ensures { result ≡ put_by spot.passes spot.file spot.offset part.now }
{
    let span = part.span;
    if span.file == spot.file
        && (span.start < spot.offset
            || (spot.passes && (span.start == spot.offset && span.end == spot.offset)))
    {
        part.text.as_bytes().len()
    } else {
        0
    }
}

/// How many bytes before a spot a part replaces.
fn removed_by(part: &Part, spot: Spot) -> usize
    ensures { result ≡ removed_by spot.file spot.offset part.now }
{
    let span = part.span;
    if span.file == spot.file {
        (span.end.min(spot.offset) as usize).saturating_sub(span.start.min(spot.offset) as usize)
    } else {
        0
    }
}

/// How many bytes the parts of a suggestion put in before a spot.
fn put_by_all(parts: &[Part], spot: Spot) -> usize
    requires { sum_by (put_by spot.passes spot.file spot.offset) parts.now < 2 ^ 32 }
    ensures { result ≡ sum_by (put_by spot.passes spot.file spot.offset) parts.now }
{
    let mut put = 0;
    for part in parts {
        put += put_by(part, spot);
    }
    put
}

/// How many bytes before a spot the parts of a suggestion replace.
fn removed_by_all(parts: &[Part], spot: Spot) -> usize
    requires { sum_by (removed_by spot.file spot.offset) parts.now < 2 ^ 32 }
    ensures { result ≡ sum_by (removed_by spot.file spot.offset) parts.now }
{
    let mut removed = 0;
    for part in parts {
        removed += removed_by(part, spot);
    }
    removed
}

/// The place of a spot after the suggestions.
fn place_after(taken: &[Suggestion], spot: Spot) -> usize
    requires put { sum_by (put_by spot.passes spot.file spot.offset) (all_parts taken.now) < 2 ^ 32 }
    requires removed { sum_by (removed_by spot.file spot.offset) (all_parts taken.now) ≤ spot.offset }
    ensures { result ≡ spot.offset + sum_by (put_by spot.passes spot.file spot.offset) (all_parts taken.now) - sum_by (removed_by spot.file spot.offset) (all_parts taken.now) }
{
    let mut put = 0;
    let mut removed = 0;
    for suggestion in taken {
        put += put_by_all(suggestion.parts.as_slice(), spot);
        removed += removed_by_all(suggestion.parts.as_slice(), spot);
    }
    spot.offset as usize + put - removed
}

/// The offset of a spot after the suggestions.
fn moved_offset(taken: &[Suggestion], spot: Spot) -> u32
    requires { HasPlace taken.now spot.file spot.offset }
    ensures { result ≡ moved_offset spot.passes (parts_of spot.file taken.now) spot.offset }
{
    place_after(taken, spot) as u32
}

/// Where a range of the sources is found after the suggestions are applied. An insertion at its start moves it to the
/// right, an insertion at its end doesn't stretch it. The start of a replaced range stays at the start of its new text;
/// its end, and each place inside it, goes to the end of that text.
///
/// Takes no memory, and time linear in the number of parts.
pub fn moved(taken: &List<Suggestion>, span: Span) -> Span
    requires { IsMovable taken.now span }
    ensures { result ≡ moved_span taken.now span }
{
    let start = Spot {
        file: span.file,
        offset: span.start,
        passes: true,
    };
    let end = Spot {
        file: span.file,
        offset: span.end,
        passes: span.start == span.end,
    };
    Span {
        file: span.file,
        start: moved_offset(taken.as_slice(), start),
        end: moved_offset(taken.as_slice(), end),
    }
}
