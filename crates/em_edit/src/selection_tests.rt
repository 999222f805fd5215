ghost use Rattle.std.specs.Prelude.{◌≡◌, ◌<◌, ◌^◌, length, IfOk};

use crate::select;
use em_base::{Lint, List, NoMemory, Part, Span, Suggestion, Text};
use std::alloc::{AllocError, Global};

/// A range: (file, start, end).
type Range = (u32, u32, u32);

/// All offsets of the ranges here are less.
const MOST: u32 = 32;

fn span(range: Range) -> Span {
    Span {
        file: range.0,
        start: range.1,
        end: range.2,
    }
}

/// A finding at a place, with parts.
fn finding(alloc: Global, anchor: Range, ranges: &[Range]) -> Result<Suggestion, NoMemory> {
    let mut parts = List::new(alloc);
    for range in ranges {
        parts.push(Part {
            span: span(*range),
            text: Text::from_str(alloc, "x")?,
        })?;
    }
    Ok(Suggestion {
        lint: Lint::Keyword,
        anchor: span(anchor),
        parts,
    })
}

/// A finding for each list of parts, in the order of the list.
fn findings(alloc: Global, rows: &[&[Range]]) -> Result<List<Suggestion>, NoMemory>
    ensures { IfOk result (λ list. length list ≡ length rows.now) }
{
    let mut list = List::new(alloc);
    for ranges in rows {
        list.push(finding(alloc, (0, 0, 0), ranges)?)?;
    }
    Ok(list)
}

/// The indices that are taken of findings with these parts.
fn selected(alloc: Global, rows: &[&[Range]]) -> Result<List<u32>, NoMemory>
    requires { length rows.now < 2 ^ 32 }
{
    select(alloc, &findings(alloc, rows)?)
}

/// The parts of four findings, some of which meet parts of their own finding, and the indices that are taken.
const ROWS: [([&[Range]; 4], &[u32]); 8] = [
    (
        [
            &[(0, 0, 9), (0, 1, 2)],
            &[(0, 3, 3)],
            &[(0, 9, 9)],
            &[(1, 3, 3)],
        ],
        &[0, 2, 3],
    ),
    (
        [
            &[(0, 1, 2), (0, 0, 9)],
            &[(0, 8, 10)],
            &[(0, 9, 10)],
            &[(0, 0, 0)],
        ],
        &[0, 2],
    ),
    (
        [
            &[(0, 4, 4), (0, 4, 4)],
            &[(0, 4, 6)],
            &[(0, 0, 4)],
            &[(0, 4, 4)],
        ],
        &[0, 2],
    ),
    (
        [
            &[(0, 4, 4), (0, 4, 6)],
            &[(0, 5, 5)],
            &[(0, 4, 4)],
            &[(0, 6, 6)],
        ],
        &[0, 3],
    ),
    (
        [
            &[(0, 2, 4), (0, 0, 3)],
            &[(0, 1, 1)],
            &[(0, 4, 4)],
            &[(0, 0, 5)],
        ],
        &[0, 2],
    ),
    (
        [
            &[(0, 0, 2), (0, 2, 4)],
            &[(0, 3, 5)],
            &[(0, 4, 4)],
            &[(0, 2, 2)],
        ],
        &[0, 2],
    ),
    (
        [
            &[(1, 0, 9), (0, 4, 5), (1, 2, 3)],
            &[(1, 8, 8)],
            &[(0, 5, 8)],
            &[],
        ],
        &[0, 2, 3],
    ),
    (
        [
            &[(0, 8, 9)],
            &[(0, 1, 7), (0, 2, 3)],
            &[(0, 5, 5)],
            &[(0, 7, 8)],
        ],
        &[0, 1, 3],
    ),
];

#[test]
fn a_finding_is_taken_where_its_own_parts_meet(rt: HostRuntime) {
    for (parts, expected) in ROWS {
        let taken = selected(rt.alloc(), parts.as_slice()).expect(&rt, "memory");
        assert!(rt; taken.as_slice() == expected);
    }
}

/// Whether two ranges have a byte in common, by looking at one offset after another.
fn have_common_byte(p: Span, q: Span) -> bool {
    for at in 0..MOST {
        if p.start <= at && at < p.end && q.start <= at && at < q.end {
            return true;
        }
    }
    false
}

fn is_put_inside(p: Span, q: Span) -> bool {
    p.end <= p.start && q.start < p.start && p.start < q.end
}

fn meet(p: Span, q: Span) -> bool {
    p.file == q.file
        && (p.start == q.start
            || have_common_byte(p, q)
            || is_put_inside(p, q)
            || is_put_inside(q, p))
}

/// Whether a part of one finding meets one of another.
fn one_meets(one: &Suggestion, other: &Suggestion) -> bool {
    for p in one.parts.as_slice() {
        for q in other.parts.as_slice() {
            if meet(p.span, q.span) {
                return true;
            }
        }
    }
    false
}

/// Whether a part of a finding meets one of those that are taken.
fn meets_taken(all: &[Suggestion], taken: &[u32], one: &Suggestion) -> bool {
    for index in taken {
        if let Some(other) = all.get(*index as usize)
            && one_meets(one, other)
        {
            return true;
        }
    }
    false
}

/// The least finding by its anchor and index that is greater than the one before.
fn next_turn(all: &[Suggestion], before: Option<(Range, u32)>) -> Option<(Range, u32)> {
    let mut next: Option<(Range, u32)> = None;
    let mut index = 0u32;
    for one in all {
        let turn = ((one.anchor.file, one.anchor.start, one.anchor.end), index);
        let is_later = match before {
            Some(other) => other < turn,
            None => true,
        };
        let is_least = match next {
            Some(other) => turn < other,
            None => true,
        };
        if is_later && is_least {
            next = Some(turn);
        }
        index = index.wrapping_add(1);
    }
    next
}

/// The selection by a search through all findings at each step, each of which is held against all that are taken.
fn slow_selection(alloc: Global, all: &[Suggestion]) -> Result<Vec<u32>, AllocError> {
    let mut taken = Vec::new(alloc);
    let mut turn = None;
    for _ in all {
        turn = next_turn(all, turn);
        let Some((_, index)) = turn else {
            return Ok(taken);
        };
        if let Some(one) = all.get(index as usize)
            && !meets_taken(all, taken.as_slice(), one)
        {
            taken.push(index)?;
        }
    }
    Ok(taken)
}

/// The next number of a sequence that its seed fixes.
fn next_state(state: u32) -> u32 {
    state.wrapping_mul(1_664_525).wrapping_add(1_013_904_223)
}

/// A range of two files, of at most four bytes, or one that ends before its start.
fn some_range(state: u32) -> Range {
    let start = ((state >> 20) & 15).wrapping_add(1);
    (
        state >> 31,
        start,
        start.wrapping_add((state >> 16) & 7).saturating_sub(2),
    )
}

/// Findings of one to four parts, whose places come from a seed.
fn some_findings(alloc: Global, seed: u32) -> Result<List<Suggestion>, NoMemory> {
    let mut list = List::new(alloc);
    let mut state = next_state(seed);
    for _ in 0..10 {
        let anchor = some_range(state);
        let mut ranges = Vec::new(alloc);
        for _ in 0..(state >> 10) & 3 {
            state = next_state(state);
            ranges.push(some_range(state))?;
        }
        state = next_state(state);
        ranges.push(some_range(state))?;
        list.push(finding(alloc, anchor, ranges.as_slice())?)?;
        state = next_state(state);
    }
    Ok(list)
}

#[test]
fn a_search_through_all_findings_takes_the_same(rt: HostRuntime) {
    for seed in 0..60 {
        let all = some_findings(rt.alloc(), seed).expect(&rt, "memory");
        assert!(rt; all.len() == 10);
        let slow = slow_selection(rt.alloc(), all.as_slice()).expect(&rt, "memory");
        let taken = select(rt.alloc(), &all).expect(&rt, "memory");
        assert!(rt; taken.as_slice() == slow.as_slice());
    }
}
