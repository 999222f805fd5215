ghost use Rattle.std.specs.Prelude.{◌≡◌, ◌<◌, ◌^◌, length, IfOk};

use crate::{BadEdit, apply, moved, select};
use em_base::{Bytes, Lint, List, NoMemory, Part, Span, Suggestion, Text};
use std::alloc::{AllocError, Global};

/// A part of a file: (file, start, end) and its text.
type Row = (u32, u32, u32, &'static str);

/// A suggestion of one part, whose range is its anchor.
fn suggestion(alloc: Global, row: &Row) -> Result<Suggestion, NoMemory> {
    let span = Span {
        file: row.0,
        start: row.1,
        end: row.2,
    };
    let mut parts = List::new(alloc);
    parts.push(Part {
        span,
        text: Text::from_str(alloc, row.3)?,
    })?;
    Ok(Suggestion {
        lint: Lint::Keyword,
        anchor: span,
        parts,
    })
}

/// A suggestion for each row.
fn suggestions(alloc: Global, rows: &[Row]) -> Result<List<Suggestion>, NoMemory>
    ensures { IfOk result (λ list. length list ≡ length rows.now) }
{
    let mut list = List::new(alloc);
    for row in rows {
        list.push(suggestion(alloc, row)?)?;
    }
    Ok(list)
}

/// The text of the only file after a suggestion for each row.
fn applied(alloc: Global, text: &str, rows: &[Row]) -> Result<List<Bytes>, BadEdit>
    requires { length rows.now < 2 ^ 32 }
{
    let mut sources = List::new(alloc);
    sources.push(Bytes::from_slice(alloc, text.as_bytes())?)?;
    let taken = suggestions(alloc, rows)?;
    apply(alloc, &sources, &taken)
}

#[test]
fn parts_are_put_into_the_text(rt: HostRuntime) {
    let rows: [(&str, [Row; 2], &str); 7] = [
        ("abcdef", [(0, 1, 3, "X"), (0, 4, 4, "Y")], "aXdYef"),
        ("abcdef", [(0, 4, 5, "Y"), (0, 0, 1, "")], "bcdYf"),
        ("abc", [(0, 3, 3, ">"), (0, 0, 0, "<")], "<abc>"),
        ("abcd", [(0, 3, 3, "Y"), (0, 1, 3, "X")], "aXYd"),
        ("abcd", [(0, 1, 1, "Y"), (0, 2, 3, "X")], "aYbXd"),
        ("abcd", [(0, 0, 2, "X"), (0, 2, 4, "Y")], "XY"),
        ("a\u{e9}b", [(0, 1, 3, "e"), (0, 0, 1, "A")], "Aeb"),
    ];
    for (text, parts, expected) in rows {
        let new = applied(rt.alloc(), text, parts.as_slice()).expect(&rt, "applied");
        let texts = new.as_slice();
        assert!(rt; texts.len() == 1 && texts[0].as_slice() == expected.as_bytes());
    }
}

#[test]
fn the_first_fault_of_the_first_bad_one_is_told(rt: HostRuntime) {
    let rows: [(&str, [Row; 2], BadEdit); 11] = [
        (
            "ab",
            [(0, 0, 0, "x"), (0, 0, 0, "y")],
            BadEdit::Overlap { which: 1 },
        ),
        (
            "abcd",
            [(0, 0, 2, "x"), (0, 1, 3, "y")],
            BadEdit::Overlap { which: 1 },
        ),
        (
            "abcd",
            [(0, 2, 4, "x"), (0, 0, 3, "y")],
            BadEdit::Overlap { which: 1 },
        ),
        (
            "abcd",
            [(0, 1, 3, "x"), (0, 2, 2, "y")],
            BadEdit::Overlap { which: 1 },
        ),
        (
            "abcd",
            [(0, 2, 2, "x"), (0, 1, 3, "y")],
            BadEdit::Overlap { which: 1 },
        ),
        (
            "ab",
            [(0, 1, 3, "x"), (0, 0, 0, "y")],
            BadEdit::OutOfText { which: 0 },
        ),
        (
            "ab",
            [(0, 0, 0, "x"), (0, 2, 1, "y")],
            BadEdit::OutOfText { which: 1 },
        ),
        (
            "ab",
            [(1, 0, 0, "x"), (0, 0, 0, "y")],
            BadEdit::OutOfText { which: 0 },
        ),
        (
            "\u{e9}",
            [(0, 1, 1, "x"), (0, 0, 9, "y")],
            BadEdit::NotBoundary { which: 0 },
        ),
        (
            "\u{e9}",
            [(0, 0, 0, "x"), (0, 0, 1, "y")],
            BadEdit::NotBoundary { which: 1 },
        ),
        (
            "ab",
            [(0, 0, 0, "x"), (1, 0, 0, "y")],
            BadEdit::OutOfText { which: 1 },
        ),
    ];
    for (text, parts, expected) in rows {
        let error = applied(rt.alloc(), text, parts.as_slice()).expect_err(&rt, "refused");
        assert!(rt; error == expected);
    }
}

/// The indices that are taken of a finding for each row.
fn selected(alloc: Global, rows: &[Row]) -> Result<List<u32>, NoMemory>
    requires { length rows.now < 2 ^ 32 }
{
    select(alloc, &suggestions(alloc, rows)?)
}

#[test]
fn findings_are_taken_in_the_order_of_their_anchors(rt: HostRuntime) {
    let rows: [([Row; 3], &[u32]); 5] = [
        ([(0, 5, 6, ""), (0, 1, 2, ""), (0, 3, 4, "")], &[1, 2, 0]),
        ([(0, 0, 0, "a"), (0, 0, 0, "b"), (0, 1, 1, "c")], &[0, 2]),
        ([(0, 0, 3, ""), (0, 2, 5, ""), (0, 4, 6, "")], &[0, 2]),
        ([(1, 0, 3, ""), (0, 1, 4, ""), (0, 2, 2, "")], &[1, 0]),
        ([(0, 1, 3, ""), (0, 1, 2, ""), (0, 3, 3, "")], &[1, 2]),
    ];
    for (parts, expected) in rows {
        let taken = selected(rt.alloc(), parts.as_slice()).expect(&rt, "memory");
        assert!(rt; taken.as_slice() == expected);
    }
}

/// The rows at these indices.
fn rows_at(alloc: Global, rows: &[Row], indices: &[u32]) -> Result<Vec<Row>, AllocError> {
    let mut chosen = Vec::new(alloc);
    for index in indices {
        if let Some(row) = rows.get(*index as usize) {
            chosen.push(*row)?;
        }
    }
    Ok(chosen)
}

#[test]
fn what_is_taken_is_applied(rt: HostRuntime) {
    let rows: [(&str, [Row; 2], &str); 4] = [
        ("ab", [(0, 0, 0, "x"), (0, 0, 0, "x")], "xab"),
        ("abcd", [(0, 1, 3, "X"), (0, 0, 2, "Y")], "Ycd"),
        ("abcd", [(0, 2, 4, "X"), (0, 0, 2, "Y")], "YX"),
        ("abcd", [(0, 2, 2, "X"), (0, 0, 2, "Y")], "YXcd"),
    ];
    for (text, parts, expected) in rows {
        let taken = selected(rt.alloc(), parts.as_slice()).expect(&rt, "memory");
        let chosen = rows_at(rt.alloc(), parts.as_slice(), taken.as_slice()).expect(&rt, "memory");
        assert!(rt; chosen.len() <= 2);
        let new = applied(rt.alloc(), text, chosen.as_slice()).expect(&rt, "applied");
        let texts = new.as_slice();
        assert!(rt; texts.len() == 1 && texts[0].as_slice() == expected.as_bytes());
    }
}

/// Where a range of the sources is after the suggestions.
fn moved_in(
    alloc: Global,
    sources: &List<Bytes>,
    taken: &List<Suggestion>,
    span: Span,
) -> Result<Option<Span>, BadEdit>
    requires few { length sources.now < 2 ^ 32 }
    requires few_taken { length taken.now < 2 ^ 32 }
{
    let new = apply(alloc, sources, taken)?;
    let Some(text) = sources.get(span.file as usize) else {
        return Ok(None);
    };
    let Some(edited) = new.get(span.file as usize) else {
        return Ok(None);
    };
    if span.start <= span.end && span.end as usize <= text.len() && edited.len() < 0x1_0000_0000 {
        return Ok(Some(moved(taken, span)));
    }
    Ok(None)
}

/// Where the range of the only file is after a suggestion for each row.
fn moved_by(alloc: Global, rows: &[Row], start: u32, end: u32) -> Result<Option<Span>, BadEdit>
    requires { length rows.now < 2 ^ 32 }
{
    let mut sources = List::new(alloc);
    sources.push(Bytes::from_slice(alloc, b"abcdef")?)?;
    let taken = suggestions(alloc, rows)?;
    let span = Span {
        file: 0,
        start,
        end,
    };
    moved_in(alloc, &sources, &taken, span)
}

#[test]
fn places_are_moved(rt: HostRuntime) {
    let rows: [([Row; 2], (u32, u32), (u32, u32)); 9] = [
        ([(0, 0, 0, "xx"), (0, 6, 6, "y")], (2, 4), (4, 6)),
        ([(0, 2, 2, "xx"), (0, 4, 4, "y")], (2, 4), (4, 6)),
        ([(0, 2, 2, "xx"), (0, 3, 3, "y")], (2, 4), (4, 7)),
        ([(0, 2, 2, "xx"), (0, 4, 4, "y")], (2, 2), (4, 4)),
        ([(0, 1, 4, "xx"), (0, 5, 6, "")], (1, 4), (1, 3)),
        ([(0, 1, 4, "xx"), (0, 5, 6, "")], (2, 3), (3, 3)),
        ([(0, 1, 4, "xx"), (0, 5, 6, "")], (4, 6), (3, 4)),
        ([(0, 1, 4, "xx"), (0, 4, 4, "yy")], (0, 1), (0, 1)),
        ([(0, 1, 4, "xx"), (0, 4, 4, "yy")], (4, 5), (5, 6)),
    ];
    for (parts, (start, end), (new_start, new_end)) in rows {
        let span = moved_by(rt.alloc(), parts.as_slice(), start, end).expect(&rt, "applied");
        let expected = Span {
            file: 0,
            start: new_start,
            end: new_end,
        };
        assert!(rt; span == Some(expected));
    }
}

/// A text with one part replaced.
fn replaced(alloc: Global, text: &[u8], row: &Row) -> Result<Vec<u8>, AllocError> {
    let mut new = Vec::new(alloc);
    new.extend_from_slice(text.get(..row.1 as usize).unwrap_or(b""))?;
    new.extend_from_slice(row.3.as_bytes())?;
    new.extend_from_slice(text.get(row.2 as usize..).unwrap_or(b""))?;
    Ok(new)
}

/// The text with the parts replaced one after another, from the last to the first.
fn replaced_from_the_back(alloc: Global, text: &[u8], rows: &[Row]) -> Result<Vec<u8>, AllocError> {
    let mut new = Vec::from_slice(alloc, text)?;
    for row in rows.iter().rev() {
        new = replaced(alloc, new.as_slice(), row)?;
    }
    Ok(new)
}

/// Parts in order, whose gaps, lengths and texts come from a seed.
fn some_rows(alloc: Global, seed: u32) -> Result<Vec<Row>, AllocError> {
    let mut rows = Vec::new(alloc);
    let mut state = seed;
    let mut at = 0u32;
    for _ in 0..6 {
        state = state.wrapping_mul(1_664_525).wrapping_add(1_013_904_223);
        let start = at.wrapping_add(state >> 30);
        let end = start.wrapping_add((state >> 28) & 3);
        let text = if state & 0x0100_0000 == 0 { "xy" } else { "" };
        rows.push((0, start, end, text))?;
        at = end.wrapping_add(1);
    }
    Ok(rows)
}

/// The text after the parts in another order.
fn applied_mixed(alloc: Global, text: &str, rows: &[Row]) -> Result<List<Bytes>, BadEdit> {
    let mut mixed = Vec::new(alloc);
    for row in rows.iter().skip(3) {
        mixed.push(*row).map_err(|_full| BadEdit::NoMemory)?;
    }
    for row in rows.iter().take(3) {
        mixed.push(*row).map_err(|_full| BadEdit::NoMemory)?;
    }
    if mixed.len() >= 0x1_0000_0000 {
        return Err(BadEdit::NoMemory);
    }
    applied(alloc, text, mixed.as_slice())
}

#[test]
fn one_part_at_a_time_makes_the_same_text(rt: HostRuntime) {
    let alloc = rt.alloc();
    let text = "abcdefghijklmnopqrstuvwxyzABCDEFGHIJKLMNOPQRSTUVWXYZ";
    for seed in 0..40 {
        let rows = some_rows(alloc, seed).expect(&rt, "memory");
        let slow = replaced_from_the_back(alloc, text.as_bytes(), rows.as_slice()).expect(
            &rt, "memory",
        );
        let new = applied_mixed(alloc, text, rows.as_slice()).expect(&rt, "applied");
        let texts = new.as_slice();
        assert!(rt; texts.len() == 1 && texts[0].as_slice() == slow.as_slice());
    }
}
