//! Edits a text with findings that it makes, so that `bench/run` can time it: `make COUNT` makes the findings alone,
//! `select COUNT` selects of them too, `apply COUNT` applies those that are taken, and `move COUNT` moves ranges of the
//! text. Prints nothing; the exit status says whether it could be done.
#![tactic(auto)]

ghost use Rattle.std.specs.Prelude.{◌≡◌, List};
ghost use Rattle.em_edit.specs.Edited.{edited_from};
ghost use Rattle.em_edit.specs.Fit.{AreApplicable};

use em_base::{Bytes, Lint, List, NoMemory, Part, Span, Suggestion, Text};
use em_edit::{apply, moved, select};
use std::alloc::Global;
use std::env;
use std::process::ExitCode;

/// The greatest number of findings.
const MOST: usize = 65_536;

/// How many bytes of the text each finding has for itself.
const SHARE: u32 = 64;

/// The text's length.
const LENGTH: u32 = 4_194_304;

/// How far the program goes.
#[derive(Clone, Copy, PartialEq, Eq)]
enum Call {
    Make,
    Select,
    Apply,
    Move,
}

fn call_of(word: &str) -> Option<Call> {
    match word {
        "make" => Some(Call::Make),
        "select" => Some(Call::Select),
        "apply" => Some(Call::Apply),
        "move" => Some(Call::Move),
        _ => None,
    }
}

/// A part of the text: where it starts and how many bytes it replaces.
fn part(alloc: Global, start: u32, length: u32) -> Result<Part, NoMemory> {
    let start = start & (LENGTH - 1);
    Ok(Part {
        span: Span {
            file: 0,
            start,
            end: start.saturating_add(length),
        },
        text: Text::from_str(alloc, "r#")?,
    })
}

/// The finding of a number. Findings stand in another order than that of their numbers, each has a part in the other half
/// of the text too, and each eighth one a part that meets its neighbour.
fn finding(alloc: Global, number: u32) -> Result<Suggestion, NoMemory> {
    let place = number.wrapping_mul(40_503) & 0xffff;
    let start = place.wrapping_mul(SHARE);
    let mut parts = List::new(alloc);
    parts.push(part(alloc, start, 5)?)?;
    parts.push(part(alloc, start.wrapping_add(20), 0)?)?;
    parts.push(part(alloc, start.wrapping_add(LENGTH / 2 + 40), 3)?)?;
    if place & 7 == 0 {
        parts.push(part(alloc, start.wrapping_add(SHARE + 4), 1)?)?;
    }
    Ok(Suggestion {
        lint: Lint::Keyword,
        anchor: Span {
            file: 0,
            start,
            end: start.saturating_add(5),
        },
        parts,
    })
}

/// The findings of these numbers.
fn findings(alloc: Global, numbers: &[u32]) -> Result<List<Suggestion>, NoMemory> {
    let mut list = List::new(alloc);
    for number in numbers {
        list.push(finding(alloc, *number)?)?;
    }
    Ok(list)
}

/// The numbers below a count.
fn numbers_below(alloc: Global, count: u32) -> Result<List<u32>, NoMemory> {
    let mut numbers = List::new(alloc);
    for number in 0..count {
        numbers.push(number)?;
    }
    Ok(numbers)
}

/// A text of a blank in each place.
fn sources(alloc: Global) -> Result<List<Bytes>, NoMemory> {
    let mut text = Bytes::new(alloc);
    for _ in 0..LENGTH / SHARE {
        text.extend([b' '; 64].as_slice())?;
    }
    let mut sources = List::new(alloc);
    sources.push(text)?;
    Ok(sources)
}

/// Moves a range of the text that begins at an offset. Whether it lies there.
fn is_moved(sources: &List<Bytes>, taken: &List<Suggestion>, new: &List<Bytes>, start: u32) -> bool
    requires fit { AreApplicable sources.now taken.now }
    requires edited { new.now ≡ edited_from 0 taken.now sources.now }
{
    let (Some(text), Some(edited)) = (sources.get(0), new.get(0)) else {
        return false;
    };
    let end = start.saturating_add(SHARE);
    if end as usize > text.len() || edited.len() >= 0x1_0000_0000 {
        return false;
    }
    moved(
        taken,
        Span {
            file: 0,
            start,
            end,
        },
    )
    .file
        == 0
}

/// Applies the findings to the text, and moves ranges of it. Whether that could be done.
fn is_edited(alloc: Global, call: Call, taken: &List<Suggestion>) -> Result<bool, NoMemory> {
    let sources = sources(alloc)?;
    if sources.len() > MOST || taken.len() > MOST {
        return Ok(false);
    }
    let Ok(new) = apply(alloc, &sources, taken) else {
        return Ok(false);
    };
    if call == Call::Move {
        for number in 0..64 {
            if !is_moved(&sources, taken, &new, number * 65_536) {
                return Ok(false);
            }
        }
    }
    Ok(true)
}

/// Whether the call could be done with so many findings.
fn is_done(alloc: Global, call: Call, count: u32) -> Result<bool, NoMemory> {
    let all = findings(alloc, numbers_below(alloc, count)?.as_slice())?;
    if all.len() > MOST {
        return Ok(false);
    }
    if call == Call::Make {
        return Ok(true);
    }
    let taken = select(alloc, &all)?;
    if call == Call::Select {
        return Ok(true);
    }
    is_edited(alloc, call, &findings(alloc, taken.as_slice())?)
}

fn main(rt: HostRuntime) -> ExitCode {
    let mut words = match env::args(&rt) {
        Ok(words) => words.skip(1),
        Err(_) => return ExitCode::from(2),
    };
    let (Some(word), Some(count)) = (words.next(), words.next()) else {
        return ExitCode::from(2);
    };
    let (Some(call), Ok(count)) = (call_of(word.as_str()), count.as_str().parse::<u32>()) else {
        return ExitCode::from(2);
    };
    match is_done(rt.alloc(), call, count) {
        Ok(true) => ExitCode::SUCCESS,
        _ => ExitCode::FAILURE,
    }
}
