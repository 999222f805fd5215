//! How many pieces a transcriber writes.

ghost use Rattle.std.specs.Prelude.{[], ◌≡◌, ◌<◌, length};
ghost use Rattle.em_macro.specs.declared.rules.Transcriber.{out-Transcriber};
ghost use Rattle.em_macro.specs.Measure as spec;
ghost use Rattle.em_macro.specs.Measure.{Counts};
ghost use Rattle.em_macro.specs.Write.{uses, Measures};

use crate::binding::bound_to;
use crate::choosing::LEVELS;
use crate::copying::{Steps, nth, steps_for, uses};
use crate::error::CopyError;
use crate::matched::{Binding, Bound, Matched, Taken};
use crate::put::is_plain;
use crate::rules::{Rules, Transcriber};
use em_base::Token;
use sqlite_items::Items;
use std::alloc::Global;

fn plus(total: u64, more: u64) -> u64
    ensures { result ≡ spec.plus total more }
{
    total.saturating_add(more)
}

fn count_put(fragment: &Taken) -> u64
    ensures { result ≡ spec.count_put fragment.now }
{
    if is_plain(fragment.kind) {
        fragment.pieces.get().list.len() as u64
    } else {
        1
    }
}

fn count_between(k: usize, separator: &Option<Token>) -> u64
    ensures { result ≡ spec.count_between k separator.now }
{
    if k == 0 {
        return 0;
    }
    match separator {
        Some(_) => 1,
        None => 0,
    }
}

#[cycle(count)]
fn count_copies(
    alloc: Global,
    depth: usize,
    copies: usize,
    body: &[Transcriber],
    separator: &Option<Token>,
    bindings: &[Binding],
    total: u64,
) -> Result<u64, CopyError>
    ensures { Counts (spec.count_copies (uses depth) (spec.counted depth) copies 0 body.now separator.now bindings.now total) result }
{
    let mut sum = total;
    for k in 0..copies {
        let inner = nth(alloc, k, bindings)?;
        let before = plus(sum, count_between(k, separator));
        sum = count(alloc, depth, body, inner.as_slice(), before)?;
    }
    Ok(sum)
}

#[cycle(count)]
#[tactic(auto, unfolding(crate::specs::Measure::count_node))]
fn count_node(
    alloc: Global,
    depth: usize,
    transcriber: &Transcriber,
    bindings: &[Binding],
    total: u64,
) -> Result<u64, CopyError>
    ensures { Counts (spec.count_node (uses depth) (spec.counted depth) (out-Transcriber transcriber.now) bindings.now total) result }
{
    match transcriber {
        Transcriber::Token(_) => Ok(plus(total, 1)),
        Transcriber::Variable { name, .. } => match bound_to(alloc, name, bindings)? {
            Bound::One(found) => Ok(plus(total, count_put(&found))),
            Bound::Many(_) => Err(CopyError::Lengths),
        },
        Transcriber::Crate { .. } => Ok(plus(plus(total, 1), 1)),
        Transcriber::Delimited { body, .. } => {
            let inside = count(alloc, depth, body.as_slice(), bindings, plus(total, 1))?;
            Ok(plus(inside, 1))
        }
        Transcriber::Repeat { body, separator } => {
            let body = body.as_slice();
            let mut names = Items::new(alloc);
            uses(depth, body, &mut names)?;
            match steps_for(alloc, names.as_slice(), bindings)? {
                Steps::Each(copies) => {
                    count_copies(alloc, depth, copies, body, separator, bindings, total)
                }
                _ => Err(CopyError::Lengths),
            }
        }
    }
}

/// The pieces that the transcriber writes are counted beside those before.
#[cycle(count)]
fn count(
    alloc: Global,
    depth: usize,
    transcribers: &[Transcriber],
    bindings: &[Binding],
    total: u64,
) -> Result<u64, CopyError>
    ensures { Counts (spec.counted depth transcribers.now bindings.now total) result }
{
    if depth == 0 {
        return Err(CopyError::Lengths);
    }
    let mut sum = total;
    for transcriber in transcribers {
        sum = count_node(alloc, depth - 1, transcriber, bindings, sum)?;
    }
    Ok(sum)
}

/// How many pieces `transcribe` gives, up to the greatest number that a `u64` holds. No piece is copied, and a fragment
/// counts in one step, so that a caller with a limit can ask first. `Lengths` comes exactly where `transcribe` gives it.
pub fn copied_len(alloc: Global, rules: &Rules, matched: &Matched) -> Result<u64, CopyError>
    requires { matched.now.arm < length rules.now.arms }
    ensures { Measures rules.now.arms matched.now result }
{
    let arm = &rules.arms.as_slice()[matched.arm as usize];
    let bindings = matched.bindings.as_slice();
    count(alloc, LEVELS, arm.transcriber.as_slice(), bindings, 0)
}
