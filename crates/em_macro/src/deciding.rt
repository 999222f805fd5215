//! Decides whether a matcher is decidable with one token, and whether its fragments are followed by what may follow.

ghost use Rattle.std.specs.Prelude.{◌≡◌, ◌++◌, ◌↔◌, IfOk, IsTrue, OnOk};
ghost use Rattle.em_macro.specs.declared.rules.Matcher.{out-Matcher};
ghost use Rattle.em_macro.specs.Match as law;
ghost use Rattle.em_macro.specs.Match.{at_end, levels, Decidable};
ghost use Rattle.em_macro.specs.Sound.{Followed};
ghost use Rattle.em_macro.specs.Starters as spec;

use crate::choosing::LEVELS;
use crate::rules::{Matcher, Specifier};
use crate::starters::{Starter, follows, overlaps};
use crate::starting::{can_be_empty, empty_node};
use em_base::{NoMemory, Token};
use sqlite_items::Items;
use std::alloc::Global;

fn apart_from(one: &Starter, others: &[Starter]) -> bool
    ensures { result ≡ spec.apart_from one.now others.now }
{
    for other in others {
        if overlaps(one, other) {
            return false;
        }
    }
    true
}

/// Whether no piece is both some of the first and some of the others.
fn apart(some: &[Starter], others: &[Starter]) -> bool
    ensures { result ≡ spec.apart some.now others.now }
{
    for one in some {
        if !apart_from(one, others) {
            return false;
        }
    }
    true
}

fn all_follow(specifier: Specifier, starters: &[Starter]) -> bool
    ensures { result ≡ spec.all_follow specifier starters.now }
{
    for starter in starters {
        if !follows(specifier, starter) {
            return false;
        }
    }
    true
}

fn push_all(alloc: Global, found: &mut Items<Starter>, more: &[Starter]) -> Result<(), NoMemory>
    ensures { OnOk result (found.new ≡ found.old ++ more.now) }
{
    for one in more {
        found.push(one.share(alloc)?)?;
    }
    Ok(())
}

fn push_separator(
    alloc: Global,
    separator: &Option<Token>,
    found: &mut Items<Starter>,
) -> Result<(), NoMemory>
    ensures { OnOk result (found.new ≡ found.old ++ spec.sep_list separator.now) }
{
    if let Some(token) = separator {
        found.push(Starter::Next(token.share(alloc)?))?;
    }
    Ok(())
}

#[cycle(firsts)]
fn firsts_node(
    alloc: Global,
    depth: usize,
    matcher: &Matcher,
    found: &mut Items<Starter>,
) -> Result<(), NoMemory>
    ensures { OnOk result (found.new ≡ found.old ++ spec.firsts_node (law.can_be_empty depth) (spec.firsts depth) (out-Matcher matcher.now)) }
{
    match matcher {
        Matcher::Token(token) => {
            found.push(Starter::Next(token.share(alloc)?))?;
            Ok(())
        }
        Matcher::Fragment { specifier, .. } => {
            found.push(Starter::Begins(*specifier))?;
            Ok(())
        }
        Matcher::Delimited { open, .. } => {
            found.push(Starter::Next(open.share(alloc)?))?;
            Ok(())
        }
        Matcher::Repeat {
            body,
            separator,
            ..
        } => {
            firsts(alloc, depth, body.as_slice(), found)?;
            if can_be_empty(depth, body.as_slice()) {
                push_separator(alloc, separator, found)?;
            }
            Ok(())
        }
    }
}

#[cycle(firsts)]
fn firsts_all(
    alloc: Global,
    depth: usize,
    matchers: &[Matcher],
    found: &mut Items<Starter>,
) -> Result<(), NoMemory>
    ensures { OnOk result (found.new ≡ found.old ++ spec.firsts_all (law.can_be_empty depth) (spec.firsts depth) matchers.now) }
{
    for matcher in matchers {
        firsts_node(alloc, depth, matcher, found)?;
        if !empty_node(depth, matcher) {
            return Ok(());
        }
    }
    Ok(())
}

/// With what a match can begin.
#[cycle(firsts)]
#[tactic(auto, unfolding(crate::specs::Starters::firsts))]
fn firsts(
    alloc: Global,
    depth: usize,
    matchers: &[Matcher],
    found: &mut Items<Starter>,
) -> Result<(), NoMemory>
    ensures { OnOk result (found.new ≡ found.old ++ spec.firsts depth matchers.now) }
{
    if depth == 0 {
        return Ok(());
    }
    firsts_all(alloc, depth - 1, matchers, found)?;
    Ok(())
}

fn are_empty(depth: usize, matchers: &[Matcher]) -> bool
    ensures { result ≡ law.empty_all (law.can_be_empty depth) matchers.now }
{
    for matcher in matchers {
        if !empty_node(depth, matcher) {
            return false;
        }
    }
    true
}

fn is_solid(separator: &Option<Token>, plus: bool, empty: bool) -> bool
    ensures { result ≡ spec.is_solid separator.now plus empty }
{
    match (separator, plus) {
        (Some(_), true) => true,
        _ => !empty,
    }
}

/// What continues a repetition after a copy.
fn continuing(
    alloc: Global,
    starts: &[Starter],
    separator: &Option<Token>,
) -> Result<Items<Starter>, NoMemory>
    ensures { IfOk result (λ l. l ≡ spec.continuing starts.now separator.now) }
{
    let mut found = Items::new(alloc);
    match separator {
        Some(token) => found.push(Starter::Next(token.share(alloc)?))?,
        None => push_all(alloc, &mut found, starts)?,
    }
    Ok(found)
}

/// What stands behind a part: what the rest can begin with, and what follows it if the rest can be empty.
fn behind(
    alloc: Global,
    depth: usize,
    rest: &[Matcher],
    follow: &[Starter],
) -> Result<Items<Starter>, NoMemory>
    ensures { IfOk result (λ l. l ≡ spec.firsts_all (law.can_be_empty depth) (spec.firsts depth) rest.now ++ spec.when (law.empty_all (law.can_be_empty depth) rest.now) follow.now) }
{
    let mut found = Items::new(alloc);
    firsts_all(alloc, depth, rest, &mut found)?;
    if are_empty(depth, rest) {
        push_all(alloc, &mut found, follow)?;
    }
    Ok(found)
}

#[cycle(decides)]
fn decides_node(
    alloc: Global,
    depth: usize,
    matcher: &Matcher,
    follow: &[Starter],
) -> Result<bool, NoMemory>
    ensures { IfOk result (λ b. b ≡ spec.decides_node (spec.firsts depth) (law.can_be_empty depth) (spec.decides depth) (out-Matcher matcher.now) follow.now) }
{
    match matcher {
        Matcher::Token(_) => Ok(true),
        Matcher::Fragment { .. } => Ok(true),
        Matcher::Delimited { body, close, .. } => {
            let mut end = Items::new(alloc);
            end.push(Starter::Next(close.share(alloc)?))?;
            decides(alloc, depth, body.as_slice(), end.as_slice())
        }
        Matcher::Repeat {
            body,
            separator,
            plus,
        } => {
            let mut starts = Items::new(alloc);
            firsts(alloc, depth, body.as_slice(), &mut starts)?;
            let mut goes_on = continuing(alloc, starts.as_slice(), separator)?;
            if !apart(goes_on.as_slice(), follow) {
                return Ok(false);
            }
            if !*plus && !apart(starts.as_slice(), follow) {
                return Ok(false);
            }
            if !is_solid(separator, *plus, can_be_empty(depth, body.as_slice())) {
                return Ok(false);
            }
            push_all(alloc, &mut goes_on, follow)?;
            decides(alloc, depth, body.as_slice(), goes_on.as_slice())
        }
    }
}

#[cycle(decides)]
fn decides_all(
    alloc: Global,
    depth: usize,
    matchers: &[Matcher],
    follow: &[Starter],
) -> Result<bool, NoMemory>
    ensures { IfOk result (λ b. b ≡ spec.decides_all (spec.firsts depth) (law.can_be_empty depth) (spec.decides depth) matchers.now follow.now) }
{
    for (index, matcher) in matchers.iter().enumerate() {
        let next = behind(alloc, depth, &matchers[index + 1..], follow)?;
        if !decides_node(alloc, depth, matcher, next.as_slice())? {
            return Ok(false);
        }
    }
    Ok(true)
}

/// Whether one token decides, where what follows the matcher is `follow`.
#[cycle(decides)]
#[tactic(auto, unfolding(crate::specs::Starters::decides))]
fn decides(
    alloc: Global,
    depth: usize,
    matchers: &[Matcher],
    follow: &[Starter],
) -> Result<bool, NoMemory>
    ensures { IfOk result (λ b. b ≡ spec.decides depth matchers.now follow.now) }
{
    if depth == 0 {
        return Ok(true);
    }
    decides_all(alloc, depth - 1, matchers, follow)
}

#[cycle(followed)]
fn followed_node(
    alloc: Global,
    depth: usize,
    matcher: &Matcher,
    follow: &[Starter],
) -> Result<bool, NoMemory>
    ensures { IfOk result (λ b. b ≡ spec.followed_node (spec.followed depth) (out-Matcher matcher.now) follow.now) }
{
    match matcher {
        Matcher::Token(_) => Ok(true),
        Matcher::Fragment { specifier, .. } => Ok(all_follow(*specifier, follow)),
        Matcher::Delimited { body, close, .. } => {
            let mut end = Items::new(alloc);
            end.push(Starter::Next(close.share(alloc)?))?;
            followed(alloc, depth, body.as_slice(), end.as_slice())
        }
        Matcher::Repeat {
            body,
            separator,
            ..
        } => {
            let mut next = Items::new(alloc);
            push_separator(alloc, separator, &mut next)?;
            push_all(alloc, &mut next, follow)?;
            followed(alloc, depth, body.as_slice(), next.as_slice())
        }
    }
}

#[cycle(followed)]
fn followed_all(
    alloc: Global,
    depth: usize,
    matchers: &[Matcher],
    follow: &[Starter],
) -> Result<bool, NoMemory>
    ensures { IfOk result (λ b. b ≡ spec.followed_all (spec.firsts depth) (law.can_be_empty depth) (spec.followed depth) matchers.now follow.now) }
{
    for (index, matcher) in matchers.iter().enumerate() {
        let next = behind(alloc, depth, &matchers[index + 1..], follow)?;
        if !followed_node(alloc, depth, matcher, next.as_slice())? {
            return Ok(false);
        }
    }
    Ok(true)
}

/// Whether each fragment is followed by what may follow it, where what follows the matcher is `follow`.
#[cycle(followed)]
#[tactic(auto, unfolding(crate::specs::Starters::followed))]
fn followed(
    alloc: Global,
    depth: usize,
    matchers: &[Matcher],
    follow: &[Starter],
) -> Result<bool, NoMemory>
    ensures { IfOk result (λ b. b ≡ spec.followed depth matchers.now follow.now) }
{
    if depth == 0 {
        return Ok(true);
    }
    followed_all(alloc, depth - 1, matchers, follow)
}

fn one_token_decides(alloc: Global, matchers: &[Matcher]) -> Result<bool, NoMemory>
    ensures { IfOk result (λ b. IsTrue b ↔ Decidable levels matchers.now at_end) }
{
    let mut end = Items::new(alloc);
    end.push(Starter::End)?;
    decides(alloc, LEVELS, matchers, end.as_slice())
}

fn is_followed(alloc: Global, matchers: &[Matcher]) -> Result<bool, NoMemory>
    ensures { IfOk result (λ b. IsTrue b ↔ Followed levels matchers.now at_end) }
{
    let mut end = Items::new(alloc);
    end.push(Starter::End)?;
    followed(alloc, LEVELS, matchers, end.as_slice())
}

/// Whether the matcher of an arm is decidable with one token, and what may follow its fragments follows them. The time
/// grows with the square of the matcher's length where many of its parts can be empty.
pub fn is_decidable(alloc: Global, matchers: &[Matcher]) -> Result<bool, NoMemory>
    ensures { IfOk result (λ b. IsTrue b ↔ (Decidable levels matchers.now at_end × Followed levels matchers.now at_end)) }
{
    if !one_token_decides(alloc, matchers)? {
        return Ok(false);
    }
    is_followed(alloc, matchers)
}
