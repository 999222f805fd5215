//! Reads the rules of a macro.

ghost use Rattle.std.specs.Prelude.{◌≡◌, ◌++◌, ◌↔◌, List, suc, length, codes, IfOk, IsTrue};
ghost use Rattle.std.specs.List.{list_all};
ghost use Rattle.em_base.specs.Words.{is_among};
ghost use Rattle.em_macro.specs.declared.rules.Arm.{Arm};
ghost use Rattle.em_macro.specs.Choose.{AreDecidable};
ghost use Rattle.em_macro.specs.Form.{RulesText};
ghost use Rattle.em_macro.specs.Sound.{are_once, are_known, AreSound, BadText, IsSound};
ghost use Rattle.em_macro.specs.Steps as spec;
ghost use Rattle.em_macro.specs.Steps.{Gives};

use crate::binding::names;
use crate::choosing::LEVELS;
use crate::copying::uses;
use crate::deciding::is_decidable;
use crate::error::RulesError;
use crate::reading::{Text, closing, opening, sign};
use crate::rules::{Arm, Matcher, Rules, Transcriber};
use crate::signs::is_sign;
use crate::tokens::same_name;
use crate::{read_matcher, read_transcriber};
use em_base::{List, Name, NoMemory, Token};
use sqlite_items::Items;
use std::alloc::Global;

#[tactic(auto, unfolding(crate::specs::Steps::delimited_matcher))]
fn matcher(alloc: Global, input: &mut Text<'_>) -> Result<Items<Matcher>, RulesError>
    ensures { Gives (spec.delimited_matcher input.old.rest.now) result input.new.rest.now }
{
    let open = opening(alloc, input)?;
    let found = read_matcher::read(alloc, LEVELS, input)?;
    closing(alloc, &open, input)?;
    Ok(found)
}

#[tactic(auto, unfolding(crate::specs::Steps::delimited_transcriber))]
fn transcriber(alloc: Global, input: &mut Text<'_>) -> Result<Items<Transcriber>, RulesError>
    ensures { Gives (spec.delimited_transcriber input.old.rest.now) result input.new.rest.now }
{
    let open = opening(alloc, input)?;
    let found = read_transcriber::read(alloc, LEVELS, input)?;
    closing(alloc, &open, input)?;
    Ok(found)
}

#[tactic(auto, unfolding(crate::specs::Steps::arm))]
fn arm(alloc: Global, input: &mut Text<'_>) -> Result<Arm, RulesError>
    ensures { Gives (spec.arm input.old.rest.now) result input.new.rest.now }
{
    let matcher = matcher(alloc, input)?;
    sign("=>", input)?;
    let transcriber = transcriber(alloc, input)?;
    Ok(Arm {
        matcher,
        transcriber,
    })
}

/// Whether another arm follows, behind a `;`.
#[tactic(auto, unfolding(crate::specs::Steps::another))]
fn another(input: &mut Text<'_>) -> Result<bool, RulesError>
    ensures { Gives (spec.another input.old.rest.now) result input.new.rest.now }
{
    match input.rest {
        [token, rest @ ..] => {
            if !is_sign(token, ";") {
                return Err(RulesError::Bad);
            }
            input.rest = rest;
            match rest {
                [] => Ok(false),
                _ => Ok(true),
            }
        }
        [] => Ok(false),
    }
}

fn arms(alloc: Global, input: &mut Text<'_>) -> Result<Items<Arm>, RulesError>
    ensures { Gives (spec.arms (suc (length input.old.rest.now)) input.old.rest.now) result input.new.rest.now }
{
    let mut found = Items::new(alloc);
    for _turn in 0..input.rest.len() + 1 {
        let one = arm(alloc, input)?;
        found.push(one)?;
        if !another(input)? {
            return Ok(found);
        }
    }
    Err(RulesError::Bad)
}

fn is_among(name: &Name, names: &[Name]) -> bool
    ensures { result ≡ is_among names.now name.now }
{
    for one in names {
        if same_name(one, name) {
            return true;
        }
    }
    false
}

fn are_once(names: &[Name]) -> bool
    ensures { result ≡ are_once names.now }
{
    for (index, name) in names.iter().enumerate() {
        if is_among(name, &names[index + 1..]) {
            return false;
        }
    }
    true
}

fn are_known(used: &[Name], bound: &[Name]) -> bool
    ensures { result ≡ are_known used.now bound.now }
{
    for name in used {
        if !is_among(name, bound) {
            return false;
        }
    }
    true
}

/// Whether the arm's names are bound once, its transcriber's variables are bound, and its matcher is decidable.
fn is_sound(alloc: Global, arm: &Arm) -> Result<bool, NoMemory>
    ensures { IfOk result (λ b. IsTrue b ↔ IsSound arm.now) }
{
    let matcher = arm.matcher.as_slice();
    let mut bound = Items::new(alloc);
    names(LEVELS, matcher, &mut bound)?;
    if !are_once(bound.as_slice()) {
        return Ok(false);
    }
    let mut used = Items::new(alloc);
    uses(LEVELS, arm.transcriber.as_slice(), &mut used)?;
    if !are_known(used.as_slice(), bound.as_slice()) {
        return Ok(false);
    }
    is_decidable(alloc, matcher)
}

fn are_sound(alloc: Global, arms: &[Arm]) -> Result<bool, NoMemory>
    ensures { IfOk result (λ b. IsTrue b ↔ AreSound arms.now) }
{
    for arm in arms {
        if !is_sound(alloc, arm)? {
            return Ok(false);
        }
    }
    Ok(true)
}

/// The rules whose text this is, which stands between the delimiters of a macro definition (Reference, "Macros by
/// example"): arms of a matcher and a transcriber, with a `;` between them. `Bad` comes exactly where it is the text of
/// no rules that bind each name once, name no unbound variable in a transcriber, have matchers that can be followed
/// with one token, and have behind each fragment what may follow it. Delimiters and repetitions nest at most 200 deep
/// in an arm.
pub fn read_rules(alloc: Global, body: &List<Token>) -> Result<Rules, RulesError>
    ensures reads { IfOk result (λ rules. RulesText rules.arms body.now) }
    ensures only { IfOk result (λ rules. (others : List Arm) → RulesText others body.now → others ≡ rules.arms) }
    ensures sound { IfOk result (λ rules. AreSound rules.arms) }
    ensures decidable { IfOk result (λ rules. AreDecidable rules.arms) }
    ensures bad { BadText body.now result }
{
    let mut input = Text {
        rest: body.as_slice(),
    };
    let arms = arms(alloc, &mut input)?;
    if are_sound(alloc, arms.as_slice())? {
        Ok(Rules { arms })
    } else {
        Err(RulesError::Bad)
    }
}
