//! Which arm of a macro a call chooses.

ghost use Rattle.std.specs.Prelude.{◌≡◌, IfOk};
ghost use Rattle.em_macro.specs.Choose.{Answers, AreDecidable, OneMatch};

use crate::error::{MacroError, Stop};
use crate::fragments::Fragments;
use crate::matched::Matched;
use crate::matching::run;
use crate::rules::{Arm, Rules};
use crate::tokens::rest;
use em_base::{List, NoMemory};
use em_tree::Piece;
use sqlite_items::Items;
use std::alloc::Global;

/// How many lists of parts stand in one another: the matcher, and what its delimiters and repetitions hold, which nest
/// 200 deep.
pub const LEVELS: usize = 201;

/// The number of an arm. More arms than numbers have no room in memory.
fn number(index: usize) -> Result<u32, NoMemory>
    ensures { IfOk result (λ n. n ≡ index) }
{
    if index <= u32::MAX as usize {
        Ok(index as u32)
    } else {
        Err(NoMemory)
    }
}

fn choose<F: Fragments>(
    alloc: Global,
    arms: &[Arm],
    pieces: &List<Piece>,
    fragments: &F,
) -> Result<Matched, MacroError>
    requires { AreDecidable arms.now }
    ensures { Answers F.reads arms.now pieces.now result }
{
    let mut tried = Items::new(alloc);
    for (index, one) in arms.iter().enumerate() {
        let mut at = 0;
        let mut read = Items::new(alloc);
        let matcher = one.matcher.as_slice();
        match run(
            alloc, fragments, LEVELS, matcher, pieces, &mut at, &mut read,
        ) {
            Ok(bindings) => {
                if rest(pieces.as_slice(), at).is_empty() {
                    let arm = number(index)?;
                    return Ok(Matched {
                        arm,
                        bindings,
                        tried,
                    });
                }
            }
            Err(Stop::Fails) => {}
            Err(Stop::Broken) => return Err(MacroError::Broken {
                arm: number(index)?,
            }),
            Err(Stop::Depth) => return Err(MacroError::Depth),
            Err(Stop::NoMemory) => return Err(MacroError::NoMemory),
        }
        tried.append(read)?;
    }
    Err(MacroError::NoArm)
}

/// The first arm that matches all the pieces, is broken or is too deep, which decides (Reference, "Macros by example").
/// The rules are such as `read_rules` gives, each matcher decidable with one token. `NoArm` comes exactly where no arm
/// decides, `Broken` exactly where the first one that does meets a piece that can start a fragment of a kind, and no
/// prefix of that kind, and `Depth` exactly where its fragment nests too deep.
pub fn match_call<F: Fragments>(
    alloc: Global,
    rules: &Rules,
    pieces: &List<Piece>,
    fragments: &F,
) -> Result<Matched, MacroError>
    requires { AreDecidable rules.now.arms }
    ensures { Answers F.reads rules.now.arms pieces.now result }
{
    choose(alloc, rules.arms.as_slice(), pieces, fragments)
}

/// Law: of rules that are decidable with one token at most one arm is chosen, with one list of bindings.
pub fn one_match<F: Fragments>(_fragments: &F)
    ensures { OneMatch F.reads }
{}
