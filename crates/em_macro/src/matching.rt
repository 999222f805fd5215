//! Matches the pieces of a call in one pass.

ghost use Rattle.std.specs.Prelude.{[], ◌∷◌, suc, drop, length, ◌≡◌, IfOk};
ghost use Rattle.em_macro.specs.declared.matched.Bound.TheVariants as b;
ghost use Rattle.em_macro.specs.declared.rules.Matcher.{out-Matcher};
ghost use Rattle.em_macro.specs.Match as law;
ghost use Rattle.em_macro.specs.Run as spec;
ghost use Rattle.em_macro.specs.Given.{Gives};
ghost use Rattle.em_macro.specs.Reads as told;
ghost use Rattle.em_macro.specs.Reads.{Puts};

use crate::binding::{gather, names};
use crate::error::Stop;
use crate::fragments::Fragments;
use crate::matched::{Binding, Bound, Taken};
use crate::rules::{Matcher, Specifier};
use crate::starting::{first, goes_on};
use crate::tokens::{rest, token};
use em_base::{List, Name, NoMemory, Token};
use em_tree::{FragError, Piece, starts};
use sqlite_items::Items;
use std::alloc::Global;

fn bind(alloc: Global, name: &Name, found: Taken) -> Result<Items<Binding>, NoMemory>
    ensures { IfOk result (λ bs. bs ≡ law.binding name.now (b.One found) ∷ []) }
{
    let mut bindings = Items::new(alloc);
    bindings.push(Binding {
        name: name.share()?,
        bound: Bound::One(found),
    })?;
    Ok(bindings)
}

#[tactic(auto, using(crate::proofs::Passing::is_there))]
fn fragment<F: Fragments>(
    alloc: Global,
    fragments: &F,
    name: &Name,
    specifier: Specifier,
    pieces: &List<Piece>,
    at: &mut usize,
    read: &mut Items<Taken>,
) -> Result<Items<Binding>, Stop>
    ensures gives { Gives (spec.fragment name.now (F.reads specifier (drop at.old pieces.now))) result (drop at.new pieces.now) }
    ensures puts { Puts (told.taken (drop at.old pieces.now) (F.reads specifier (drop at.old pieces.now))) read.old result read.new }
{
    let Specifier { kind, edition } = specifier;
    if !starts(kind, edition, rest(pieces.as_slice(), *at)) {
        return Err(Stop::Fails);
    }
    match fragments.parse(alloc, kind, edition, pieces, *at) {
        Ok(found) => {
            read.push(found.share()?)?;
            *at += found.pieces.get().list.len();
            Ok(bind(alloc, name, found)?)
        }
        Err(FragError::CannotStart) => Err(Stop::Fails),
        Err(FragError::Broken) => Err(Stop::Broken),
        Err(FragError::Depth) => Err(Stop::Depth),
        Err(FragError::NoMemory) => Err(Stop::NoMemory),
    }
}

/// Passes over the separator, where there is one.
fn skip(separator: &Option<Token>, pieces: &[Piece], at: &mut usize)
    ensures { drop at.new pieces.now ≡ spec.behind separator.now (drop at.old pieces.now) }
{
    if let Some(_) = separator {
        if *at < pieces.len() {
            *at += 1;
        }
    }
}

#[cycle(run)]
fn copies<F: Fragments>(
    alloc: Global,
    fragments: &F,
    depth: usize,
    body: &[Matcher],
    separator: &Option<Token>,
    pieces: &List<Piece>,
    at: &mut usize,
    read: &mut Items<Taken>,
) -> Result<Items<Items<Binding>>, Stop>
    ensures gives { Gives (spec.copies F.reads (law.names depth) (law.first depth) (spec.run F.reads depth) (suc (length (drop at.old pieces.now))) body.now separator.now [] (drop at.old pieces.now)) result (drop at.new pieces.now) }
    ensures puts { Puts (told.log_copies F.reads (law.names depth) (law.first depth) (spec.run F.reads depth) (told.log F.reads depth) (suc (length (drop at.old pieces.now))) body.now separator.now (drop at.old pieces.now)) read.old result read.new }
{
    let mut found = Items::new(alloc);
    for _turn in 0..rest(pieces.as_slice(), *at).len() + 1 {
        let copy = run(alloc, fragments, depth, body, pieces, at, read)?;
        found.push(copy)?;
        if !goes_on(depth, body, separator, rest(pieces.as_slice(), *at)) {
            return Ok(found);
        }
        skip(separator, pieces.as_slice(), at);
    }
    Err(Stop::Fails)
}

#[cycle(run)]
#[tactic(auto, unfolding(crate::specs::Run::node, crate::specs::Reads::log_node), using(crate::proofs::Putting::puts_any))]
fn node<F: Fragments>(
    alloc: Global,
    fragments: &F,
    depth: usize,
    matcher: &Matcher,
    pieces: &List<Piece>,
    at: &mut usize,
    read: &mut Items<Taken>,
) -> Result<Items<Binding>, Stop>
    ensures gives { Gives (spec.node F.reads (law.names depth) (law.first depth) (spec.run F.reads depth) (out-Matcher matcher.now) (drop at.old pieces.now)) result (drop at.new pieces.now) }
    ensures puts { Puts (told.log_node F.reads (law.names depth) (law.first depth) (spec.run F.reads depth) (told.log F.reads depth) (out-Matcher matcher.now) (drop at.old pieces.now)) read.old result read.new }
{
    match matcher {
        Matcher::Token(wanted) => {
            token(wanted, pieces.as_slice(), at)?;
            Ok(Items::new(alloc))
        }
        Matcher::Fragment { name, specifier } => {
            fragment(alloc, fragments, name, *specifier, pieces, at, read)
        }
        Matcher::Delimited { open, body, close } => {
            token(open, pieces.as_slice(), at)?;
            let inside = run(alloc, fragments, depth, body.as_slice(), pieces, at, read)?;
            token(close, pieces.as_slice(), at)?;
            Ok(inside)
        }
        Matcher::Repeat {
            body,
            separator,
            plus,
        } => {
            let mut all = Items::new(alloc);
            if *plus || first(depth, body.as_slice(), rest(pieces.as_slice(), *at)) {
                all = copies(
                    alloc,
                    fragments,
                    depth,
                    body.as_slice(),
                    separator,
                    pieces,
                    at,
                    read,
                )?;
            }
            let mut variables = Items::new(alloc);
            names(depth, body.as_slice(), &mut variables)?;
            Ok(gather(alloc, variables.as_slice(), all.as_slice())?)
        }
    }
}

/// What the matchers bind, from an index of the pieces on. The fragments that they read are put behind `read`.
#[cycle(run)]
pub fn run<F: Fragments>(
    alloc: Global,
    fragments: &F,
    depth: usize,
    matchers: &[Matcher],
    pieces: &List<Piece>,
    at: &mut usize,
    read: &mut Items<Taken>,
) -> Result<Items<Binding>, Stop>
    ensures gives { Gives (spec.run F.reads depth matchers.now (drop at.old pieces.now)) result (drop at.new pieces.now) }
    ensures puts { Puts (told.log F.reads depth matchers.now (drop at.old pieces.now)) read.old result read.new }
{
    if depth == 0 {
        return Err(Stop::Fails);
    }
    let mut found = Items::new(alloc);
    for matcher in matchers {
        let more = node(alloc, fragments, depth - 1, matcher, pieces, at, read)?;
        found.append(more)?;
    }
    Ok(found)
}
