//! Copies a transcriber with its variables bound.

ghost use Rattle.std.specs.Prelude.{[], ◌∷◌, ◌++◌, ◌≡◌, ◌<◌, length, map, IfOk, OnOk};
ghost use Rattle.em_macro.specs.declared.rules.Transcriber.{out-Transcriber};
ghost use Rattle.em_macro.specs.declared.matched.Bound.{out-Bound};
ghost use Rattle.em_macro.specs.Write as spec;
ghost use Rattle.em_macro.specs.Write.{Writes, Transcribes};

use crate::binding::{bound_to, share_bound};
use crate::choosing::LEVELS;
use crate::error::CopyError;
use crate::matched::{Binding, Bound, Matched};
use crate::put::{put, put_token};
use crate::rules::{Rules, Transcriber};
use em_base::{List, Mark, Name, NoMemory, Token};
use em_tree::Piece;
use sqlite_items::Items;
use std::alloc::Global;

/// How many copies a repetition makes: any number, so many, or no one number.
#[derive(Clone, Copy)]
pub enum Steps {
    Any,
    Each(usize),
    Unequal,
}

fn agree(one: Steps, other: Steps) -> Steps
    ensures { result ≡ spec.agree one other }
{
    match (one, other) {
        (Steps::Any, _) => other,
        (Steps::Each(n), Steps::Any) => Steps::Each(n),
        (Steps::Each(n), Steps::Each(m)) => {
            if n == m {
                Steps::Each(n)
            } else {
                Steps::Unequal
            }
        }
        (Steps::Each(_), Steps::Unequal) => Steps::Unequal,
        (Steps::Unequal, _) => Steps::Unequal,
    }
}

fn steps_of(bound: &Bound) -> Steps
    ensures { result ≡ spec.steps_of (out-Bound bound.now) }
{
    match bound {
        Bound::One(_) => Steps::Any,
        Bound::Many(all) => Steps::Each(all.get().len()),
    }
}

fn nth_of(k: usize, bound: &Bound) -> Result<Bound, NoMemory>
    ensures { IfOk result (λ x. x ≡ spec.nth_of k bound.now (out-Bound bound.now)) }
{
    match bound {
        Bound::One(_) => share_bound(bound),
        Bound::Many(all) => match all.get().get(k) {
            Some(one) => share_bound(one),
            None => share_bound(bound),
        },
    }
}

/// The bindings of the k-th copy.
pub fn nth(alloc: Global, k: usize, bindings: &[Binding]) -> Result<Items<Binding>, NoMemory>
    ensures { IfOk result (λ x. x ≡ map (spec.nth k) bindings.now) }
{
    let mut found = Items::new(alloc);
    for binding in bindings {
        found.push(Binding {
            name: binding.name.share()?,
            bound: nth_of(k, &binding.bound)?,
        })?;
    }
    Ok(found)
}

#[cycle(uses)]
fn uses_node(
    depth: usize,
    transcriber: &Transcriber,
    found: &mut Items<Name>,
) -> Result<(), NoMemory>
    ensures { OnOk result (found.new ≡ found.old ++ spec.uses_node (spec.uses depth) (out-Transcriber transcriber.now)) }
{
    match transcriber {
        Transcriber::Token(_) => Ok(()),
        Transcriber::Variable { name, .. } => {
            found.push(name.share()?)?;
            Ok(())
        }
        Transcriber::Crate { .. } => Ok(()),
        Transcriber::Delimited { body, .. } => uses(depth, body.as_slice(), found),
        Transcriber::Repeat { body, .. } => uses(depth, body.as_slice(), found),
    }
}

/// The variables that the transcriber names.
#[cycle(uses)]
pub fn uses(
    depth: usize,
    transcribers: &[Transcriber],
    found: &mut Items<Name>,
) -> Result<(), NoMemory>
    ensures { OnOk result (found.new ≡ found.old ++ spec.uses depth transcribers.now) }
{
    if depth == 0 {
        return Ok(());
    }
    for transcriber in transcribers {
        uses_node(depth - 1, transcriber, found)?;
    }
    Ok(())
}

pub fn steps_for(alloc: Global, names: &[Name], bindings: &[Binding]) -> Result<Steps, NoMemory>
    ensures { IfOk result (λ x. x ≡ spec.steps names.now bindings.now) }
{
    let mut found = Steps::Any;
    for name in names {
        found = agree(found, steps_of(&bound_to(alloc, name, bindings)?));
    }
    Ok(found)
}

fn separate(
    alloc: Global,
    mark: Mark,
    k: usize,
    separator: &Option<Token>,
    out: &mut List<Piece>,
) -> Result<(), NoMemory>
    ensures { OnOk result (out.new ≡ out.old ++ spec.between mark k separator.now) }
{
    if k == 0 {
        return Ok(());
    }
    match separator {
        Some(token) => put_token(alloc, mark, token, out),
        None => Ok(()),
    }
}

#[cycle(write)]
fn copies(
    alloc: Global,
    mark: Mark,
    depth: usize,
    count: usize,
    body: &[Transcriber],
    separator: &Option<Token>,
    bindings: &[Binding],
    out: &mut List<Piece>,
) -> Result<(), CopyError>
    ensures { Writes (spec.copies mark (spec.uses depth) (spec.written mark depth) count 0 body.now separator.now bindings.now out.old) result out.new }
{
    for k in 0..count {
        separate(alloc, mark, k, separator, out)?;
        let inner = nth(alloc, k, bindings)?;
        write(alloc, mark, depth, body, inner.as_slice(), out)?;
    }
    Ok(())
}

#[cycle(write)]
#[tactic(auto, unfolding(crate::specs::Write::write_node))]
fn write_node(
    alloc: Global,
    mark: Mark,
    depth: usize,
    transcriber: &Transcriber,
    bindings: &[Binding],
    out: &mut List<Piece>,
) -> Result<(), CopyError>
    ensures { Writes (spec.write_node mark (spec.uses depth) (spec.written mark depth) (out-Transcriber transcriber.now) bindings.now out.old) result out.new }
{
    match transcriber {
        Transcriber::Token(token) => {
            put_token(alloc, mark, token, out)?;
            Ok(())
        }
        Transcriber::Variable { dollar, word, name } => match bound_to(alloc, name, bindings)? {
            Bound::One(found) => {
                put(alloc, mark, dollar, word, &found, out)?;
                Ok(())
            }
            Bound::Many(_) => Err(CopyError::Lengths),
        },
        Transcriber::Crate { dollar, word } => {
            put_token(alloc, mark, dollar, out)?;
            put_token(alloc, mark, word, out)?;
            Ok(())
        }
        Transcriber::Delimited { open, body, close } => {
            put_token(alloc, mark, open, out)?;
            write(alloc, mark, depth, body.as_slice(), bindings, out)?;
            put_token(alloc, mark, close, out)?;
            Ok(())
        }
        Transcriber::Repeat { body, separator } => {
            let body = body.as_slice();
            let mut names = Items::new(alloc);
            uses(depth, body, &mut names)?;
            match steps_for(alloc, names.as_slice(), bindings)? {
                Steps::Each(count) => {
                    copies(alloc, mark, depth, count, body, separator, bindings, out)
                }
                _ => Err(CopyError::Lengths),
            }
        }
    }
}

/// Puts what the transcriber writes behind what is there.
#[cycle(write)]
pub fn write(
    alloc: Global,
    mark: Mark,
    depth: usize,
    transcribers: &[Transcriber],
    bindings: &[Binding],
    out: &mut List<Piece>,
) -> Result<(), CopyError>
    ensures { Writes (spec.written mark depth transcribers.now bindings.now out.old) result out.new }
{
    if depth == 0 {
        return Err(CopyError::Lengths);
    }
    for transcriber in transcribers {
        write_node(alloc, mark, depth - 1, transcriber, bindings, out)?;
    }
    Ok(())
}

/// What the chosen arm writes: its transcriber with the bindings put in and repetitions in step (Reference,
/// "Transcribing"). A fragment of the kinds `ident` and `tt` is put in as its own pieces, any other as one group at the
/// variable's place. The tokens that the transcriber wrote keep the edition of their text and get the mark; pieces from
/// the call stay as they are. The rules are such as `read_rules` gives, and the arm is one of them. `Lengths` comes
/// exactly where a repetition that is copied names no repeated variable or two of different lengths, or where a
/// variable that is copied stands under fewer repetitions than in its matcher.
pub fn transcribe(
    alloc: Global,
    rules: &Rules,
    matched: &Matched,
    mark: Mark,
) -> Result<List<Piece>, CopyError>
    requires { matched.now.arm < length rules.now.arms }
    ensures { Transcribes rules.now.arms matched.now mark result }
{
    let arm = &rules.arms.as_slice()[matched.arm as usize];
    let mut out = List::new(alloc);
    let bindings = matched.bindings.as_slice();
    write(
        alloc,
        mark,
        LEVELS,
        arm.transcriber.as_slice(),
        bindings,
        &mut out,
    )?;
    Ok(out)
}
