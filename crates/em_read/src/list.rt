//! Lists of what one function reads.

ghost use Rattle.std.specs.Prelude.{◌≡◌, Bool};
ghost use Rattle.em_tree.specs.Starts.{Pieces};
ghost use Rattle.em_grammar.specs.Reader as read;
ghost use Rattle.em_grammar.specs.Reader.{Read};
ghost use Rattle.em_grammar.specs.Rows.{rows_of};
ghost use Rattle.em_read.specs.Parse.{Reads, Mirrors, Tests};

use crate::cursor::{Cursor, sign_if};
use crate::stop::Stop;
use em_grammar::Written;
use em_tree::Listed;
use sqlite_items::Items;
use std::alloc::Global;

/// As many as there are.
pub fn all_of<T: Drop, F: Fn(&mut Cursor<'_>) -> Result<T, Stop>>(
    alloc: Global,
    input: &mut Cursor<'_>,
    one: F,
) -> Result<Items<T>, Stop>
    requires { F.IsAlwaysCallable one }
    ensures { (R : Pieces → Read T) → Mirrors (F.post one) R → Reads (read.all_of R input.old.rest.now) result input.new.rest.now }
{
    let mut found = Items::new(alloc);
    for _turn in 0..input.rest.len() {
        let start = input.rest;
        match one(input) {
            Ok(item) => found.push(item)?,
            Err(Stop::Absent) => {
                input.rest = start;
                return Ok(found);
            }
            Err(stop) => return Err(stop),
        }
    }
    Ok(found)
}

/// As many as there are with commas behind them. Behind one without a comma there is no other.
pub fn list_of<T: Drop, F: Fn(&mut Cursor<'_>) -> Result<T, Stop>>(
    alloc: Global,
    input: &mut Cursor<'_>,
    one: F,
) -> Result<Items<Listed<T>>, Stop>
    requires { F.IsAlwaysCallable one }
    ensures { (R : Pieces → Read T) → Mirrors (F.post one) R → Reads (read.list_of R input.old.rest.now) result input.new.rest.now }
{
    let mut found = Items::new(alloc);
    for _turn in 0..input.rest.len() {
        let start = input.rest;
        match one(input) {
            Ok(item) => {
                let comma = sign_if(alloc, input, Written::Comma)?;
                let ends = comma.is_none();
                found.push(Listed { item, comma })?;
                if ends {
                    return Ok(found);
                }
            }
            Err(Stop::Absent) => {
                input.rest = start;
                return Ok(found);
            }
            Err(stop) => return Err(stop),
        }
    }
    Ok(found)
}

/// As many as there are. Behind one that isn't closed there is no other.
pub fn rows<T: Drop, C: Fn(&T) -> bool, F: Fn(&mut Cursor<'_>) -> Result<T, Stop>>(
    alloc: Global,
    input: &mut Cursor<'_>,
    closed: C,
    one: F,
) -> Result<Items<T>, Stop>
    requires tests { C.IsAlwaysCallable closed }
    requires reads { F.IsAlwaysCallable one }
    ensures { (test : T → Bool) (R : Pieces → Read T) → Tests (C.post closed) test → Mirrors (F.post one) R → Reads (rows_of test R input.old.rest.now) result input.new.rest.now }
{
    let mut found = Items::new(alloc);
    for _turn in 0..input.rest.len() {
        let start = input.rest;
        match one(input) {
            Ok(item) => {
                let ends = !closed(&item);
                found.push(item)?;
                if ends {
                    return Ok(found);
                }
            }
            Err(Stop::Absent) => {
                input.rest = start;
                return Ok(found);
            }
            Err(stop) => return Err(stop),
        }
    }
    Ok(found)
}
