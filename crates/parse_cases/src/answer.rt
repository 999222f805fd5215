use crate::fault::Fault;
use crate::row::{Call, Row};
use crate::shape;
use em_base::Edition;
use em_parse::{ParseError, parse_body, parse_file, parse_fragment, parse_items};
use em_tree::{FragError, Fragment, FragmentKind};
use std::alloc::Global;

/// What the parser answers to a row.
pub fn answer(alloc: Global, row: &Row) -> Result<String, Fault> {
    match row.call {
        Call::File => file(alloc, row),
        Call::Items => items(alloc, row),
        Call::Body => body(alloc, row),
        Call::Fragment { kind, edition } => {
            fragment(alloc, row, kind, edition.unwrap_or(row.edition))
        }
    }
}

fn file(alloc: Global, row: &Row) -> Result<String, Fault> {
    match parse_file(alloc, &row.tokens) {
        Ok(tree) => {
            let mut out = String::from_str(alloc, "ok")?;
            for _ in tree.attributes.as_slice() {
                out.push_str(" #")?;
            }
            shape::items(&mut out, tree.items.as_slice())?;
            Ok(out)
        }
        Err(ParseError::NoMemory) => Err(Fault::NoMemory),
        Err(ParseError::NoItem { offset }) => Ok(format!(in alloc; "NoItem {offset}")?),
        Err(ParseError::Depth { offset }) => Ok(format!(in alloc; "Depth {offset}")?),
    }
}

fn refusal(alloc: Global, error: FragError) -> Result<String, Fault> {
    let name = match error {
        FragError::NoMemory => return Err(Fault::NoMemory),
        FragError::CannotStart => "CannotStart",
        FragError::Broken => "Broken",
        FragError::Depth => "Depth",
    };
    Ok(String::from_str(alloc, name)?)
}

fn items(alloc: Global, row: &Row) -> Result<String, Fault> {
    match parse_items(alloc, &row.pieces) {
        Ok(list) => {
            let mut out = String::from_str(alloc, "ok")?;
            shape::items(&mut out, list.as_slice())?;
            Ok(out)
        }
        Err(error) => refusal(alloc, error),
    }
}

fn body(alloc: Global, row: &Row) -> Result<String, Fault> {
    match parse_body(alloc, &row.pieces) {
        Ok(tree) => {
            let mut out = String::from_str(alloc, "ok")?;
            shape::body(alloc, &mut out, &tree)?;
            Ok(out)
        }
        Err(error) => refusal(alloc, error),
    }
}

fn fragment(
    alloc: Global,
    row: &Row,
    kind: FragmentKind,
    edition: Edition,
) -> Result<String, Fault> {
    if row.from > row.pieces.len() {
        return Err(Fault::NoRow);
    }
    match parse_fragment(alloc, kind, edition, &row.pieces, row.from) {
        Ok(found) => found_of(alloc, row, &found),
        Err(error) => refusal(alloc, error),
    }
}

/// How many pieces were taken of those that are there, and the tree.
fn found_of(alloc: Global, row: &Row, found: &Fragment) -> Result<String, Fault> {
    let taken = found.taken;
    let count = row.pieces.len().saturating_sub(row.from);
    let mut out = format!(in alloc; "ok {taken}/{count}")?;
    shape::node(alloc, &mut out, &found.node)?;
    Ok(out)
}
