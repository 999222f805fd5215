//! Asks the parser what the rows of a table are, and prints each row with its answer. The rows come from standard input,
//! one a line; `Row` says how they are written. A line that begins with `--` is a heading.
#![tactic(auto)]

mod answer;
mod fault;
mod row;
mod shape;

use answer::answer;
use fault::Fault;
use row::Row;
use std::alloc::Global;
use std::process::ExitCode;

/// What the parser answers to a line.
fn answer_to(alloc: Global, line: &str) -> Result<String, Fault> {
    let row = Row::read(alloc, line)?;
    answer(alloc, &row)
}

/// What is printed of a line.
fn reply(alloc: Global, line: &str) -> Result<String, Fault> {
    if line.starts_with("--") {
        return Ok(String::from_str(alloc, line)?);
    }
    match answer_to(alloc, line) {
        Ok(answer) => Ok(format!(in alloc; "{line}: {answer}")?),
        Err(Fault::Lex { offset, kind }) => {
            Ok(format!(in alloc; "{line}: lex {kind:?} {offset}")?)
        }
        Err(Fault::NoRow) => Ok(format!(in alloc; "{line}: no row")?),
        Err(Fault::NoMemory) => Err(Fault::NoMemory),
    }
}

fn main(rt: HostRuntime) -> ExitCode {
    for line in rt.lines(rt.alloc()) {
        let Ok(line) = line else {
            return ExitCode::from(3);
        };
        let Ok(reply) = reply(rt.alloc(), line.as_str()) else {
            return ExitCode::from(6);
        };
        if println!(rt; "{reply}").is_err() {
            return ExitCode::FAILURE;
        }
    }
    ExitCode::SUCCESS
}
