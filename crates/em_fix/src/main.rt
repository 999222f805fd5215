//! Migrates a package to the next edition.
#![tactic(auto)]

mod fix;
mod lines;
mod manifest;
mod prepare;
mod report;
mod source;
mod status;
mod words;

use crate::fix::fix;
use crate::lines::tell;
use crate::status::{Status, code};
use em_base::{List, Text};
use em_disk::{FolderFiles, StdoutSink};
use std::alloc::AllocError;
use std::io::ErrorKind;
use std::process::ExitCode;
use std::{env, io};

/// The words after the program's name.
fn words_of(rt: &HostRuntime) -> io::Result<List<Text>> {
    let mut words = Vec::new(rt.alloc());
    for word in env::args(rt)?.skip(1) {
        words.push(Text::from_string(word).map_err(|_| AllocError)?)?;
    }
    Ok(List::from_vec(words))
}

/// Why there are no words: memory was short, or they are no text.
fn refusal_of(error: &io::Error) -> Status {
    match error.kind() {
        ErrorKind::OutOfMemory => Status::NoMemory,
        _ => Status::Usage,
    }
}

fn main(rt: HostRuntime) -> ExitCode {
    let mut files = FolderFiles::new(&rt);
    let mut out = StdoutSink::new(&rt);
    let status = match words_of(&rt) {
        Ok(words) => fix(rt.alloc(), &words, &mut files, &mut out),
        Err(error) => {
            let status = refusal_of(&error);
            tell(&mut out, &status);
            status
        }
    };
    ExitCode::from(code(&status))
}

#[cfg(test)]
mod tests;
