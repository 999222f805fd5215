ghost use Rattle.std.specs.Prelude.{◌≡◌, ◌≤◌, ◌<◌, ◌^◌, ◌++◌, ◌∷◌, [], length, OnOk, IfOk, IfErr, MatchOption, IfSome};
ghost use Rattle.em_fix.specs.Migration.{HoldsShort, HoldsLong, Migrates, AreOwn, change, change_if};
ghost use Rattle.em_fix.specs.Words.{manifest_name, source_name};
ghost use Rattle.em_fix.specs.Answers.{FetchRefuses, IsRefusal, Refuses};

use crate::manifest::next_manifest;
use crate::report::report_of;
use crate::source::moved_source;
use crate::status::Status;
use em_base::{Bytes, Limit, List, NoMemory, Text};
use em_disk::{Change, Files, ReadError};
use std::alloc::Global;

const FILE_BYTES: usize = 4_194_304;

/// All that is to be put, in order, and the report.
#[derive(Debug, Drop)]
pub struct Migration {
    pub changes: List<Change>,
    pub report: Bytes,
}

/// The bytes of a file, `None` where it is too long, or why they can't be had.
fn fetch<F: Files>(alloc: Global, files: &mut F, name: &str) -> Result<Option<Bytes>, Status>
    ensures kept { F.held files.new ≡ F.held files.old }
    ensures later { F.faults files.old ≤ F.faults files.new }
    ensures short { IfOk result (λ answer. IfSome answer (λ bytes. length bytes ≤ 4194304)) }
    ensures ok { IfOk result (λ answer. MatchOption answer (IfSome (F.held files.old) (λ held. HoldsLong held name.now))
        (λ bytes. IfSome (F.held files.old) (λ held. HoldsShort held name.now bytes))) }
    ensures err { IfErr result (λ status. FetchRefuses (F.held files.old) name.now status
        (F.faults files.old) (F.faults files.new)) }
{
    match files.read(alloc, name, FILE_BYTES) {
        Ok(bytes) => Ok(Some(bytes)),
        Err(ReadError::NoMemory) => Err(Status::NoMemory),
        Err(ReadError::Absent) => Err(Status::Unbuilt),
        Err(ReadError::TooLong) => Ok(None),
        Err(ReadError::Failed) => match Text::from_str(alloc, name) {
            Ok(name) => Err(Status::ReadFault { name }),
            Err(NoMemory) => Err(Status::NoMemory),
        },
    }
}

fn change_of(alloc: Global, name: &str, old: Bytes, new: Bytes) -> Result<Change, NoMemory>
    ensures { IfOk result (λ c. c ≡ change name.now old new) }
{
    let name = Text::from_str(alloc, name)?;
    Ok(Change { name, old, new })
}

/// Adds the change of a file, where its bytes differ.
fn push_if_changed(
    alloc: Global,
    changes: &mut List<Change>,
    name: &str,
    old: Bytes,
    new: Bytes,
) -> Result<(), NoMemory>
    ensures { OnOk result (changes.new ≡ changes.old ++ change_if name.now old new) }
{
    if old.as_slice() == new.as_slice() {
        return Ok(());
    }
    let change = change_of(alloc, name, old, new)?;
    changes.push(change)
}

/// The changes in the order in which they are put: the source, if it changes, and then the manifest.
fn changes_of(
    alloc: Global,
    source: Bytes,
    new_source: Bytes,
    manifest: Bytes,
    new_manifest: Bytes,
) -> Result<List<Change>, NoMemory>
    ensures few { IfOk result (λ list. length list < 2 ^ 32) }
    ensures all { IfOk result (λ list. list ≡ change_if source_name source new_source
        ++ (change manifest_name manifest new_manifest ∷ [])) }
{
    let mut changes = List::new(alloc);
    push_if_changed(alloc, &mut changes, "src/main.rs", source, new_source)?;
    let manifest = change_of(alloc, "Cargo.toml", manifest, new_manifest)?;
    changes.push(manifest)?;
    Ok(changes)
}

/// Reads the package, and makes all that is to be put and the report.
#[tactic(auto, using(crate::proofs::Prepared::manifest_refuses, crate::proofs::Prepared::manifest_unbuilt, crate::proofs::Prepared::manifest_long, crate::proofs::Prepared::source_refuses, crate::proofs::Prepared::source_long, crate::proofs::Prepared::source_stays, crate::proofs::Prepared::stays_refusal, crate::proofs::Prepared::all_moved, crate::proofs::Prepared::all_own))]
pub fn prepare<F: Files>(alloc: Global, files: &mut F) -> Result<Migration, Status>
    ensures kept { F.held files.new ≡ F.held files.old }
    ensures later { F.faults files.old ≤ F.faults files.new }
    ensures few { IfOk result (λ m. length m.changes < 2 ^ 32) }
    ensures own { IfOk result (λ m. AreOwn m.changes) }
    ensures ok { IfOk result (λ m. IfSome (F.held files.old) (λ held. Migrates held m.changes m.report)) }
    ensures cause { IfErr result (λ status. IsRefusal status (F.faults files.old) (F.faults files.new)) }
    ensures err { IfErr result (λ status. IfSome (F.held files.old) (λ held. Refuses held status)) }
{
    let Some(manifest) = fetch(alloc, files, "Cargo.toml")? else {
        return Err(Status::Unbuilt);
    };
    let Some(new_manifest) = next_manifest(alloc, manifest.as_slice())? else {
        return Err(Status::Unbuilt);
    };
    let Some(source) = fetch(alloc, files, "src/main.rs")? else {
        return Err(Status::Limit(Limit::FileBytes));
    };
    let moved = moved_source(alloc, source)?;
    let report = report_of(alloc, moved.found.as_slice())?;
    let changes = changes_of(alloc, moved.old, moved.new, manifest, new_manifest)?;
    Ok(Migration { changes, report })
}
