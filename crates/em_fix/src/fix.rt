ghost use Rattle.std.specs.Prelude.{◌≡◌, ◌≢◌, ◌≤◌, ◌↔◌, ◌⊎◌, ◌<◌, ◌^◌, length, IfSome};
ghost use Rattle.em_disk.specs.Causes.{Rose};
ghost use Rattle.em_fix.specs.Words.{the_words};
ghost use Rattle.em_fix.specs.Migration.{AreOwn};
ghost use Rattle.em_fix.specs.Lines.{Tells};
ghost use Rattle.em_fix.specs.Answers.{Says, Carries, FaultRose, IsDecided, MigrationsAreDecided, RefusalsAreDecided};

use crate::lines::{tell, tell_write_fault};
use crate::prepare::{Migration, prepare};
use crate::status::Status;
use crate::words::are_the_words;
use em_base::{List, Text};
use em_disk::{Failed, Files, PutFailed, Sink, put_changes};
use std::alloc::Global;

/// Puts the changes, and then writes the report. Takes no memory.
fn carry_out<F: Files, S: Sink>(migration: &Migration, files: &mut F, out: &mut S) -> Status
    requires few { length migration.now.changes < 2 ^ 32 }
    requires own { AreOwn migration.now.changes }
    ensures carried { Carries migration.now.changes migration.now.report (F.held files.old) result (F.held files.new)
        (S.written out.old) (S.written out.new) (S.faults out.old) (S.faults out.new) }
    ensures tells { Tells result (S.written out.old) (S.written out.new)
        (S.faults out.old) (S.faults out.new) }
    ensures cause { FaultRose result (F.faults files.old) (F.faults files.new)
        (S.faults out.old) (S.faults out.new) }
{
    let changes = migration.changes.as_slice();
    match put_changes(files, changes) {
        Ok(()) => match out.write(migration.report.as_slice()) {
            Ok(()) => Status::Done,
            Err(Failed) => Status::SinkFault,
        },
        Err(PutFailed { which }) => {
            tell_write_fault(out, &changes[which as usize].name);
            Status::WriteFault { which }
        }
    }
}

/// A package has at most one answer, but for want of memory.
fn packages_decide()
    ensures migrated { MigrationsAreDecided }
    ensures refused { RefusalsAreDecided }
{
    em_lex::lexing_is_one();
    em_lex::list_excludes_fault();
    em_lex::fault_is_one();
    em_parse::answers_are_decided();
    em_first::programs_are_files();
}

/// Does all that the program does: migrates the package in the current folder by one edition, and writes a report or one line that
/// says why not. `words` are those after the program's name.
#[tactic(auto, using(crate::proofs::Fixed::says_carried, crate::proofs::Fixed::carried_not_usage, crate::proofs::Fixed::carried_decides, crate::proofs::Fixed::refused_says, crate::proofs::Fixed::refused_tells, crate::proofs::Fixed::refused_cause, crate::proofs::Fixed::refused_decides, crate::proofs::Fixed::refusal_not_usage, crate::proofs::Fixed::unchanged_says_usage))]
pub fn fix<F: Files, S: Sink>(
    alloc: Global,
    words: &List<Text>,
    files: &mut F,
    out: &mut S,
) -> Status
    // The words are refused exactly where they are none that the program takes.
    ensures usage { (result ≡ Status.Usage) ↔ (words.now ≢ the_words) }

    // What the answer says of the package, of the files that are left, and of the report.
    ensures says { IfSome (F.held files.old) (λ held. Says held result (F.held files.new)
        (S.written out.old) (S.written out.new) (S.faults out.old) (S.faults out.new)) }

    // A refusal writes its line.
    ensures tells { Tells result (S.written out.old) (S.written out.new)
        (S.faults out.old) (S.faults out.new) }

    // A fault is answered only where one came.
    ensures cause { FaultRose result (F.faults files.old) (F.faults files.new)
        (S.faults out.old) (S.faults out.new) }

    // What the package is decides the answer, if no fault comes and there is memory.
    ensures exact { words.now ≡ the_words
        → (Rose (F.faults files.old) (F.faults files.new) → ⊥)
        → (Rose (S.faults out.old) (S.faults out.new) → ⊥)
        → IfSome (F.held files.old) (λ held. IsDecided held result) }
{
    packages_decide();
    if !are_the_words(words) {
        tell(out, &Status::Usage);
        return Status::Usage;
    }
    match prepare(alloc, files) {
        Ok(migration) => carry_out(&migration, files, out),
        Err(status) => {
            tell(out, &status);
            status
        }
    }
}
