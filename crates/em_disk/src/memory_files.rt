ghost use Rattle.std.specs.Prelude.{◌≡◌, ◌≤◌, ◌↔◌, length, Some, IfOk, OnOk, OnErr, IsErr, MatchResult, Contains, ◌∷◌, filter, not};
ghost use Rattle.std.specs.Option.{option_copied};
ghost use Rattle.std.specs.FinMap as map;
ghost use Rattle.std.specs.Ordering.{nat_cmp};
ghost use Rattle.std.specs.Str.{bytes_eq};
ghost use Rattle.std.specs.Cmp.Lexicographic.{slice_cmp};
ghost use Rattle.em_disk.specs.Causes.{raised, HasCause};
ghost use Rattle.em_disk.specs.Held.{with_file, without_file, DoneOrNot};
ghost use Rattle.em_disk.specs.Answers.{ReadAnswers, ReadHasCause, faults_after};
ghost use Rattle.em_disk.specs.Memory.{held_of, fails_of, calls_of, faults_of};

use crate::faults::Faults;
use crate::traits::{Failed, Files, ReadError};
use em_base::{Bytes, List, NoMemory, Text};
use std::alloc::Global;

/// Files in memory, some of whose calls fail. The first entry of a name counts.
#[derive(Debug, Drop)]
pub struct MemoryFiles {
    entries: Vec<(Text, Bytes)>,
    faults: Faults,
}

/// The bytes of the first entry with this name.
fn first_of<'a>(entries: &'a [(Text, Bytes)], name: &str) -> Option<&'a Bytes>
    ensures { option_copied result ≡ map.get (map.from_entries {R = slice_cmp nat_cmp} entries.now) name.now }
{
    for entry in entries {
        if name == entry.0.as_str() {
            return Some(&entry.1);
        }
    }
    None
}

/// A copy of entries.
fn copy_of(alloc: Global, start: &[(Text, Bytes)]) -> Result<Vec<(Text, Bytes)>, NoMemory>
    ensures { IfOk result (λ v. v.items ≡ start.now) }
{
    let mut entries = Vec::new(alloc);
    for entry in start {
        let copy = (
            Text::from_str(alloc, entry.0.as_str())?,
            Bytes::from_slice(alloc, entry.1.as_slice())?,
        );
        entries.push(copy)?;
    }
    Ok(entries)
}

/// Puts an entry before all others.
fn put_first(entries: &mut Vec<(Text, Bytes)>, name: &str, bytes: &[u8]) -> Result<(), NoMemory>
    ensures ok { OnOk result (entries.new.items ≡ (name.now, bytes.now) ∷ entries.old.items) }
    ensures err { OnErr result (entries.new.items ≡ entries.old.items) }
{
    let alloc = *entries.allocator();
    let entry = (
        Text::from_str(alloc, name)?,
        Bytes::from_slice(alloc, bytes)?,
    );
    entries.insert(0, entry)?;
    Ok(())
}

/// Takes out each entry with this name.
fn take_out(entries: &mut Vec<(Text, Bytes)>, name: &str)
    ensures { entries.new.items ≡ filter (λ e. not (bytes_eq name.now e.0)) entries.old.items }
{
    entries.retain(|entry| name != entry.0.as_str());
}

impl MemoryFiles {
    /// Files with these names and bytes, of which the first entry of a name counts. Calls are numbered from 0, and
    /// those whose numbers are listed fail.
    pub fn new(
        alloc: Global,
        start: &List<(Text, Bytes)>,
        fails: &List<u64>,
    ) -> Result<MemoryFiles, NoMemory>
        ensures held { IfOk result (λ files. held_of files ≡ map.from_entries start.now) }
        ensures fails { IfOk result (λ files. fails_of files ≡ fails.now) }
        ensures calls { IfOk result (λ files. calls_of files ≡ 0) }
        ensures faults { IfOk result (λ files. faults_of files ≡ 0) }
    {
        Ok(MemoryFiles {
            entries: copy_of(alloc, start.as_slice())?,
            faults: Faults::new(alloc, fails)?,
        })
    }
}

impl Files for MemoryFiles {
    ghost held = { λ f. Some (held_of f) };

    ghost faults = { faults_of };

    /// A read fails exactly where its number is listed.
    fn read(&mut self, alloc: Global, name: &str, most: usize) -> Result<Bytes, ReadError>
        ensures kept { Some (held_of self.new) ≡ Some (held_of self.old) }
        ensures short { IfOk result (λ bytes. length bytes ≤ most) }
        ensures answer { ReadAnswers (map.get (held_of self.old) name.now) most result }
        ensures cause { ReadHasCause (faults_of self.old) (faults_of self.new) result }

        ensures listed { (result ≡ Err ReadError.Failed) ↔ Contains (fails_of self.old) (calls_of self.old) }
        ensures fails { fails_of self.new ≡ fails_of self.old }
        ensures calls { calls_of self.new ≡ raised (calls_of self.old) }
        ensures counted { faults_of self.new ≡ faults_after (faults_of self.old) result }
    {
        let Ok(()) = self.faults.call() else {
            return Err(ReadError::Failed);
        };
        let Some(bytes) = first_of(self.entries.as_slice(), name) else {
            return Err(ReadError::Absent);
        };
        if bytes.len() > most {
            return Err(ReadError::TooLong);
        }
        match Bytes::from_slice(alloc, bytes.as_slice()) {
            Ok(copy) => Ok(copy),
            Err(NoMemory) => Err(ReadError::NoMemory),
        }
    }

    /// A put fails where its number is listed, and where it finds no memory.
    fn put(&mut self, name: &str, bytes: &[u8]) -> Result<(), Failed>
        ensures held { DoneOrNot (Some (held_of self.old)) (with_file (Some (held_of self.old)) name.now bytes.now) (Some (held_of self.new)) result }
        ensures cause { HasCause (faults_of self.old) (faults_of self.new) result }

        ensures err { OnErr result (held_of self.new ≡ held_of self.old) }
        ensures listed { Contains (fails_of self.old) (calls_of self.old) → IsErr result }
        ensures fails { fails_of self.new ≡ fails_of self.old }
        ensures calls { calls_of self.new ≡ raised (calls_of self.old) }
        ensures counted { MatchResult result (λ _. faults_of self.new ≡ faults_of self.old) (λ _. faults_of self.new ≡ raised (faults_of self.old)) }
    {
        self.faults.call()?;
        match put_first(&mut self.entries, name, bytes) {
            Ok(()) => Ok(()),
            Err(NoMemory) => {
                self.faults.rise();
                Err(Failed)
            }
        }
    }

    /// A remove fails exactly where its number is listed.
    fn remove(&mut self, name: &str) -> Result<(), Failed>
        ensures held { DoneOrNot (Some (held_of self.old)) (without_file (Some (held_of self.old)) name.now) (Some (held_of self.new)) result }
        ensures cause { HasCause (faults_of self.old) (faults_of self.new) result }

        ensures err { OnErr result (held_of self.new ≡ held_of self.old) }
        ensures listed { IsErr result ↔ Contains (fails_of self.old) (calls_of self.old) }
        ensures fails { fails_of self.new ≡ fails_of self.old }
        ensures calls { calls_of self.new ≡ raised (calls_of self.old) }
        ensures counted { MatchResult result (λ _. faults_of self.new ≡ faults_of self.old) (λ _. faults_of self.new ≡ raised (faults_of self.old)) }
    {
        self.faults.call()?;
        take_out(&mut self.entries, name);
        Ok(())
    }
}
