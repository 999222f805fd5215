ghost use Rattle.std.specs.Prelude.{◌≡◌, ◌<◌, ◌≤◌, ◌^◌, length, OnOk, IfErr, OnErr};
ghost use Rattle.em_disk.specs.Causes.{Rose};
ghost use Rattle.em_disk.specs.Changes.{after, PartDone};

use crate::traits::{Failed, Files};
use em_base::{Bytes, Text};

/// The old and the new bytes of a file.
#[derive(Debug, Drop)]
pub struct Change {
    pub name: Text,
    pub old: Bytes,
    pub new: Bytes,
}

/// The number, from 0, of the call that failed.
#[derive(Clone, Copy, Debug, PartialEq, Eq)]
pub struct PutFailed {
    pub which: u32,
}

/// Puts the new bytes of each change in order, up to the first put that fails. Takes no memory of its own.
#[tactic(auto, using(crate::proofs::Afters::after_more))]
pub fn put_changes<F: Files>(files: &mut F, changes: &[Change]) -> Result<(), PutFailed>
    requires { length changes.now < 2 ^ 32 }
    ensures done { OnOk result (F.held files.new ≡ after changes.now (F.held files.old)) }
    ensures part { IfErr result (λ e. PartDone changes.now e.which (F.held files.old) (F.held files.new)) }
    ensures later { F.faults files.old ≤ F.faults files.new }
    ensures cause { OnErr result (Rose (F.faults files.old) (F.faults files.new)) }
{
    let mut which = 0u32;
    for change in changes {
        match files.put(change.name.as_str(), change.new.as_slice()) {
            Ok(()) => which += 1,
            Err(Failed) => return Err(PutFailed { which }),
        }
    }
    Ok(())
}
