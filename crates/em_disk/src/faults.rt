ghost use Rattle.std.specs.Prelude.{◌≡◌, ◌≤◌, ◌↔◌, IfOk, OnOk, OnErr, IsErr, Contains};
ghost use Rattle.em_disk.specs.Causes.{raised};

use crate::traits::Failed;
use em_base::{List, NoMemory};
use std::alloc::Global;

/// The numbers of the calls that fail, and the counts of calls and of faults so far.
#[derive(Debug, Drop)]
pub(crate) struct Faults {
    fails: List<u64>,
    calls: u64,
    count: u64,
}

impl Faults {
    pub(crate) fn new(alloc: Global, fails: &List<u64>) -> Result<Faults, NoMemory>
        ensures fails { IfOk result (λ faults. faults.fails ≡ fails.now) }
        ensures calls { IfOk result (λ faults. faults.calls ≡ 0) }
        ensures count { IfOk result (λ faults. faults.count ≡ 0) }
    {
        Ok(Faults {
            fails: List::from_vec(Vec::from_slice(alloc, fails.as_slice())?),
            calls: 0,
            count: 0,
        })
    }

    /// Counts a fault.
    pub(crate) fn rise(&mut self)
        ensures risen { self.new ≡ record self.old { count = raised self.old.count } }
        ensures later { self.old.count ≤ self.new.count }
    {
        self.count = self.count.saturating_add(1);
    }

    /// Counts a call, which fails exactly where its number is listed. That is a fault.
    pub(crate) fn call(&mut self) -> Result<(), Failed>
        ensures listed { IsErr result ↔ Contains self.old.fails self.old.calls }
        ensures fails { self.new.fails ≡ self.old.fails }
        ensures calls { self.new.calls ≡ raised self.old.calls }
        ensures ok { OnOk result (self.new.count ≡ self.old.count) }
        ensures err { OnErr result (self.new.count ≡ raised self.old.count) }
        ensures later { self.old.count ≤ self.new.count }
    {
        let listed = self.fails.as_slice().contains(&self.calls);
        self.calls = self.calls.saturating_add(1);
        if listed {
            self.rise();
            return Err(Failed);
        }
        Ok(())
    }
}
