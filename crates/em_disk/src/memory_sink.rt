ghost use Rattle.std.specs.Prelude.{◌≡◌, [], Some, IfOk, OnErr, IsErr, MatchResult, Contains};
ghost use Rattle.em_disk.specs.Causes.{raised, HasCause};
ghost use Rattle.em_disk.specs.Held.{Appended};
ghost use Rattle.em_disk.specs.Memory.{written_of, sink_fails, sink_calls, sink_faults};

use crate::faults::Faults;
use crate::traits::{Failed, Sink};
use em_base::{Bytes, List, NoMemory};
use std::alloc::Global;

/// A sink in memory, some of whose calls fail.
#[derive(Debug, Drop)]
pub struct MemorySink {
    bytes: Bytes,
    faults: Faults,
}

impl MemorySink {
    /// An empty sink. Calls are numbered from 0, and those whose numbers are listed fail.
    pub fn new(alloc: Global, fails: &List<u64>) -> Result<MemorySink, NoMemory>
        ensures written { IfOk result (λ sink. written_of sink ≡ []) }
        ensures fails { IfOk result (λ sink. sink_fails sink ≡ fails.now) }
        ensures calls { IfOk result (λ sink. sink_calls sink ≡ 0) }
        ensures faults { IfOk result (λ sink. sink_faults sink ≡ 0) }
    {
        Ok(MemorySink {
            bytes: Bytes::new(alloc),
            faults: Faults::new(alloc, fails)?,
        })
    }

    /// The bytes written so far.
    pub fn bytes(&self) -> &[u8]
        ensures { result.now ≡ written_of self.now }
    {
        self.bytes.as_slice()
    }
}

impl Sink for MemorySink {
    ghost written = { λ s. Some (written_of s) };

    ghost faults = { sink_faults };

    /// A write fails where its number is listed, and where it finds no memory; it then writes nothing.
    fn write(&mut self, bytes: &[u8]) -> Result<(), Failed>
        ensures bytes { Appended (Some (written_of self.old)) bytes.now (Some (written_of self.new)) result }
        ensures cause { HasCause (sink_faults self.old) (sink_faults self.new) result }

        ensures err { OnErr result (written_of self.new ≡ written_of self.old) }
        ensures listed { Contains (sink_fails self.old) (sink_calls self.old) → IsErr result }
        ensures fails { sink_fails self.new ≡ sink_fails self.old }
        ensures calls { sink_calls self.new ≡ raised (sink_calls self.old) }
        ensures counted { MatchResult result (λ _. sink_faults self.new ≡ sink_faults self.old) (λ _. sink_faults self.new ≡ raised (sink_faults self.old)) }
    {
        self.faults.call()?;
        match self.bytes.extend(bytes) {
            Ok(()) => Ok(()),
            Err(NoMemory) => {
                self.faults.rise();
                Err(Failed)
            }
        }
    }
}
