ghost use Rattle.std.specs.Prelude.{◌≡◌, ℕ, None, take, OnOk, OnErr, MatchResult};
ghost use Rattle.std.specs.Io.KnownBytes.{Appends};
ghost use Rattle.em_disk.specs.Adapters.{stdout_faults};
ghost use Rattle.em_disk.specs.Causes.{raised, HasCause};

use crate::traits::{Failed, Sink};
use em_base::rest_from;
use std::io;
use std::io::Write;

/// Standard output. It does not tell what was written.
#[derive(Drop)]
pub struct StdoutSink<P: Print> {
    host: P,
    faults: u64,
}

/// Writes all bytes, or a first part of them. A write that takes none is a failure.
fn write_through<W: Write>(writer: &mut W, bytes: &[u8]) -> Result<(), Failed>
    ensures ok { OnOk result (Appends (W.contents writer.old) (W.contents writer.new) bytes.now) }
    ensures err { OnErr result ((n : ℕ) × Appends (W.contents writer.old) (W.contents writer.new) (take n bytes.now)) }
{
    let mut at = 0;
    while at < bytes.len() {
        match writer.write(rest_from(bytes, at)) {
            Ok(0) => return Err(Failed),
            Ok(count) => at += count,
            Err(_) => return Err(Failed),
        }
    }
    Ok(())
}

impl<P: Print> StdoutSink<P> {
    /// Makes no call on the outside.
    pub fn new(host: P) -> StdoutSink<P>
        ensures { stdout_faults result ≡ 0 }
    {
        StdoutSink { host, faults: 0 }
    }
}

impl<P: Print> Sink for StdoutSink<P> {
    ghost written = { λ _. None };

    ghost faults = { stdout_faults };

    fn write(&mut self, bytes: &[u8]) -> Result<(), Failed>
        ensures cause { HasCause (stdout_faults self.old) (stdout_faults self.new) result }
        ensures counted { MatchResult result (λ _. stdout_faults self.new ≡ stdout_faults self.old) (λ _. stdout_faults self.new ≡ raised (stdout_faults self.old)) }
    {
        match write_through(&mut io::writer(&self.host), bytes) {
            Ok(()) => Ok(()),
            Err(Failed) => {
                self.faults = self.faults.saturating_add(1);
                Err(Failed)
            }
        }
    }
}
