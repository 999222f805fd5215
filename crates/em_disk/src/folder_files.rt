ghost use Rattle.std.specs.Prelude.{◌≡◌, None, ◌≤◌, ◌<◌, ◌+◌, ◌^◌, ◌⊎◌, length, take, OnOk, MatchResult, IfOk, IfSome};
ghost use Rattle.std.specs.Io.KnownBytes.{Keeps, prepend_known, IsAtEnd};
ghost use Rattle.em_disk.specs.Adapters.{folder_faults};
ghost use Rattle.em_disk.specs.Causes.{raised, HasCause};
ghost use Rattle.em_disk.specs.Answers.{ReadHasCause, faults_after};

use crate::traits::{Failed, Files, ReadError};
use em_base::Bytes;
use std::alloc::Global;
use std::io::{ErrorKind, Read};
use std::rt::Files as HostFiles;
use std::{fs, io};

/// How many bytes are asked for at a time.
const BUFFER_BYTES: usize = 65_536;

/// The files of the current folder. It does not tell what they hold.
///
/// A put writes the file `NAME.edition-tmp`, which it then renames. That name stands outside of what is said of the
/// files: a put that fails may leave it there.
#[derive(Drop)]
pub struct FolderFiles<R: HostFiles + AllocGlobal> {
    host: R,
    faults: u64,
}

/// Reads once, and puts what was read at the end of the bytes. Nothing is read at the end, or with no room.
#[tactic(auto, using(crate::proofs::Streams::keeps_consumed))]
fn read_more<T: Read>(reader: &mut T, buffer: &mut [u8], bytes: &mut Vec<u8>) -> io::Result<usize>
    ensures within { IfOk result (λ count. count ≤ length buffer.old) }
    ensures more { IfOk result (λ count. length bytes.new.items ≡ length bytes.old.items + count) }
    ensures kept { OnOk result (Keeps (prepend_known bytes.old.items (T.remaining reader.old)) (prepend_known bytes.new.items (T.remaining reader.new))) }
    ensures end { IfOk result (λ count. count ≡ 0 → 0 < length buffer.old → IsAtEnd (T.remaining reader.new)) }
{
    let count = reader.read(buffer)?;
    bytes.extend_from_slice(&buffer[..count])?;
    Ok(count)
}

/// Reads on until the bytes are so many, or all that the reader has.
#[tactic(auto, using(crate::proofs::Streams::keeps_on))]
fn read_front<T: Read>(
    reader: &mut T,
    buffer: &mut [u8],
    bytes: &mut Vec<u8>,
    most: usize,
) -> io::Result<()>
    requires room { 0 < length buffer.old }
    requires few { length bytes.old.items ≤ most }
    ensures short { OnOk result (length bytes.new.items ≤ most) }
    ensures kept { OnOk result (Keeps (prepend_known bytes.old.items (T.remaining reader.old)) (prepend_known bytes.new.items (T.remaining reader.new))) }
    ensures end { OnOk result ((length bytes.new.items ≡ most) ⊎ IsAtEnd (T.remaining reader.new)) }
{
    while bytes.len() < most {
        let room = (most - bytes.len()).min(buffer.len());
        if read_more(reader, &mut buffer[..room], bytes)? == 0 {
            return Ok(());
        }
    }
    Ok(())
}

/// The first bytes that a reader gives: all that it has, or so many.
fn front_of<T: Read>(alloc: Global, reader: &mut T, most: usize) -> io::Result<Vec<u8>>
    ensures short { IfOk result (λ bytes. length bytes.items ≤ most) }
    ensures front { IfOk result (λ bytes. IfSome (T.remaining reader.old) (λ xs. bytes.items ≡ take most xs)) }
{
    let mut bytes = Vec::new(alloc);
    let mut buffer = vec![in alloc; 0u8; BUFFER_BYTES]?;
    read_front(reader, buffer.as_mut_slice(), &mut bytes, most)?;
    Ok(bytes)
}

/// Writes a file whole under another name, and then renames it.
fn write_whole<R: HostFiles + AllocGlobal>(host: &R, name: &str, bytes: &[u8]) -> io::Result<()> {
    let beside = format!(in host.alloc(); "{name}.edition-tmp")?;
    fs::write(host, beside.as_str(), bytes)?;
    fs::rename(host, beside.as_str(), name)
}

impl<R: HostFiles + AllocGlobal> FolderFiles<R> {
    /// Makes no call on the outside.
    pub fn new(host: R) -> FolderFiles<R>
        ensures { folder_faults result ≡ 0 }
    {
        FolderFiles { host, faults: 0 }
    }

    /// Counts a fault.
    fn fail(&mut self) -> Failed
        ensures risen { self.new ≡ record self.old { faults = raised self.old.faults } }
        ensures later { self.old.faults ≤ self.new.faults }
    {
        self.faults = self.faults.saturating_add(1);
        Failed
    }
}

impl<R: HostFiles + AllocGlobal> Files for FolderFiles<R> {
    ghost held = { λ _. None };

    ghost faults = { folder_faults };

    /// Reads no more than `most + 1` bytes. A file that is not found is absent, and want of memory is no fault.
    fn read(&mut self, alloc: Global, name: &str, most: usize) -> Result<Bytes, ReadError>
        requires { most < 2 ^ 32 }
        ensures short { IfOk result (λ bytes. length bytes ≤ most) }
        ensures cause { ReadHasCause (folder_faults self.old) (folder_faults self.new) result }
        ensures counted { folder_faults self.new ≡ faults_after (folder_faults self.old) result }
    {
        let bytes = match fs::open(&self.host, name) {
            Ok(mut file) => front_of(alloc, &mut file, most + 1),
            Err(error) => Err(error),
        };
        match bytes {
            Ok(bytes) => {
                if bytes.len() > most {
                    Err(ReadError::TooLong)
                } else {
                    Ok(Bytes::from_vec(bytes))
                }
            }
            Err(error) => match error.kind() {
                ErrorKind::NotFound => Err(ReadError::Absent),
                ErrorKind::OutOfMemory => Err(ReadError::NoMemory),
                _ => {
                    self.fail();
                    Err(ReadError::Failed)
                }
            },
        }
    }

    /// Want of memory is a fault here, and so is a folder that is missing.
    fn put(&mut self, name: &str, bytes: &[u8]) -> Result<(), Failed>
        ensures cause { HasCause (folder_faults self.old) (folder_faults self.new) result }
        ensures counted { MatchResult result (λ _. folder_faults self.new ≡ folder_faults self.old) (λ _. folder_faults self.new ≡ raised (folder_faults self.old)) }
    {
        match write_whole(&self.host, name, bytes) {
            Ok(()) => Ok(()),
            Err(_) => Err(self.fail()),
        }
    }

    /// A file that is not found is as good as removed.
    fn remove(&mut self, name: &str) -> Result<(), Failed>
        ensures cause { HasCause (folder_faults self.old) (folder_faults self.new) result }
        ensures counted { MatchResult result (λ _. folder_faults self.new ≡ folder_faults self.old) (λ _. folder_faults self.new ≡ raised (folder_faults self.old)) }
    {
        match fs::remove_file(&self.host, name) {
            Ok(()) => Ok(()),
            Err(error) => match error.kind() {
                ErrorKind::NotFound => Ok(()),
                _ => Err(self.fail()),
            },
        }
    }
}
