use crate::{
    Change, Failed, Files, FolderFiles, MemoryFiles, MemorySink, PutFailed, ReadError, Sink,
    StdoutSink, put_changes,
};
use em_base::{Bytes, List, NoMemory, Text};
use std::alloc::Global;
use std::test::Fail;

/// A list of numbers.
fn numbers(alloc: Global, items: &[u64]) -> Result<List<u64>, NoMemory> {
    Ok(List::from_vec(Vec::from_slice(alloc, items)?))
}

/// Files with one file `a` of the bytes `old`.
fn one_file(alloc: Global, fails: &[u64]) -> Result<MemoryFiles, NoMemory> {
    let mut start = List::new(alloc);
    start.push((
        Text::from_str(alloc, "a")?,
        Bytes::from_slice(alloc, b"old".as_slice())?,
    ))?;
    MemoryFiles::new(alloc, &start, &numbers(alloc, fails)?)
}

/// Whether a read gave these bytes.
fn gave(read: &Result<Bytes, ReadError>, want: &[u8]) -> bool {
    match read {
        Ok(bytes) => bytes.as_slice() == want,
        Err(_) => false,
    }
}

/// Whether a read gave this refusal.
fn refused(read: &Result<Bytes, ReadError>, want: ReadError) -> bool {
    match read {
        Ok(_) => false,
        Err(error) => *error == want,
    }
}

#[test]
fn each_call_on_files_in_memory_fails_in_turn(rt: HostRuntime) -> Result<(), Fail> {
    let alloc = rt.alloc();
    for failing in 0u64..6 {
        let mut files = one_file(alloc, [failing].as_slice())?;
        let put = files.put("b", b"new".as_slice());
        let read = files.read(alloc, "b", 3);
        let long = files.read(alloc, "a", 2);
        let removed = files.remove("a");
        let absent = files.read(alloc, "a", 3);
        assert_eq!(rt; put.is_err(), failing == 0, "put at {failing}");
        match failing {
            0 => assert!(rt; refused(&read, ReadError::Absent)),
            1 => assert!(rt; refused(&read, ReadError::Failed)),
            _ => assert!(rt; gave(&read, b"new".as_slice())),
        }
        let want = if failing == 2 {
            ReadError::Failed
        } else {
            ReadError::TooLong
        };
        assert!(rt; refused(&long, want), "too long at {failing}");
        assert_eq!(rt; removed.is_err(), failing == 3, "remove at {failing}");
        match failing {
            3 => assert!(rt; gave(&absent, b"old".as_slice())),
            4 => assert!(rt; refused(&absent, ReadError::Failed)),
            _ => assert!(rt; refused(&absent, ReadError::Absent)),
        }
    }
    Ok(())
}

#[test]
fn each_write_to_a_sink_in_memory_fails_in_turn(rt: HostRuntime) -> Result<(), Fail> {
    let alloc = rt.alloc();
    for (failing, want) in [(0u64, "two"), (1, "one"), (2, "onetwo")] {
        let mut sink = MemorySink::new(alloc, &numbers(alloc, [failing].as_slice())?)?;
        assert_eq!(rt; sink.write(b"one".as_slice()).is_err(), failing == 0);
        assert_eq!(rt; sink.write(b"two".as_slice()).is_err(), failing == 1);
        assert_eq!(rt; sink.bytes(), want.as_bytes());
    }
    Ok(())
}

/// The change of a file.
fn change(alloc: Global, name: &str, old: &[u8], new: &[u8]) -> Result<Change, NoMemory> {
    Ok(Change {
        name: Text::from_str(alloc, name)?,
        old: Bytes::from_slice(alloc, old)?,
        new: Bytes::from_slice(alloc, new)?,
    })
}

#[test]
fn changes_are_put_up_to_the_first_that_fails(rt: HostRuntime) -> Result<(), Fail> {
    let alloc = rt.alloc();
    let mut changes = Vec::new(alloc);
    changes.push(change(alloc, "a", b"old".as_slice(), b"new".as_slice())?)?;
    changes.push(change(alloc, "b", b"".as_slice(), b"two".as_slice())?)?;
    let mut files = one_file(alloc, [].as_slice())?;
    assert!(rt; put_changes(&mut files, changes.as_slice()) == Ok(()));
    assert!(rt; gave(&files.read(alloc, "a", 3), b"new".as_slice()));
    assert!(rt; gave(&files.read(alloc, "b", 3), b"two".as_slice()));
    let mut files = one_file(alloc, [1].as_slice())?;
    assert!(rt; put_changes(&mut files, changes.as_slice()) == Err(PutFailed { which: 1 }));
    assert!(rt; gave(&files.read(alloc, "a", 3), b"new".as_slice()));
    assert!(rt; refused(&files.read(alloc, "b", 3), ReadError::Absent));
    Ok(())
}

#[test]
fn a_real_file_is_put_read_and_removed(rt: HostRuntime) -> Result<(), Fail> {
    let alloc = rt.alloc();
    let name = "em_disk_test.txt";
    let bytes = vec![in alloc; b'x'; 200_000]?;
    let mut files = FolderFiles::new(&rt);
    assert!(rt; files.put(name, bytes.as_slice()).is_ok());
    assert!(rt; gave(&files.read(alloc, name, 200_000), bytes.as_slice()));
    assert!(rt; refused(&files.read(alloc, name, 199_999), ReadError::TooLong));
    assert!(rt;
        refused(
            &files.read(alloc, "em_disk_test.txt.edition-tmp", 1),
            ReadError::Absent
        )
    );
    assert!(rt; files.remove(name).is_ok());
    assert!(rt; files.remove(name).is_ok());
    assert!(rt; refused(&files.read(alloc, name, 1), ReadError::Absent));
    assert!(rt; refused(&files.read(alloc, ".", 1), ReadError::Failed));
    assert!(rt; files.put("em_disk_absent/a", b"".as_slice()) == Err(Failed));
    assert!(rt; files.remove(".") == Err(Failed));
    Ok(())
}

#[test]
fn standard_output_takes_a_piece(rt: HostRuntime) {
    let mut sink = StdoutSink::new(&rt);
    assert!(rt; sink.write(b"one piece\n".as_slice()).is_ok());
}
