//! The adapters at the real outside, and the forms in memory where memory is ample.

use crate::{
    Failed, FileMap, FileSystem, Files, MemFiles, MemSink, MemSource, OpenFault, SafeFiles,
    SafeSink, SafeSource, Sink, SinkFault, Source, StdIn, StdOut,
};
use std::alloc::{AllocError, Global};
use std::io::{ErrorKind, Read, Write};
use std::test::Fail;
use std::{fs, io};

/// A reader that gives a byte, fails, and is at its end.
#[derive(Drop)]
struct Reader {
    reads: u8,
}

impl Read for Reader {
    fn read(&mut self, buf: &mut [u8]) -> io::Result<usize> {
        self.reads = self.reads.saturating_add(1);
        match self.reads {
            1 => Ok(buf.len().min(1)),
            2 => Err(io::Error::from(ErrorKind::Other)),
            _ => Ok(0),
        }
    }
}

/// A device that takes nothing, or that takes all and loses it when it is flushed.
#[derive(Drop)]
struct Device {
    takes: bool,
}

impl Write for Device {
    fn write(&mut self, piece: &[u8]) -> io::Result<usize> {
        Ok(if self.takes { piece.len() } else { 0 })
    }

    fn flush(&mut self) -> io::Result<()> {
        Err(io::Error::from(ErrorKind::Other))
    }
}

fn two_files(alloc: Global) -> Result<FileMap, AllocError> {
    let mut files = FileMap::new(alloc);
    files.put(b"one", Vec::from_slice(alloc, b"old")?)?;
    files.put(b"two", Vec::from_slice(alloc, b"other")?)?;
    files.put(b"one", Vec::from_slice(alloc, b"new!")?)?;
    Ok(files)
}

#[test]
fn adapters(rt: HostRuntime) -> Result<(), Fail> {
    // An open file stays readable when its name is removed.
    fs::write(&rt, "one", b"abc")?;
    let mut buf = [0; 8];
    let mut files = FileSystem::new(&rt);
    let opened = files.open(b"one");
    fs::remove_file(&rt, "one")?;
    assert_eq!(rt; opened, Ok(()));
    assert_eq!(rt; files.read(&mut buf), Ok(3));
    assert_eq!(rt; buf, *b"abc\0\0\0\0\0");
    assert_eq!(rt; files.read(&mut buf), Ok(0));
    files.close();

    // A folder opens; its first read fails.
    files.open(b".")?;
    assert_eq!(rt; files.read(&mut buf), Err(Failed));
    let refused: [(&[u8], OpenFault); 5] = [
        (b"", OpenFault::Missing),
        (b"two", OpenFault::Missing),
        (b"\xff", OpenFault::Missing),
        (b"one\0", OpenFault::Failed),
        (b"/dev/null/one", OpenFault::Failed),
    ];
    for (name, fault) in refused {
        assert_eq!(rt; files.open(name), Err(fault), "{name:?}");
    }

    assert_eq!(rt; StdIn::new(rt.reader()).read(&mut buf), Ok(0));
    let mut input = StdIn::new(Reader { reads: 0 });
    for answer in [Ok(1), Err(Failed), Ok(0)] {
        assert_eq!(rt; input.read(&mut buf), answer);
    }
    assert_eq!(rt; StdOut::new(io::writer(&rt)).write(b"one line\n"), Ok(9));
    for takes in [false, true] {
        let mut out = StdOut::new(Device { takes });
        assert_eq!(rt; out.write(b"one line\n"), Err(SinkFault::Failed), "{takes}");
    }
    Ok(())
}

#[test]
fn files_in_memory(rt: HostRuntime) -> Result<(), Fail> {
    let mut buf = [0; 8];
    let mut files = SafeFiles::new(two_files(rt.alloc())?);
    assert_eq!(rt; files.open(b"three"), Err(OpenFault::Missing));
    files.open(b"one")?;
    assert_eq!(rt; files.read(&mut buf), Ok(4));
    assert_eq!(rt; buf, *b"new!\0\0\0\0");
    assert_eq!(rt; files.read(&mut buf), Ok(0));

    let failing = vec![in rt.alloc(); 1, 3]?;
    let mut files = MemFiles::new(two_files(rt.alloc())?, failing);
    assert_eq!(rt; files.open(b"two"), Err(OpenFault::Failed));
    files.open(b"two")?;
    assert_eq!(rt; files.read(&mut buf), Err(Failed));
    assert_eq!(rt; files.read(&mut buf), Ok(5));
    assert_eq!(rt; buf, *b"other\0\0\0");
    files.close();
    assert_eq!(rt; files.open(b"three"), Err(OpenFault::Missing));

    let mut files = MemFiles::short(two_files(rt.alloc())?, Vec::new(rt.alloc()), 3);
    files.open(b"one")?;
    assert_eq!(rt; files.read(&mut buf), Ok(3));
    assert_eq!(rt; files.read(&mut buf), Ok(1));
    assert_eq!(rt; files.read(&mut buf), Ok(0));
    Ok(())
}

#[test]
fn streams_in_memory(rt: HostRuntime) -> Result<(), Fail> {
    let mut buf = [0; 2];
    let mut source = SafeSource::new(Vec::from_slice(rt.alloc(), b"abc")?);
    for count in [2, 1, 0] {
        assert_eq!(rt; source.read(&mut buf), Ok(count));
    }
    assert_eq!(rt; buf, *b"cb");
    let failing = vec![in rt.alloc(); 2]?;
    let mut source = MemSource::new(Vec::from_slice(rt.alloc(), b"abc")?, failing);
    for answer in [Ok(2), Err(Failed), Ok(1), Ok(0)] {
        assert_eq!(rt; source.read(&mut buf), answer);
    }
    let bytes = Vec::from_slice(rt.alloc(), b"ab")?;
    let mut source = MemSource::short(bytes, Vec::new(rt.alloc()), 1);
    for count in [1, 1, 0] {
        assert_eq!(rt; source.read(&mut buf), Ok(count));
    }

    let mut sink = SafeSink::new(rt.alloc());
    assert_eq!(rt; sink.write(b"ab"), Ok(2));
    assert_eq!(rt; sink.bytes(), b"ab".as_slice());
    let failing = vec![in rt.alloc(); 2]?;
    let mut sink = MemSink::new(rt.alloc(), failing);
    for answer in [Ok(2), Err(SinkFault::Failed), Ok(2)] {
        assert_eq!(rt; sink.write(b"ab"), answer);
    }
    assert_eq!(rt; sink.bytes(), b"abab".as_slice());
    let mut sink = MemSink::short(rt.alloc(), Vec::new(rt.alloc()), 1);
    assert_eq!(rt; sink.write(b"ab"), Ok(1));
    assert_eq!(rt; sink.bytes(), b"a".as_slice());
    Ok(())
}

#[test]
fn faults_in_words(rt: HostRuntime) -> Result<(), Fail> {
    let (read, write, open) = (Failed, SinkFault::Failed, OpenFault::Missing);
    let said = format!(in rt.alloc(); "{read}; {write}; {open}")?;
    assert_eq!(rt;
        said.as_str(),
        "a read failed; a write failed; there is no file of this name"
    );
    Ok(())
}
