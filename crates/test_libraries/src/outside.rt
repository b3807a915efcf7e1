//! Tests of files and sinks, both in memory and of the operating system, and of streams that fail or end before all
//! bytes are passed.

use scram_io::streams::{read_past, write_whole};
use scram_io::{Files, MemFiles, MemSink, ReadFault, RealFiles, RealSink, Sink, SinkFault};
use std::alloc::Global;
use std::io;
use std::io::{ErrorKind, Read, Write};
use std::process::Abort;
use std::test::Fail;

// Returns files in memory with the names and bytes in `named`. The reads with the numbers in `failing` fail.
fn files_of(alloc: Global, named: &[(&str, &[u8])], failing: &[u32]) -> Result<MemFiles, Fail> {
    let failing = failing.to_vec(alloc)?;
    let mut entries = Vec::new(alloc);
    put_entries(alloc, &mut entries, named)?;
    Ok(MemFiles::new(entries, failing))
}

fn put_entries(
    alloc: Global,
    entries: &mut Vec<(String, Vec<u8>)>,
    named: &[(&str, &[u8])],
) -> Result<(), Fail> {
    for (name, bytes) in named {
        entries.push((name.to_string(alloc)?, bytes.to_vec(alloc)?))?;
    }
    Ok(())
}

// Returns the bytes of the result of a read, or its fault.
fn bytes_of(answer: &Result<Vec<u8>, ReadFault>) -> Result<&[u8], ReadFault> {
    match answer {
        Ok(bytes) => Ok(bytes.as_slice()),
        Err(fault) => Err(*fault),
    }
}

#[test]
fn files_in_memory(rt: HostRuntime) -> Result<(), Fail> {
    let named = [
        ("twice", b"first".as_slice()),
        ("twice", b"second"),
        ("once", b"123"),
    ];
    let mut files = files_of(rt.alloc(), &named, &[1, 6])?;
    read_rows(&rt, rt.alloc(), &mut files);
    drop(files);
    Ok(())
}

fn read_rows(rt: &impl Abort, alloc: Global, files: &mut MemFiles) {
    for (name, limit, want) in [
        ("twice", 5, Ok(b"first".as_slice())),
        ("twice", 5, Err(ReadFault::Failed)),
        ("twice", 4, Err(ReadFault::TooLong)),
        ("never", 5, Err(ReadFault::Failed)),
        ("once", 3, Ok(b"123")),
        ("once", usize::MAX, Ok(b"123")),
        ("once", 2, Err(ReadFault::Failed)),
        ("once", 0, Err(ReadFault::TooLong)),
    ] {
        let answer = files.read(alloc, name, limit);
        assert_eq!(rt; bytes_of(&answer), want, "{name} within {limit}");
    }
}

#[test]
fn sink_in_memory(rt: HostRuntime) -> Result<(), Fail> {
    let mut sink = MemSink::new(rt.alloc(), 6, [1u32].to_vec(rt.alloc())?)?;
    put_rows(&rt, &mut sink);
    drop(sink);
    Ok(())
}

fn put_rows(rt: &impl Abort, sink: &mut MemSink) {
    for (bytes, want) in [
        (b"abc".as_slice(), Ok(())),
        (b"x", Err(SinkFault)),
        (b"defg", Err(SinkFault)),
        (b"def", Ok(())),
        (b"", Ok(())),
        (b"h", Err(SinkFault)),
    ] {
        assert_eq!(rt; sink.put(bytes), want, "{bytes:?}");
    }
    assert_eq!(rt; sink.bytes(), b"abcdef".as_slice());
    assert_eq!(rt; sink.flush(), Ok(()));
}

// Copies the file `file`, of at most 9 bytes, to a sink.
fn copy_file<F: Files, K: Sink>(
    alloc: Global,
    files: &mut F,
    sink: &mut K,
) -> Result<(), ReadFault> {
    let bytes = files.read(alloc, "file", 9)?;
    match sink.put(&bytes) {
        Ok(()) => Ok(()),
        Err(SinkFault) => Err(ReadFault::Failed),
    }
}

#[test]
fn a_file_in_memory_is_copied_to_a_sink_in_memory(rt: HostRuntime) -> Result<(), Fail> {
    let mut files = files_of(rt.alloc(), &[("file", b"some text".as_slice())], &[])?;
    copy_to_memory(&rt, rt.alloc(), &mut files)
}

fn copy_to_memory(rt: &impl Abort, alloc: Global, files: &mut MemFiles) -> Result<(), Fail> {
    let mut sink = MemSink::new(alloc, 9, Vec::new(alloc))?;
    assert_eq!(rt; copy_file(alloc, files, &mut sink), Ok(()));
    assert_eq!(rt; sink.bytes(), b"some text".as_slice());
    Ok(())
}

#[test]
fn a_file_that_is_missing_is_not_read(rt: HostRuntime) {
    let mut missing = RealFiles::new(&rt);
    let answer = missing.read(rt.alloc(), "a name of no file", 9);
    assert_eq!(rt; bytes_of(&answer), Err(ReadFault::Failed));
}

#[test]
fn standard_output_takes_a_line(rt: HostRuntime) -> Result<(), Fail> {
    let mut output = RealSink::new(rt.alloc(), &rt)?;
    put_line(&rt, &mut output);
    Ok(())
}

fn put_line(rt: &impl Abort, output: &mut RealSink<HostRuntime>) {
    assert_eq!(rt; output.put(b"standard output takes this line\n"), Ok(()));
    assert_eq!(rt; output.flush(), Ok(()));
}

// A stream that reads or writes one byte in each of `calls` calls. After that it ends if `ends` is `true`, and fails
// otherwise.
#[derive(Drop)]
struct Trickle {
    calls: u32,
    ends: bool,
}

impl Read for Trickle {
    fn read(&mut self, buf: &mut [u8]) -> io::Result<usize> {
        if self.calls > 0 && !buf.is_empty() {
            self.calls -= 1;
            buf[0] = b'a';
            Ok(1)
        } else if self.ends {
            Ok(0)
        } else {
            Err(io::Error::from(ErrorKind::BrokenPipe))
        }
    }
}

impl Write for Trickle {
    fn write(&mut self, buf: &[u8]) -> io::Result<usize> {
        if self.calls > 0 && !buf.is_empty() {
            self.calls -= 1;
            Ok(1)
        } else if self.ends {
            Ok(0)
        } else {
            Err(io::Error::from(ErrorKind::BrokenPipe))
        }
    }

    fn flush(&mut self) -> io::Result<()> {
        Ok(())
    }
}

// Returns the number of bytes that are read from a stream, or the kind of the error. At most `limit + 1` bytes are
// read.
fn length_past<I: Read>(alloc: Global, input: &mut I, limit: usize) -> Result<usize, ErrorKind> {
    match read_past(alloc, input, limit) {
        Ok(bytes) => Ok(bytes.len()),
        Err(error) => Err(error.kind()),
    }
}

#[test]
fn streams_are_read_in_pieces(rt: HostRuntime) {
    for (calls, ends, limit, want) in [
        (3, true, 3, Ok(3)),
        (9, true, 3, Ok(4)),
        (3, false, 2, Ok(3)),
        (3, false, 3, Err(ErrorKind::BrokenPipe)),
        (0, true, 0, Ok(0)),
    ] {
        let read = length_past(rt.alloc(), &mut Trickle { calls, ends }, limit);
        assert_eq!(rt; read, want, "{calls} bytes within {limit}");
    }
}

#[test]
fn long_streams_are_read_past_a_limit(rt: HostRuntime) -> Result<(), Fail> {
    let long = vec![in rt.alloc(); b'a'; 9000]?;
    read_long(&rt, rt.alloc(), &long);
    Ok(())
}

fn read_long(rt: &impl Abort, alloc: Global, long: &[u8]) {
    for (limit, want) in [(9000, 9000), (8999, 9000), (4096, 4097)] {
        let mut rest = long;
        assert_eq!(rt; length_past(alloc, &mut rest, limit), Ok(want));
    }
}

#[test]
fn streams_are_written_in_pieces(rt: HostRuntime) {
    for (calls, ends, want) in [
        (3, true, Ok(())),
        (2, true, Err(SinkFault)),
        (2, false, Err(SinkFault)),
    ] {
        let written = write_whole(&mut Trickle { calls, ends }, b"abc");
        assert_eq!(rt; written, want, "{calls} bytes");
    }
}
