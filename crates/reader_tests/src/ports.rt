//! The objects that stand for files and streams.

use mine_model::NoMemory;
use std::alloc::{AllocError, Global};
use std::io::{ErrorKind, Write};
use std::{fs, io};
use test_facts::first_false;
use text_ports::{
    DiskFiles, Failed, Files, MemFile, MemFiles, MemSink, Sink, StdSink, SureFiles, SureSink,
    write_all,
};

fn named(alloc: Global, name: &str, bytes: &str) -> Result<MemFile, AllocError> {
    Ok(MemFile {
        name: Vec::from_slice(alloc, name.as_bytes())?,
        bytes: Vec::from_slice(alloc, bytes.as_bytes())?,
    })
}

/// Two files of one name, of which reads give two bytes. The calls 1, 4 and 10 fail.
fn two_of_a_name(alloc: Global) -> Result<MemFiles, AllocError> {
    let first = named(alloc, "rows", "abc")?;
    let files = vec![in alloc; first, named(alloc, "rows", "d")?]?;
    Ok(MemFiles::new(files, vec![in alloc; 1, 4, 10]?, 2))
}

/// The number of the first wrong fact of files in memory.
fn wrong_fact_of_files(files: &mut MemFiles) -> Option<usize> {
    let mut buffer = [0; 4];
    let facts = [
        files.open("rows") == Err(Failed),
        files.open("rows") == Ok(()),
        files.read(&mut buffer) == Ok(2),
        files.read(&mut buffer) == Err(Failed),
        files.read(&mut buffer) == Ok(1),
        buffer == [b'c', b'b', 0, 0],
        files.read(&mut buffer) == Ok(0),
        files.open("absent") == Err(Failed),
        files.read(&mut buffer) == Ok(0),
        files.open("rows") == Ok(()),
        files.open("rows") == Err(Failed),
        files.read(&mut buffer) == Ok(0),
    ];
    first_false(&facts)
}

fn wrong_fact_in_memory(alloc: Global) -> Result<Option<usize>, NoMemory> {
    let mut files = two_of_a_name(alloc)?;
    Ok(wrong_fact_of_files(&mut files))
}

#[test]
fn files_in_memory_fail_where_they_are_told_to(rt: HostRuntime) {
    assert_eq!(rt; wrong_fact_in_memory(rt.alloc()), Ok(None));
}

const CALLS: &[(&str, Result<usize, Failed>, &str)] = &[
    ("abcd", Ok(3), "abc"),
    ("defg", Err(Failed), "abc"),
    ("defg", Ok(2), "abcde"),
    ("", Ok(0), "abcde"),
    ("fg", Err(Failed), "abcde"),
];

/// The number of the first call after which the sink answered or holds something else.
fn first_miswritten(sink: &mut MemSink) -> Option<usize> {
    for (number, (piece, outcome, held)) in CALLS.iter().enumerate() {
        if sink.write(piece.as_bytes()) != *outcome || sink.bytes() != held.as_bytes() {
            return Some(number);
        }
    }
    None
}

fn write_in_memory(alloc: Global) -> Result<Option<usize>, NoMemory> {
    let mut sink = MemSink::new(alloc, 5, 3, vec![in alloc; 2]?)?;
    Ok(first_miswritten(&mut sink))
}

#[test]
fn a_sink_in_memory_is_cut_fails_and_is_full(rt: HostRuntime) {
    assert_eq!(rt; write_in_memory(rt.alloc()), Ok(None));
}

/// A text is written whole, and the next one as far as the sink takes it. The number of the first wrong fact.
fn wrong_fact(sink: &mut MemSink) -> Option<usize> {
    let facts = [
        write_all(sink, b"abc") == Ok(()),
        write_all(sink, b"defg") == Err(Failed),
        sink.bytes() == b"abcde".as_slice(),
    ];
    first_false(&facts)
}

fn wrong_fact_of_pieces(alloc: Global) -> Result<Option<usize>, NoMemory> {
    let mut sink = MemSink::new(alloc, 5, 2, vec![in alloc; 4]?)?;
    Ok(wrong_fact(&mut sink))
}

#[test]
fn a_text_is_written_in_pieces(rt: HostRuntime) {
    assert_eq!(rt; wrong_fact_of_pieces(rt.alloc()), Ok(None));
}

/// The number of the first wrong fact of files and a sink that never fail.
fn wrong_fact_of_sure(files: &mut SureFiles) -> Option<usize> {
    let mut buffer = [0; 2];
    let facts = [
        SureSink.write(b"abc") == Ok(3),
        files.open("f") == Ok(()),
        files.read(&mut buffer) == Ok(1),
        files.open("absent") == Ok(()),
        files.read(&mut buffer) == Ok(0),
    ];
    first_false(&facts)
}

fn wrong_sure_fact(alloc: Global) -> Result<Option<usize>, NoMemory> {
    let file = named(alloc, "f", "x")?;
    let mut files = SureFiles::new(vec![in alloc; file]?, 1);
    Ok(wrong_fact_of_sure(&mut files))
}

#[test]
fn sure_ones_never_fail(rt: HostRuntime) {
    assert_eq!(rt; wrong_sure_fact(rt.alloc()), Ok(None));
}

#[test]
fn the_disk_is_read_with_no_buffer_between(rt: HostRuntime) {
    let mut buffer = [0; 4096];
    let mut files = DiskFiles::new(&rt);
    let facts = [
        fs::write(&rt, "ports_long.txt", [b'x'; 5000].as_slice()).is_ok(),
        files.read(&mut buffer) == Ok(0),
        files.open("ports_long.txt") == Ok(()),
        files.read(&mut buffer) == Ok(4096),
        files.read(&mut buffer) == Ok(904),
        files.read(&mut buffer) == Ok(0),
        files.open("ports_absent.txt") == Err(Failed),
        files.read(&mut buffer) == Ok(0),
        files.open("-") == Ok(()),
        fs::remove_file(&rt, "ports_long.txt").is_ok(),
    ];
    assert_eq!(rt; first_false(&facts), None);
}

/// Is interrupted so many times at a write and so many times at a flush. It takes at most so many bytes of a
/// piece, and may have lost its reader when it is flushed.
#[derive(Clone, Copy, Drop)]
struct Stream {
    writes: u32,
    flushes: u32,
    takes: usize,
    is_lost: bool,
}

impl Write for Stream {
    fn write(&mut self, buf: &[u8]) -> io::Result<usize> {
        if self.writes > 0 {
            self.writes -= 1;
            return Err(io::Error::from(ErrorKind::Interrupted));
        }
        Ok(buf.len().min(self.takes))
    }

    fn flush(&mut self) -> io::Result<()> {
        if self.flushes > 0 {
            self.flushes -= 1;
            return Err(io::Error::from(ErrorKind::Interrupted));
        }
        if self.is_lost {
            return Err(io::Error::from(ErrorKind::BrokenPipe));
        }
        Ok(())
    }
}

/// Interrupted writes and flushes, the bytes that are taken, whether the reader is lost, and what a write of
/// three bytes answers.
const STREAMS: &[(u32, u32, usize, bool, Result<usize, Failed>)] = &[
    (0, 0, 5_000, false, Ok(3)),
    (1, 0, 2, false, Ok(2)),
    (63, 63, 1, false, Ok(1)),
    (64, 0, 1, false, Err(Failed)),
    (0, 64, 1, false, Err(Failed)),
    (0, 0, 0, false, Err(Failed)),
    (0, 0, 1, true, Err(Failed)),
];

/// The number of the first stream to which a write answers something else.
fn first_other_stream() -> Option<usize> {
    for (number, (writes, flushes, takes, is_lost, outcome)) in STREAMS.iter().enumerate() {
        let mut sink = StdSink::new(Stream {
            writes: *writes,
            flushes: *flushes,
            takes: *takes,
            is_lost: *is_lost,
        });
        if sink.write(b"abc") != *outcome {
            return Some(number);
        }
    }
    None
}

#[test]
fn an_interrupted_call_is_made_again(rt: HostRuntime) {
    assert_eq!(rt; first_other_stream(), None);
    let out = StdSink::out(&rt).write(b"\n");
    let err = StdSink::err(&rt).write(b"\n");
    assert!(rt; out == Ok(1) && err == Ok(1));
}
