//! Streams that give little at a time, that fail, and that do not end.

use crate::row::{row_and_replies, row_sent};
use crate::table::lines_of;
use event_lines::{RunFault, run_lines};
use std::alloc::Global;
use std::cell::Cell;
use std::io;
use std::io::{Read, Write};
use std::test::Fail;
use streams::{Reader, Writer};

/// A reader that gives at most this many bytes a read, and whose reads fail after this number.
#[derive(Drop)]
struct Slow<'a> {
    bytes: &'a [u8],
    at_most: usize,
    reads: u32,
}

impl<'a> Read for Slow<'a> {
    fn read(&mut self, room: &mut [u8]) -> io::Result<usize> {
        if self.reads == 0 {
            return Err(io::Error::from(io::ErrorKind::Other));
        }
        self.reads -= 1;
        let len = room.len().min(self.at_most);
        self.bytes.read(&mut room[..len])
    }
}

/// A writer that takes at most this many bytes a write, and whose writes and flushes fail after
/// these numbers.
#[derive(Drop)]
struct Narrow {
    bytes: Vec<u8>,
    at_most: usize,
    writes: u32,
    flushes: u32,
}

impl Narrow {
    /// A writer with these limits, to which nothing was written.
    fn new(alloc: Global, at_most: usize, writes: u32, flushes: u32) -> Self {
        Narrow {
            bytes: Vec::new(alloc),
            at_most,
            writes,
            flushes,
        }
    }
}

impl Write for Narrow {
    fn write(&mut self, bytes: &[u8]) -> io::Result<usize> {
        if self.writes == 0 {
            return Err(io::Error::from(io::ErrorKind::Other));
        }
        self.writes -= 1;
        let len = bytes.len().min(self.at_most);
        self.bytes.write(&bytes[..len])
    }

    fn flush(&mut self) -> io::Result<()> {
        if self.flushes == 0 {
            return Err(io::Error::from(io::ErrorKind::Other));
        }
        self.flushes -= 1;
        Ok(())
    }
}

/// A reader that gives one line a read, and only after the replies to all lines before it were
/// flushed; else its read fails.
#[derive(Drop)]
struct Patient<'a> {
    bytes: &'a [u8],
    asked: usize,
    answered: &'a Cell<usize>,
}

impl<'a> Read for Patient<'a> {
    fn read(&mut self, room: &mut [u8]) -> io::Result<usize> {
        if self.answered.get() != self.asked {
            return Err(io::Error::from(io::ErrorKind::Other));
        }
        let line = match self.bytes.iter().position(|byte| *byte == b'\n') {
            Some(end) => end + 1,
            None => self.bytes.len(),
        };
        let len = room.len().min(line);
        let len = self.bytes.read(&mut room[..len])?;
        self.asked = self.asked.saturating_add(ends_in(&room[..len]));
        Ok(len)
    }
}

/// A writer that counts the lines that were flushed.
#[derive(Drop)]
struct Flushed<'a> {
    bytes: Vec<u8>,
    lines: &'a Cell<usize>,
}

impl<'a> Write for Flushed<'a> {
    fn write(&mut self, bytes: &[u8]) -> io::Result<usize> {
        self.bytes.write(bytes)
    }

    fn flush(&mut self) -> io::Result<()> {
        self.lines.set(ends_in(&self.bytes));
        Ok(())
    }
}

/// A reader of a topology and then blanks without an end.
#[derive(Drop)]
struct Endless<'a> {
    bytes: &'a [u8],
}

impl<'a> Read for Endless<'a> {
    fn read(&mut self, room: &mut [u8]) -> io::Result<usize> {
        if !self.bytes.is_empty() {
            return self.bytes.read(room);
        }
        room.fill(b' ');
        Ok(room.len())
    }
}

/// The number of line ends among the bytes.
fn ends_in(bytes: &[u8]) -> usize {
    bytes.iter().filter(|byte| **byte == b'\n').count()
}

/// How a run over these streams ends, and its writer. Fails if the run blames a stream that did not
/// fail, or does not blame one that did.
fn ran<R: Read + Drop, W: Write + Drop>(
    alloc: Global,
    reader: R,
    writer: W,
) -> Result<(Result<(), RunFault>, W), Fail> {
    let mut source = Reader::new(reader);
    let mut sink = Writer::new(writer);
    let result = run_lines(alloc, &mut source, &mut sink);
    let blames = |fault: RunFault| result == Err(fault);
    if blames(RunFault::Read) != source.has_failed()
        || blames(RunFault::Write) != sink.has_failed()
    {
        return Err(Fail::new("the wrong stream is blamed"));
    }
    Ok((result, sink.into_inner()))
}

#[test]
fn reads_of_one_byte(rt: HostRuntime) -> Result<(), Fail> {
    let alloc = rt.alloc();
    let (input, wanted) = row_and_replies(alloc)?;
    let reader = Slow {
        bytes: input.as_bytes(),
        at_most: 1,
        reads: u32::MAX,
    };
    let (result, output) = ran(alloc, reader, Vec::new(alloc))?;
    assert!(rt; result.is_ok());
    assert!(rt; output.as_slice() == wanted.as_bytes());
    Ok(())
}

/// Whether a run answers exactly the lines that were read whole, if its reads give at most this
/// many bytes and fail after this number.
fn answers_what_was_read(alloc: Global, at_most: usize, reads: u32) -> Result<bool, Fail> {
    let (input, wanted) = row_and_replies(alloc)?;
    let reader = Slow {
        bytes: input.as_bytes(),
        at_most,
        reads,
    };
    let (result, output) = ran(alloc, reader, Vec::new(alloc))?;
    let read = at_most.saturating_mul(reads as usize).min(input.len());
    let ended = match result {
        Ok(()) => read == input.len(),
        Err(fault) => fault == RunFault::Read,
    };
    let answers = ends_in(&output) == ends_in(&input.as_bytes()[..read]);
    Ok(ended && answers && wanted.as_bytes().starts_with(&output))
}

#[test]
fn each_read_fails(rt: HostRuntime) -> Result<(), Fail> {
    for (at_most, needed) in [(7, 200), (50, 30), (4096, 3)] {
        for reads in 0..needed {
            assert!(rt; answers_what_was_read(rt.alloc(), at_most, reads)?);
        }
    }
    Ok(())
}

/// Whether a run whose reads give little at a time ends without a fault after all replies, or with
/// this writer's fault after a beginning of them.
fn writes_a_front(alloc: Global, writer: Narrow) -> Result<bool, Fail> {
    let (input, wanted) = row_and_replies(alloc)?;
    let reader = Slow {
        bytes: input.as_bytes(),
        at_most: 50,
        reads: u32::MAX,
    };
    let (result, output) = ran(alloc, reader, writer)?;
    let ended = match result {
        Ok(()) => output.bytes.len() == wanted.len(),
        Err(fault) => fault == RunFault::Write,
    };
    Ok(ended && wanted.as_bytes().starts_with(&output.bytes))
}

#[test]
fn each_write_fails(rt: HostRuntime) -> Result<(), Fail> {
    let alloc = rt.alloc();
    for at_most in [1, 3, 4096] {
        for writes in 0..300 {
            assert!(rt; writes_a_front(alloc, Narrow::new(alloc, at_most, writes, u32::MAX))?);
        }
    }
    Ok(())
}

#[test]
fn each_flush_fails(rt: HostRuntime) -> Result<(), Fail> {
    let alloc = rt.alloc();
    for flushes in 0..15 {
        assert!(rt; writes_a_front(alloc, Narrow::new(alloc, 4096, u32::MAX, flushes))?);
    }
    let (input, _) = row_and_replies(alloc)?;
    let writer = Narrow::new(alloc, 4096, u32::MAX, 0);
    let (result, _) = ran(alloc, input.as_bytes(), writer)?;
    assert!(rt; result == Err(RunFault::Write));
    Ok(())
}

#[test]
fn answers_are_flushed_before_the_next_read(rt: HostRuntime) -> Result<(), Fail> {
    let alloc = rt.alloc();
    let (input, wanted) = row_and_replies(alloc)?;
    let answered = Cell::new(0);
    let reader = Patient {
        bytes: input.as_bytes(),
        asked: 0,
        answered: &answered,
    };
    let writer = Flushed {
        bytes: Vec::new(alloc),
        lines: &answered,
    };
    let (result, output) = ran(alloc, reader, writer)?;
    assert!(rt; result.is_ok());
    assert!(rt; output.bytes.as_slice() == wanted.as_bytes());
    Ok(())
}

#[test]
fn a_write_that_takes_nothing(rt: HostRuntime) -> Result<(), Fail> {
    let alloc = rt.alloc();
    let (input, _) = row_and_replies(alloc)?;
    let writer = Narrow::new(alloc, 0, u32::MAX, u32::MAX);
    let (result, output) = ran(alloc, input.as_bytes(), writer)?;
    assert!(rt; result == Err(RunFault::Write));
    assert!(rt; output.bytes.is_empty());
    Ok(())
}

#[test]
fn blanks_without_an_end(rt: HostRuntime) -> Result<(), Fail> {
    let alloc = rt.alloc();
    let [topology, ..] = row_sent();
    let input = lines_of(alloc, &[&[topology]])?;
    let reader = Endless {
        bytes: input.as_bytes(),
    };
    let (result, output) = ran(alloc, reader, Vec::new(alloc))?;
    assert!(rt; result == Err(RunFault::InputTooLong));
    assert!(rt; output.as_slice() == "topology ok\n".as_bytes());
    Ok(())
}

#[test]
fn sentences(rt: HostRuntime) -> Result<(), Fail> {
    let faults = [
        (RunFault::Topology, "topology refused"),
        (RunFault::Read, "read failed"),
        (RunFault::Write, "write failed"),
        (RunFault::Memory, "out of memory"),
        (RunFault::InputTooLong, "input too long"),
    ];
    for (fault, sentence) in faults {
        let text = fault.to_string(rt.alloc())?;
        assert_eq!(rt; text.as_str(), sentence);
    }
    Ok(())
}
